// A device in memory, with which power cuts are rehearsed. It has what each sector shows, and a log of what each write since the last sync replaced: a sync forgets the log, and a cut undoes
// some of it.
ghost use Rattle.std.specs.Prelude.{◌≡◌, ◌%◌, IfOk, nat_lt};
ghost use Rattle.device.specs.Sectors.{AfterCut};
ghost use Rattle.device.specs.Random.{turned, mixed};
ghost use Rattle.device.specs.Memory.{lit, spent, limited, size_of, view_of, counts, counts_of, one_more, is_on, Blank, Unchanged, MemorySteps, MemoryPlays, MemoryRuns, MemoryCuts};

use crate::Device;
use crate::random::SplitMix64;
use crate::theorems::Answering;
use std::alloc::{AllocError, Global};

// What a write replaced.
#[derive(Drop)]
struct Logged {
    at: u64,
    was: [u8; 512],
}

// Whether what is asked is answered: always, so many times more, or no more.
#[derive(Clone, Copy)]
enum Power {
    Unlimited,
    For(u64),
    Off,
}

impl Power {
    fn is_lit(&self) -> bool
        ensures { result ≡ lit self.now }
    {
        !matches!(self, Power::Off)
    }

    // Something is asked: is it answered?
    fn spend(&mut self) -> bool
        ensures after { self.new ≡ spent self.old }
        ensures value { result ≡ lit (spent self.old) }
    {
        *self = match *self {
            Power::Unlimited => Power::Unlimited,
            Power::For(0) => Power::Off,
            Power::For(n) => Power::For(n - 1),
            Power::Off => Power::Off,
        };
        self.is_lit()
    }
}

// A coin that shows heads so many times in 256. Its odds come from the seed too, so that some cuts lose nearly all that was written, and some hardly anything.
#[derive(Drop)]
struct Coin {
    random: SplitMix64,
    odds: u64,
}

impl Coin {
    fn new(seed: u64) -> Coin
        ensures state { result.random.state ≡ turned seed }
        ensures odds { result.odds ≡ mixed (turned seed) % 257 }
    {
        let mut random = SplitMix64::new(seed);
        let odds = random.next_u64() % 257;
        Coin { random, odds }
    }

    fn toss(&mut self) -> bool
        ensures state { self.new.random.state ≡ turned self.old.random.state }
        ensures odds { self.new.odds ≡ self.old.odds }
        ensures value { result ≡ nat_lt (mixed (turned self.old.random.state) % 256) self.old.odds }
    {
        self.random.next_u64() % 256 < self.odds
    }
}

// How often a device was asked and answered, up to the largest number.
#[derive(Clone, Copy, Debug, Default, PartialEq, Eq)]
pub struct Askings {
    pub reads: u64,
    pub writes: u64,
    pub syncs: u64,
}

#[derive(Drop)]
pub struct Memory {
    shown: Vec<[u8; 512]>,
    // since the last sync, the oldest first
    log: Vec<Logged>,
    power: Power,
    answered: Askings,
}

// One more, up to the largest number.
fn count(n: &mut u64)
    ensures { n.new ≡ one_more n.old }
{
    *n = n.saturating_add(1);
}

impl Memory {
    // A blank device, with the power on.
    pub fn new(heap: Global, sectors: u64) -> Result<Memory, AllocError>
        ensures { IfOk result (λ m. Blank m sectors) }
    {
        Ok(Memory {
            shown: vec![in heap; [0; 512]; sectors as usize]?,
            log: Vec::new(heap),
            power: Power::Unlimited,
            answered: Askings::default(),
        })
    }

    pub fn sectors(&self) -> u64
        ensures { result ≡ size_of self.now }
    {
        self.shown.len() as u64
    }

    pub fn askings(&self) -> Askings
        ensures { counts result ≡ counts_of self.now }
    {
        self.answered
    }

    // How many sectors were read and written, and how many syncs answered; one number each, for who wants no more.
    pub fn reads(&self) -> u64
        ensures { result ≡ (counts_of self.now).reads }
    {
        self.askings().reads
    }

    pub fn writes(&self) -> u64
        ensures { result ≡ (counts_of self.now).writes }
    {
        self.askings().writes
    }

    pub fn syncs(&self) -> u64
        ensures { result ≡ (counts_of self.now).syncs }
    {
        self.askings().syncs
    }

    pub fn is_on(&self) -> bool
        ensures { result ≡ is_on self.now }
    {
        self.power.is_lit()
    }

    // So many things more are answered, and then the power fails. A device that is off stays off.
    pub fn fail_after(&mut self, askings: u64)
        ensures power { self.new.power ≡ limited askings self.old.power }
        ensures rest { Unchanged self.old self.new }
    {
        if self.is_on() {
            self.power = Power::For(askings);
        }
    }

    // What a power cut leaves, with the power on again: each sector holds what it held at the last sync or something that was written to it since.
    pub fn cut(&mut self, seed: u64)
        ensures view { AfterCut (view_of self.old) (view_of self.new) }
        ensures power { self.new.power ≡ Power.Unlimited }
        ensures size { size_of self.new ≡ size_of self.old }
        ensures counts { counts_of self.new ≡ counts_of self.old }
    {
        let mut coin = Coin::new(seed);
        while let Some(write) = self.log.pop() {
            if coin.toss() && write.at < self.sectors() {
                let was = write.was;
                self.shown[write.at as usize] = was;
            }
        }
        self.power = Power::Unlimited;
    }
}

// Without power nothing is done, and a read gives zeros; past the end too. A write that finds no memory for the log is a power failure.
impl Device for Memory {
    ghost steps = { MemorySteps };

    fn read(&mut self, at: u64, into: &mut [u8; 512]) {
        if self.power.spend() && at < self.sectors() {
            *into = self.shown[at as usize];
            count(&mut self.answered.reads);
        } else {
            *into = [0; 512];
        }
    }

    fn write(&mut self, at: u64, bytes: &[u8; 512]) {
        if self.power.spend() && at < self.sectors() {
            let was = self.shown[at as usize];
            match self.log.push(Logged { at, was }) {
                Ok(()) => {
                    self.shown[at as usize] = *bytes;
                    count(&mut self.answered.writes);
                }
                Err(_) => self.power = Power::Off,
            }
        }
    }

    fn sync(&mut self) {
        if self.power.spend() {
            self.log.clear();
            count(&mut self.answered.syncs);
        }
    }
}

// If the power is on at the end, what is played on it is played on the honest device that is seen of it, and comes to what the program runs to. However it ends, what is seen is what the
// program leaves somewhere on its way.
pub fn memory_runs<A: Answering>() -> u8
    ensures plays { MemoryPlays A.Answering.Out }
    ensures runs { MemoryRuns A.Answering.Out }
    ensures cuts { MemoryCuts A.Answering.Out }
{
    0
}
