// Plays random page calls on a device in memory against plain arrays, with power cuts at every asking: over the store alone, and over caches on it. A second pair of eyes, and no proof.
#![tactic(auto)]

mod expected;
mod trial;

use cache::cached::Cached;
use device::memory::Memory;
use expected::PAGES;
use pages::store::{OpenError, Store};
use trial::{Rehearsed, Tally, Trial};

const SECTORS: u64 = 8192;

// More askings than a life has.
const MOST_ASKINGS: u64 = 1 << 40;

// Two impls of the same two lines: the store and the cache on it come up and lend their device by methods of their own, and a trait for that in their crates would be no plainer.
impl<'a> Rehearsed for Store<'a, Memory> {
    fn come_up(&mut self) -> Result<u64, OpenError> {
        self.open(SECTORS)
    }

    fn with_card<R, F: FnOnce(&mut Memory) -> R>(&mut self, f: F) -> R {
        self.with_device(f)
    }
}

impl<'f, 's, 'a> Rehearsed for Cached<'f, &'s mut Store<'a, Memory>> {
    fn come_up(&mut self) -> Result<u64, OpenError> {
        self.open(SECTORS)
    }

    fn with_card<R, F: FnOnce(&mut Memory) -> R>(&mut self, f: F) -> R {
        self.with_device(f)
    }
}

// What is played on a blank card.
trait Part {
    // How many page numbers are used.
    fn spread(&self, seed: u64) -> u64;

    // Says whether the power failed in a single life; of other parts nobody asks.
    fn play<P: Rehearsed>(&self, trial: &mut Trial<P>) -> bool;
}

// One life, in which the power fails after so many askings.
#[derive(Clone, Copy)]
struct Life(u64);

impl Part for Life {
    fn spread(&self, _seed: u64) -> u64 {
        12
    }

    fn play<P: Rehearsed>(&self, trial: &mut Trial<P>) -> bool {
        trial.live(self.0, 40)
    }
}

// Lives of random length one after the other; then the power fails while it comes up, after every number of askings.
#[derive(Clone, Copy)]
struct Lives;

impl Part for Lives {
    fn spread(&self, seed: u64) -> u64 {
        if seed % 2 == 0 { 1024 } else { 30 }
    }

    fn play<P: Rehearsed>(&self, trial: &mut Trial<P>) -> bool {
        trial.live_some(40);
        trial.fail_all_ways_up();
        false
    }
}

// A card on which so many pages are taken.
#[derive(Clone, Copy)]
struct Full(usize);

impl Part for Full {
    fn spread(&self, _seed: u64) -> u64 {
        1100
    }

    fn play<P: Rehearsed>(&self, trial: &mut Trial<P>) -> bool {
        trial.fill(self.0);
        trial.live_whole(4);
        false
    }
}

// A trial on the store, or on a cache of so many frames over it, and what has come of it so far.
#[derive(Drop)]
struct Stand<'r> {
    rt: &'r HostRuntime,
    frames: Option<usize>,
    tally: Tally,
}

impl<'r> Stand<'r> {
    fn play<P: Rehearsed, T: Part>(&mut self, pages: &mut P, seed: u64, part: &T) -> bool {
        let mut trial = Trial::new(pages, seed, part.spread(seed), self.tally);
        let failed = part.play(&mut trial);
        self.tally = trial.tally;
        failed
    }

    // On a blank card.
    fn on_card<T: Part>(&mut self, seed: u64, part: &T) -> anyhow::Result<bool> {
        let alloc = self.rt.alloc();
        let mut words = vec![in alloc; 0u64; 2 * PAGES]?;
        let mut store = Store::new(Memory::new(alloc, SECTORS)?, &mut words);
        let Some(count) = self.frames else {
            return Ok(self.play(&mut store, seed, part));
        };
        let mut lent = vec![in alloc; [0u8; 4096]; count]?;
        let mut cache = Cached::new(&mut store, 0, &mut lent);
        Ok(self.play(&mut cache, seed, part))
    }

    // The same calls on a blank card again and again, with the power failing after one asking more each time, until it holds to the end.
    fn every_asking(&mut self, seed: u64) -> anyhow::Result<()> {
        for askings in 0..MOST_ASKINGS {
            if !self.on_card(seed, &Life(askings))? {
                break;
            }
        }
        Ok(())
    }

    fn try_out(&mut self, name: &str) -> anyhow::Result<()> {
        for seed in 0..3u64 {
            self.every_asking(seed)?;
            let _ = self.on_card(seed, &Lives)?;
        }
        let _ = self.on_card(1, &Full(1000))?;
        let _ = self.on_card(2, &Full(1024))?;
        let Tally {
            calls,
            cuts,
            cuts_in_syncs,
            without_room,
            wrong,
        } = self.tally;
        println!(self.rt;
            "{name}: {calls} calls, {cuts} cuts, {cuts_in_syncs} of them in syncs, {without_room} puts without room, {wrong} wrong"
        )?;
        Ok(())
    }
}

fn try_out(rt: &HostRuntime, name: &str, frames: Option<usize>) -> anyhow::Result<()> {
    let tally = Tally::default();
    Stand { rt, frames, tally }.try_out(name)
}

fn run(rt: &HostRuntime) -> anyhow::Result<()> {
    try_out(rt, "the store", None)?;
    try_out(rt, "no frame", Some(0))?;
    try_out(rt, "1 frame", Some(1))?;
    try_out(rt, "7 frames", Some(7))?;
    try_out(rt, "200 frames", Some(200))?;
    Ok(())
}

fn main(rt: HostRuntime) -> anyhow::Result<()> {
    run(&rt)
}
