// A device in memory that can be asked after, and told to fail, while a file system has it.
use device::Device;
use device::memory::{Askings, Memory};
use std::cell::Cell;
use std::rc::Rc;

// What was asked between two counts.
pub fn since(before: Askings, now: Askings) -> Askings {
    Askings {
        reads: now.reads.saturating_sub(before.reads),
        writes: now.writes.saturating_sub(before.writes),
        syncs: now.syncs.saturating_sub(before.syncs),
    }
}

// What is known of the device outside, and what it is told.
#[derive(Drop)]
pub struct Watch {
    is_on: Cell<bool>,
    askings: Cell<Askings>,
    fail_after: Cell<Option<u64>>,
}

impl Watch {
    pub fn new() -> Watch {
        Watch {
            is_on: Cell::new(true),
            askings: Cell::new(Askings::default()),
            fail_after: Cell::new(None),
        }
    }

    pub fn is_on(&self) -> bool {
        self.is_on.get()
    }

    pub fn askings(&self) -> Askings {
        self.askings.get()
    }

    // So many things more are answered, and then the power fails.
    pub fn fail_after(&self, askings: u64) {
        self.fail_after.set(Some(askings));
    }
}

#[derive(Drop)]
pub struct Watched {
    memory: Memory,
    watch: Rc<Watch>,
}

impl Watched {
    pub fn new(memory: Memory, watch: Rc<Watch>) -> Watched {
        Watched { memory, watch }
    }

    // What a power cut leaves, with the power on again.
    pub fn cut(&mut self, seed: u64) {
        self.memory.cut(seed);
        self.watch.fail_after.set(None);
        self.note();
    }

    fn obey(&mut self) {
        if let Some(askings) = self.watch.fail_after.take() {
            self.memory.fail_after(askings);
        }
    }

    fn note(&self) {
        self.watch.is_on.set(self.memory.is_on());
        self.watch.askings.set(self.memory.askings());
    }
}

// No clause can speak of what a cell holds, so the relation says nothing: a rehearsal is a test, and no proof.
impl Device for Watched {
    ghost steps = { λ s c r t. Unit {0} };

    fn read(&mut self, at: u64, into: &mut [u8; 512]) {
        self.obey();
        self.memory.read(at, into);
        self.note();
    }

    fn write(&mut self, at: u64, bytes: &[u8; 512]) {
        self.obey();
        self.memory.write(at, bytes);
        self.note();
    }

    fn sync(&mut self) {
        self.obey();
        self.memory.sync();
        self.note();
    }
}
