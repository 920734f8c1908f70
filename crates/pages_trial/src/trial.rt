// Pages on a device in memory, played against what they should be.
use crate::expected::{Expected, PAGES, label_of, page_of};
use caching::How;
use device::memory::Memory;
use device::random::SplitMix64;
use pages::Pages;
use pages::store::OpenError;

// Pages on a device in memory, whose power can be cut.
pub trait Rehearsed: Pages {
    // Comes up, anew after a cut.
    fn come_up(&mut self) -> Result<u64, OpenError>;

    fn with_card<R, F: FnOnce(&mut Memory) -> R>(&mut self, f: F) -> R
        requires { F.IsAlwaysCallable f };
}

#[derive(Clone, Copy, Default)]
pub struct Tally {
    pub calls: u64,
    pub cuts: u64,
    pub cuts_in_syncs: u64,
    pub without_room: u64,
    pub wrong: u64,
}

#[derive(Drop)]
pub struct Trial<'p, P> {
    pub pages: &'p mut P,
    pub expected: Expected,
    pub random: SplitMix64,
    // The page numbers that are used.
    pub spread: u64,
    // The label of a sync that the power failed in.
    pub unsure: Option<u8>,
    pub tally: Tally,
}

impl<'p, P: Rehearsed> Trial<'p, P> {
    // On a blank card.
    pub fn new(pages: &'p mut P, seed: u64, spread: u64, tally: Tally) -> Trial<'p, P> {
        let _ = pages.come_up();
        Trial {
            pages,
            expected: Expected::blank(),
            random: SplitMix64::new(seed),
            spread,
            unsure: None,
            tally,
        }
    }

    // The power fails after so many askings, at the latest after so many calls, and comes back; false where it held.
    pub fn live(&mut self, askings: u64, calls: u64) -> bool {
        self.pages.with_card(|card| card.fail_after(askings));
        self.play(calls);
        let failed = !self.is_on();
        self.come_back();
        failed
    }

    // So many lives, each with a random number of askings.
    pub fn live_some(&mut self, lives: u64) {
        for _ in 0..lives {
            let askings = self.random.next_u64() % 900;
            let _ = self.live(askings, 400);
        }
    }

    // So many lives of 300 calls, in which the power fails only at the end.
    pub fn live_whole(&mut self, lives: u64) {
        for _ in 0..lives {
            let _ = self.live(u64::MAX, 300);
        }
    }

    fn is_on(&mut self) -> bool {
        self.pages.with_card(|card| card.is_on())
    }

    fn count_wrong(&mut self, right: bool) {
        if !right && self.is_on() {
            self.tally.wrong = self.tally.wrong.wrapping_add(1);
        }
    }

    fn get(&mut self, n: usize) -> bool {
        let mut page = [0u8; 4096];
        self.pages.get(n as u64, &mut page);
        match self.expected.pages.get(n) {
            Some(expected) => page == page_of(expected.now),
            None => page == [0u8; 4096],
        }
    }

    fn label_is_right(&mut self) -> bool {
        let expected = match self.expected.label {
            Some(kind) => label_of(kind),
            None => [0; 248],
        };
        self.pages.label().is_some_and(|label| label == expected)
    }

    // All pages and the label are as they should be.
    fn all_right(&mut self) -> bool {
        self.label_is_right() && (0..PAGES).all(|n| self.get(n))
    }

    fn put(&mut self, n: usize, kind: u8, how: How) {
        let page = page_of(kind);
        let done = match how {
            How::Lasting => self.pages.put(n as u64, &page),
            How::Through => self.pages.put_through(n as u64, &page),
            How::Volatile => self.pages.put_volatile(n as u64, &page),
        }
        .is_ok();
        if done {
            self.expected.put(n, kind, matches!(how, How::Volatile));
        } else if n < PAGES {
            self.tally.without_room = self.tally.without_room.wrapping_add(1);
        }
        self.count_wrong(n < PAGES || !done);
    }

    fn sync(&mut self, label: u8) {
        self.pages.sync(&label_of(label));
        if self.is_on() {
            self.expected.sync(label);
        } else {
            self.unsure = Some(label);
        }
    }

    fn make_volatile(&mut self, n: usize) {
        let done = self.pages.volatile(n as u64).is_ok();
        self.expected.make_volatile(n);
        self.count_wrong(done == (n < PAGES));
    }

    fn spare(&mut self, from: usize) {
        let found = self.pages.spare(from as u64);
        let right = found.is_some_and(|n| n > 0 && self.expected.is_blank(n));
        self.count_wrong(right);
    }

    // While something is left a put finds room.
    fn put_with_left(&mut self, n: usize, kind: u8) {
        let left = self.pages.left();
        let before = self.tally.without_room;
        self.put(n, kind, How::Lasting);
        let right = left == 0 || self.tally.without_room == before;
        self.count_wrong(right);
    }

    // One call, by the next random numbers; the power may fail in it.
    fn call(&mut self) {
        let n = (self.random.next_u64() % self.spread.max(1)) as usize;
        let full = (self.random.next_u64() % 255) as u8;
        let kind = if self.random.next_u64() % 4 == 0 {
            0
        } else {
            full
        };
        self.tally.calls = self.tally.calls.wrapping_add(1);
        match self.random.next_u64() % 12 {
            0 | 1 => {
                let right = self.get(n);
                self.count_wrong(right);
            }
            2..=4 => self.put(n, kind, How::Lasting),
            5 => self.put(n, kind, How::Through),
            6 => self.put_with_left(n, kind),
            7 => self.put(n, kind, How::Volatile),
            8 => self.make_volatile(n),
            9 | 10 => self.spare(n),
            _ => self.sync(full),
        }
    }

    // Calls until the power fails, or so many.
    fn play(&mut self, calls: u64) {
        for _ in 0..calls {
            self.call();
            if !self.is_on() {
                return;
            }
        }
    }

    // So many pages that are not blank, one after the other, and a sync.
    pub fn fill(&mut self, count: usize) {
        for n in 0..count {
            self.put(n, 1 + (n % 200) as u8, How::Lasting);
        }
        self.sync(7);
    }

    // The power comes back; a sync that it failed in was done, or never was.
    fn come_back(&mut self) {
        self.tally.cuts = self.tally.cuts.wrapping_add(1);
        let seed = self.random.next_u64();
        self.pages.with_card(|card| card.cut(seed));
        let up = self.pages.come_up().is_ok();
        let Some(label) = self.unsure.take() else {
            self.expected.cut();
            let right = up && self.all_right();
            self.count_wrong(right);
            return;
        };
        self.tally.cuts_in_syncs = self.tally.cuts_in_syncs.wrapping_add(1);
        self.come_back_in_sync(up, label);
    }

    fn come_back_in_sync(&mut self, up: bool, label: u8) {
        let before = self.expected.pages;
        self.expected.cut();
        if up && self.all_right() {
            return;
        }
        self.expected.pages = before;
        self.expected.sync(label);
        self.expected.cut();
        let right = up && self.all_right();
        self.count_wrong(right);
    }

    // The power fails, while it comes up, after so many askings, and comes back; false where it was up by then.
    fn fail_coming_up(&mut self, askings: u64) -> bool {
        self.pages.with_card(|card| card.fail_after(askings));
        let _ = self.pages.come_up();
        let failed = !self.is_on();
        self.come_back();
        failed
    }

    pub fn fail_all_ways_up(&mut self) {
        for askings in 0..u64::MAX {
            if !self.fail_coming_up(askings) {
                return;
            }
        }
    }
}
