// What a page says as a node. Each method answers on any bytes.

ghost use Rattle.std.specs.Prelude.{◌≡◌, ℕ, ◌+◌, ◌^◌, ◌<◌, ◌≤◌, List, length, drop, slice_index_or, MatchOption};
ghost use Rattle.std.specs.List.{between};
ghost use Rattle.std.specs.Iterator.{YieldsFirstBy, item_count};
ghost use Rattle.nodes.specs.Entries.{Entry, blank, entry_of, weight_of};
ghost use Rattle.nodes.specs.Page.{level_of, entries_of, weight_at, slot_at, IsNode};
ghost use Rattle.nodes.specs.Numbers.{number_of};

use crate::numbers::number;
use crate::raw::{COUNT_AT, LEVEL_AT, WEIGHT_AT, byte, slot, text, word};
use std::marker::Model;
use std::ops::Range;

// A page that is read as a node. How many entries it tells of is read once; two bytes tell of few.
#[derive(Clone, Copy)]
pub struct NodePage<'a> {
    page: &'a [u8; 4096],
    count: usize,
    pub ghost whole: { length page.now ≡ 4096 },
    pub ghost counted: { count ≡ length (entries_of page.now) },
    pub ghost few: { count < 65536 },
}

impl<'a> NodePage<'a> {
    pub fn new(page: &'a [u8; 4096]) -> NodePage<'a>
        ensures { result.page.now ≡ page.now }
    {
        let count = usize::from(word(page, COUNT_AT));
        NodePage { page, count }
    }

    // A node's level: 0 for a leaf.
    pub fn level(&self) -> u8
        ensures { result ≡ level_of self.now.page.now }
    {
        byte(self.page, LEVEL_AT)
    }

    // How many entries a node has.
    pub fn count(&self) -> usize
        ensures { result ≡ length (entries_of self.now.page.now) }
    {
        self.count
    }

    // The bytes that the entries take, as the page says: right where it is a node.
    pub fn weight(&self) -> u16
        ensures says { result ≡ weight_at self.now.page.now }
        ensures is { (l : ℕ) (es : List Entry) → IsNode self.now.page.now l es → result ≡ weight_of es }
    {
        word(self.page, WEIGHT_AT)
    }

    // Where the entry i begins; nowhere past the last one.
    fn place(&self, i: usize) -> Option<usize>
        ensures { let n = length (entries_of self.now.page.now) in MatchOption result (n ≤ i) (λ at. (i < n) × (at ≡ slot_at self.now.page.now i) × (at < 65536)) }
    {
        if i < self.count {
            Some(usize::from(slot(self.page, i)))
        } else {
            None
        }
    }

    // The key of the entry i; past the last entry the empty one, so that every number is answered.
    pub fn key(&self, i: usize) -> &'a [u8]
        ensures is { result.now ≡ (slice_index_or (entries_of self.now.page.now) i blank).key }
        ensures short { length result.now ≤ 4096 }
    {
        let Some(at) = self.place(i) else {
            return &[];
        };
        text(self.page, at)
    }

    // The value of the entry i; past the last entry the empty one.
    pub fn value(&self, i: usize) -> &'a [u8]
        ensures is { result.now ≡ (slice_index_or (entries_of self.now.page.now) i blank).value }
        ensures short { length result.now ≤ 4096 }
    {
        let Some(at) = self.place(i) else {
            return &[];
        };
        text(self.page, at + 2 + usize::from(word(self.page, at)))
    }

    // The page number that the value of the entry i says.
    pub fn child(&self, i: usize) -> u64
        ensures is { result ≡ number_of (slice_index_or (entries_of self.now.page.now) i blank).value }
        ensures small { result < 2 ^ 40 }
    {
        number(self.value(i))
    }

    // The entries one after the other, each as key and value.
    pub fn entries(&self) -> Entries<'a>
        ensures { result ≡ entries_of self.now.page.now }
    {
        self.entries_in(0..self.count)
    }

    // Those at the places of a range, as far as there are.
    pub fn entries_in(&self, places: Range<usize>) -> Entries<'a>
        ensures { result ≡ between places.start places.end (entries_of self.now.page.now) }
    {
        Entries {
            node: *self,
            places: places.start..places.end.min(self.count),
        }
    }
}

// Goes through entries of a node.
#[derive(Drop)]
pub struct Entries<'a> {
    node: NodePage<'a>,
    places: Range<usize>,
}

// Those that are left.
impl<'a> Model for Entries<'a> {
    ghost Value = { List Entry };

    ghost view = { λ s. between s.places.start s.places.end (entries_of s.node.page.now) };

    ghost invariant = { λ s. s.places.end ≤ s.node.count };
}

impl<'a> Iterator for Entries<'a> {
    type Item = (&'a [u8], &'a [u8]);

    ghost next_gives = { YieldsFirstBy (λ e. entry_of e.0.now e.1.now) (λ s. s) };

    ghost remaining = { item_count (λ s. s) };

    fn next(&mut self) -> Option<(&'a [u8], &'a [u8])> {
        let i = self.places.next()?;
        Some((self.node.key(i), self.node.value(i)))
    }
}
