// The fields of the memory, each read and set. Nobody else looks at the bits of a word.
ghost use Rattle.std.specs.Prelude.{◌≡◌, ◌*◌, ◌<◌, ◌≤◌, ◌==◌, length, nat_le, replicate};
ghost use Rattle.paging.specs.Layout.{numbers, rooms};
ghost use Rattle.paging.specs.Memory.{bare, vacant};
ghost use Rattle.pages.specs.Flags.{as_place, flag_in, place_in, with_flag, with_place};
ghost use Rattle.pages.specs.Of.{lent_to, view, Sets};
ghost use Rattle.pages.specs.Words.{Flagged};

use crate::flags::{Flag, Version};
use crate::geometry::Card;
use crate::memory::Words;
use std::mem;

// The places that a word can hold.
const PLACES: u64 = 1 << 38;

// A place as the words and the card's sectors have it: 0 for none, as their layout says.
pub(crate) fn number_of(place: Option<u64>) -> u64
    requires { as_place place < 274877906944 }
    ensures { result ≡ as_place place }
{
    place.map_or(0, |p| p + 1)
}

// A word with one of its flags set anew.
fn with_bit(word: u64, bit: u32, on: bool) -> u64
    requires { (38 ≤ bit) × (bit < 41) }
    ensures { Flagged word result bit on }
{
    let mask = 1u64 << bit;
    if on { word | mask } else { word & !mask }
}

// That a number is one of this card's pages stands in each contract: a type for it would have to hold the card's size, and be made at each call.
impl<'a> Words<'a> {
    // No card is there yet.
    pub(crate) fn new(cells: &'a mut [u64]) -> Words<'a>
        ensures blank { view result 0 0 ≡ bare 0 }
        ensures lent { lent_to result ≡ length cells.old }
    {
        let (none, idle) = cells.split_at_mut(0);
        Words {
            card: Card::new(0),
            cells: none,
            idle,
        }
    }

    // Whether there are two words for each page of a card.
    pub(crate) fn suffices(&self, card: Card) -> bool
        ensures { result ≡ nat_le (2 * numbers card.sectors) (lent_to self.now) }
    {
        2 * card.pages() <= self.cells.len().max(self.idle.len()) as u64
    }

    // All that is lent is in use from now on, and blank.
    fn blank(&mut self)
        ensures cells { self.new.cells.now ≡ replicate (lent_to self.old) 0 }
    {
        if self.cells.len() < self.idle.len() {
            self.idle.fill(0);
            mem::swap(&mut self.cells, &mut self.idle);
        } else {
            self.cells.fill(0);
        }
    }

    // Nothing is known of the card yet: all pages are blank.
    pub(crate) fn clear(&mut self, card: Card)
        requires { 2 * numbers card.sectors ≤ lent_to self.old }
        ensures { view self.new (rooms card.sectors) (rooms card.sectors) ≡ bare card.sectors }
    {
        self.blank();
        self.card = card;
    }

    // The physical page at which a page lies, none where it is blank.
    pub(crate) fn place(&self, version: Version, n: u64) -> Option<u64>
        requires { n < numbers self.now.card.sectors }
        ensures { as_place result ≡ place_in version (view self.now 0 0) n }
    {
        let place = self.cells[2 * n as usize + version.word()] % PLACES;
        place.checked_sub(1)
    }

    // Whether both versions of a page lie at one physical page, or both at none.
    pub(crate) fn is_unmoved(&self, n: u64) -> bool
        requires { n < numbers self.now.card.sectors }
        ensures { result ≡ ((view self.now 0 0).now n == (view self.now 0 0).old n) }
    {
        self.cells[2 * n as usize] % PLACES == self.cells[2 * n as usize + 1] % PLACES
    }

    pub(crate) fn set_place(&mut self, version: Version, n: u64, place: Option<u64>)
        requires { (n < numbers self.old.card.sectors) × (as_place place < 274877906944) }
        ensures { Sets self.old self.new (with_place version n (as_place place)) }
    {
        let at = 2 * n as usize + version.word();
        let flags = self.cells[at] / PLACES;
        self.cells[at] = number_of(place) + PLACES * flags;
    }

    pub(crate) fn has(&self, flag: Flag, i: u64) -> bool
        requires { i < numbers self.now.card.sectors }
        ensures { result ≡ flag_in flag (view self.now 0 0) i }
    {
        self.cells[2 * i as usize + flag.word()] >> flag.bit() & 1 == 1
    }

    pub(crate) fn set(&mut self, flag: Flag, i: u64, on: bool)
        requires { i < numbers self.old.card.sectors }
        ensures { Sets self.old self.new (with_flag flag i on) }
    {
        let at = 2 * i as usize + flag.word();
        self.cells[at] = with_bit(self.cells[at], flag.bit(), on);
    }

    // Whether neither the pages as they are nor the synced ones have a physical page.
    pub(crate) fn is_vacant(&self, p: u64) -> bool
        requires { p < rooms self.now.card.sectors }
        ensures { result ≡ vacant (view self.now 0 0).busy (view self.now 0 0).held p }
    {
        !self.has(Flag::Busy, p) && !self.has(Flag::Held, p)
    }
}
