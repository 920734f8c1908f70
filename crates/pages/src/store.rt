// The store. Its memory is in order, whatever the card holds.
ghost use Rattle.std.specs.Prelude.{◌≡◌, ◌<◌, is_some, true};

use crate::memory::Memory;

#[derive(Drop)]
pub struct Store<'a, D> {
    pub(crate) device: D,
    pub(crate) memory: Memory<'a>,
    // The label of the last sync, while the store is up on a card whose form is known: else nothing is written, and all pages are blank.
    pub(crate) label: Option<[u8; 248]>,
    ghost card: { is_some label ≡ true → 0 < memory.words.card.sectors },
}

// Why a store does not come up.
#[derive(Clone, Copy, Debug, PartialEq, Eq)]
pub enum OpenError {
    TooFewSectors,
    TooManySectors,
    TooFewWords,
}
