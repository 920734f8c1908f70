// What the store keeps in memory.
ghost use Rattle.pages.specs.Words.{ram, mem_of, Fits, Places, Inside};

use crate::geometry::Card;

// Two words for each number of a page, in which the fields of pages and nodes are packed: memory is lent as words, and there is no heap.
#[derive(Drop)]
pub(crate) struct Words<'a> {
    pub(crate) card: Card,
    pub(crate) cells: &'a mut [u64],
    // What is lent lies here until there first is a card: no word is touched before.
    pub(crate) idle: &'a mut [u64],
    ghost fits: { Fits (ram card.sectors cells.now 0 0) },
}

// The words, how many physical pages are free, and a cursor below which one is looked for first.
#[derive(Drop)]
pub(crate) struct Memory<'a> {
    pub(crate) words: Words<'a>,
    pub(crate) left: u64,
    pub(crate) next: u64,
    ghost places: { Places (mem_of (ram words.card.sectors words.cells.now left next)) },
    ghost inside: { Inside (mem_of (ram words.card.sectors words.cells.now left next)) },
}
