// Nodes made entry by entry. On a page that is a node each leaves the page of the entries named, to the byte.

ghost use Rattle.std.specs.Prelude.{◌≡◌, ℕ, true, false, List, [], ◌∷◌};
ghost use Rattle.std.specs.List.{between};
ghost use Rattle.std.specs.Result.{is_ok};
ghost use Rattle.nodes.specs.Entries.{Entry, entry_of};
ghost use Rattle.nodes.specs.Page.{entries_of, IsNode, has_room, Appended};

use crate::raw::{
    COUNT_AT, ENTRIES_AT, EXTRA, LEVEL_AT, MARK, ROOM, SLOTS_AT, WEIGHT_AT, put_entry, put_word,
};
use crate::read::NodePage;
use std::ops::Range;

// An entry that has no room in a page, or a page that is no node by its counts. It is never printed: a tree splits the node then.
#[derive(Debug, Clone, Copy, PartialEq, Eq)]
pub struct NoRoom;

// The node with no entries.
pub fn start(page: &mut [u8; 4096], level: u8)
    ensures { IsNode page.new level [] }
{
    page.fill(0);
    page[0] = MARK;
    page[LEVEL_AT] = level;
}

impl NodePage<'_> {
    // Whether an entry has room, by what the page says of its count and weight.
    fn has_room(&self, key: &[u8], value: &[u8]) -> bool
        ensures { result ≡ has_room self.now.page.now (entry_of key.now value.now) }
    {
        let w = usize::from(self.weight());
        let entry = key.len().saturating_add(value.len()).saturating_add(EXTRA);
        EXTRA * self.count() <= w && w.saturating_add(entry) <= ROOM
    }
}

// One entry more, after the others; key and value come as two, as Rust's maps take them. Where it has no room or the page is no node by its counts, nothing is changed.
pub fn append(page: &mut [u8; 4096], key: &[u8], value: &[u8]) -> Result<(), NoRoom>
    ensures told { is_ok result ≡ has_room page.old (entry_of key.now value.now) }
    ensures kept { is_ok result ≡ false → page.new ≡ page.old }
    ensures node { (l : ℕ) (es : List Entry) → IsNode page.old l es → Appended l es (entry_of key.now value.now ∷ []) page.new (is_ok result) }
{
    let node = NodePage::new(page);
    if !node.has_room(key, value) {
        return Err(NoRoom);
    }
    let n = node.count();
    let w = usize::from(node.weight());
    let entry = key.len() + value.len() + EXTRA;
    let at = ENTRIES_AT + w - 2 * n;
    put_entry(page, at, key, value);
    put_word(page, SLOTS_AT - 2 * n, at as u16);
    put_word(page, COUNT_AT, (n + 1) as u16);
    put_word(page, WEIGHT_AT, (w + entry) as u16);
    Ok(())
}

// The entries of another node at the places of a range, after the others. It ends at the first that has no room: those before it are in.
pub fn append_range(
    dst: &mut [u8; 4096],
    src: &NodePage<'_>,
    places: Range<usize>,
) -> Result<(), NoRoom>
    ensures { (l : ℕ) (es : List Entry) → IsNode dst.old l es → Appended l es (between places.start places.end (entries_of src.now.page.now)) dst.new (is_ok result) }
{
    for (key, value) in src.entries_in(places) {
        append(dst, key, value)?;
    }
    Ok(())
}
