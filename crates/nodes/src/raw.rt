// Words and texts at places of a page. Each answers on any bytes: past the end stands 0, and a text is cut short there.

ghost use Rattle.std.specs.Prelude.{◌≡◌, ◌+◌, ◌^◌, ◌<◌, ◌≤◌, length, take, drop, slice_index};
ghost use Rattle.nodes.specs.Entries.{entry_of};
ghost use Rattle.nodes.specs.Page.{two_bytes, item, word_at, slot_at, text_at, put_at};

// Where things stand in a page: the slot of entry 0 is the last one, the others go downwards.
pub const LEVEL_AT: usize = 1;

pub const COUNT_AT: usize = 2;

pub const WEIGHT_AT: usize = 4;

pub const ENTRIES_AT: usize = 8;

pub const SLOTS_AT: usize = 4094;

// The first byte of a node, so that none is blank.
pub const MARK: u8 = 183;

// The bytes that entries and their slots may take.
pub const ROOM: usize = 4088;

// The bytes of an entry besides key and value: two lengths and a slot.
pub const EXTRA: usize = 6;

// The byte at a place.
pub fn byte(page: &[u8; 4096], at: usize) -> u8
    ensures { result ≡ slice_index page.now at }
{
    page.get(at).copied().unwrap_or(0)
}

// The number in the two bytes at a place.
pub fn word(page: &[u8; 4096], at: usize) -> u16
    requires { at < 2 ^ 32 }
    ensures { result ≡ word_at page.now at }
{
    u16::from_le_bytes([byte(page, at), byte(page, at + 1)])
}

// The bytes from a place on, as many as asked for or as there are.
pub fn part(page: &[u8; 4096], at: usize, n: usize) -> &[u8]
    ensures { result.now ≡ take n (drop at page.now) }
{
    let rest = page.get(at..).unwrap_or(&[]);
    rest.get(..n).unwrap_or(rest)
}

// The bytes that stand at a place after their length.
pub fn text(page: &[u8; 4096], at: usize) -> &[u8]
    requires { at < 2 ^ 32 }
    ensures { result.now ≡ text_at page.now at }
{
    part(page, at + 2, usize::from(word(page, at)))
}

// Where the entry i begins.
pub fn slot(page: &[u8; 4096], i: usize) -> u16
    requires { i < 65536 }
    ensures { result ≡ slot_at page.now i }
{
    word(page, SLOTS_AT.saturating_sub(2 * i))
}

// Bytes put at a place.
pub fn put(page: &mut [u8; 4096], at: usize, bytes: &[u8])
    requires { at + length bytes.now ≤ 4096 }
    ensures { page.new ≡ put_at at bytes.now page.old }
{
    page[at..at + bytes.len()].copy_from_slice(bytes);
}

// A number put at a place, in two bytes.
pub fn put_word(page: &mut [u8; 4096], at: usize, n: u16)
    requires { at + 2 ≤ 4096 }
    ensures { page.new ≡ put_at at (two_bytes n) page.old }
{
    put(page, at, &n.to_le_bytes());
}

// An entry put at a place: key and value, each after its length.
pub fn put_entry(page: &mut [u8; 4096], at: usize, key: &[u8], value: &[u8])
    requires { at + (length key.now + length value.now + 4) ≤ 4096 }
    ensures { page.new ≡ put_at at (item (entry_of key.now value.now)) page.old }
{
    put_word(page, at, key.len() as u16);
    put(page, at + 2, key);
    put_word(page, at + 2 + key.len(), value.len() as u16);
    put(page, at + 2 + key.len() + 2, value);
}
