// Pages kept in frames of memory, over any pages, and written back at a sync: the mathematics. The definitions are in specs/; here are its theorems, each the contract of a function.
#![tactic(auto)]

ghost use Rattle.std.specs.Prelude.{◌≡◌};
ghost use Rattle.device.specs.Machine.{Machine};
ghost use Rattle.paging.specs.Pages.{PageCall, PageReply};
ghost use Rattle.caching.specs.Frames.{holds, unwritten, how_marked, tag_of};
ghost use Rattle.caching.specs.Promise.{CacheKept, OverAny, OverStore, Hits, Misses, Stays};

// What a frame holds.
#[derive(Clone, Copy, Debug, PartialEq, Eq)]
pub enum Tag {
    // No page.
    Free,
    // A page, as it is below.
    Clean { page: u64 },
    // A page that was put here, and is not written below yet.
    Marked { page: u64, volatile: bool },
}

impl Tag {
    // Whether a frame with this tag has the page n.
    pub fn has_page(self, n: u64) -> bool
        ensures { result ≡ holds self n }
    {
        match self {
            Tag::Free => false,
            Tag::Clean { page } | Tag::Marked { page, .. } => page == n,
        }
    }

    // Whether it has what is not written below yet.
    pub fn is_marked(self) -> bool
        ensures { result ≡ unwritten self }
    {
        matches!(self, Tag::Marked { .. })
    }
}

// How a page is put.
#[derive(Clone, Copy, Debug, PartialEq, Eq)]
pub enum How {
    Lasting,
    // A power cut blanks the page.
    Volatile,
    // Lasting, and kept in no frame.
    Through,
}

impl How {
    // As a page is put below that was marked; a From of a bool would not say which bool.
    pub fn of_marked(volatile: bool) -> How
        ensures { result ≡ how_marked volatile }
    {
        if volatile {
            How::Volatile
        } else {
            How::Lasting
        }
    }

    // The tag that the page n has then in a frame; none where it is kept in none.
    pub fn tag(self, n: u64) -> Option<Tag>
        ensures { result ≡ tag_of self n }
    {
        let volatile = match self {
            How::Lasting => false,
            How::Volatile => true,
            How::Through => return None,
        };
        Some(Tag::Marked { page: n, volatile })
    }
}

// Any machine that has pages.
pub trait PageMachine {
    ghost machine: { Machine PageCall PageReply };
}

// The cache is a layer that keeps to the judge of pages above the same judge, at the same prices, with power cuts anywhere.
pub fn cache_kept() -> u8
    ensures { CacheKept }
{
    0
}

// So over any machine that keeps to that judge and touches nothing but the device, it does too.
pub fn over_any<M: PageMachine>() -> u8
    ensures { OverAny M.PageMachine.machine }
{
    0
}

// And over the store, with what each call reads.
pub fn over_store() -> u8
    ensures { OverStore }
{
    0
}

// A page that is in a frame is got, and put again, with nothing read or written below; a get writes nothing but a marked page that makes room.
pub fn frames_serve() -> u8
    ensures { Hits × Misses × Stays }
{
    0
}
