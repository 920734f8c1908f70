// Marked frames, written below.
ghost use Rattle.std.specs.Prelude.{◌≡◌, ◌<◌, length, is_ok};
ghost use Rattle.device.specs.Flow.{Runs};
ghost use Rattle.caching.specs.Frames.{count};
ghost use Rattle.caching.specs.Cache.{put_below, write_back, flush, evict, frame_for, make_room};
ghost use Rattle.cache.specs.Serving.{cache_of};

use crate::cached::Cached;
use caching::{How, Tag};
use pages::{Pages, Refused};

pub(crate) fn put_below<P: Pages>(
    pages: &mut P,
    n: u64,
    bytes: &[u8; 4096],
    how: How,
) -> Result<(), Refused>
    ensures { Runs P.Pages.goes (put_below n bytes.now how) pages.old pages.new (is_ok result) }
{
    match how {
        How::Lasting => pages.put(n, bytes),
        How::Volatile => pages.put_volatile(n, bytes),
        How::Through => pages.put_through(n, bytes),
    }
}

impl<'f, P: Pages> Cached<'f, P> {
    // A frame, if it is marked. It finds room: what is left was told less the marked frames.
    fn write_back(&mut self, i: usize)
        requires { i < count (cache_of self.old) }
        ensures runs { Runs P.Pages.goes (write_back i (cache_of self.old)) self.old.pages self.new.pages (cache_of self.new) }
        ensures count { length self.new.frames.bytes.now ≡ length self.old.frames.bytes.now }
    {
        if let Tag::Marked { page, volatile } = self.frames.tags[i] {
            let bytes = self.frames.page(i);
            let _ = put_below(&mut self.pages, page, bytes, How::of_marked(volatile));
            self.frames.tags[i] = Tag::Clean { page };
        }
    }

    // All of them.
    pub(crate) fn flush(&mut self)
        ensures { Runs P.Pages.goes (flush (cache_of self.old)) self.old.pages self.new.pages (cache_of self.new) }
    {
        for i in 0..self.frames.count() {
            self.write_back(i);
        }
    }

    // The frame at the hand is made free for another page.
    pub(crate) fn evict(&mut self) -> usize
        requires { 0 < length self.old.frames.bytes.now }
        ensures runs { Runs P.Pages.goes (evict (cache_of self.old)) self.old.pages self.new.pages (cache_of self.new) }
        ensures hand { result ≡ self.old.frames.hand }
        ensures within { result < count (cache_of self.new) }
    {
        let i = self.frames.hand;
        self.write_back(i);
        self.frames.turn();
        i
    }

    // The frame of a page, or one for it.
    pub(crate) fn frame_for(&mut self, n: u64) -> usize
        requires { 0 < length self.old.frames.bytes.now }
        ensures runs { Runs P.Pages.goes (frame_for n (cache_of self.old)) self.old.pages self.new.pages (result, cache_of self.new) }
        ensures within { result < count (cache_of self.new) }
    {
        match self.frames.find(n) {
            Some(i) => i,
            None => self.evict(),
        }
    }

    // Where nothing is left beside the marked frames, they are written below first.
    pub(crate) fn make_room(&mut self, left: u64)
        ensures { Runs P.Pages.goes (make_room left (cache_of self.old)) self.old.pages self.new.pages (cache_of self.new) }
    {
        if left <= self.frames.marks() {
            self.flush();
        }
    }
}
