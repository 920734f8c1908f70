// What the cache does at each call.
#![tactic(auto, unfolding(caching::specs::Cache::cache_flow))]

ghost use Rattle.std.specs.Prelude.{◌≡◌, ◌<◌, length, IfSome};
ghost use Rattle.std.specs.Fn.{FnOnceReturnsAtMut};
ghost use Rattle.device.specs.Flow.{Runs};
ghost use Rattle.pages.specs.Of.{page_told};
ghost use Rattle.caching.specs.Frames.{fresh};
ghost use Rattle.caching.specs.Cache.{cache_flow, spare_after};
ghost use Rattle.cache.specs.Serving.{cache_of};

use crate::cached::Cached;
use crate::frames::Frames;
use caching::{How, Tag};
use pages::{Pages, Refused};

impl<'f, P> Cached<'f, P> {
    // Over so many pages, with as many frames as are lent, up to 128.
    pub fn new(pages: P, numbers: u64, frames: &'f mut [[u8; 4096]]) -> Cached<'f, P>
        ensures { (result.pages ≡ pages) × (cache_of result ≡ fresh numbers (length frames.old)) }
    {
        Cached {
            pages,
            frames: Frames::new(numbers, frames),
        }
    }

    // What f does with the pages below, as they are without what is marked. The frames stay as they are; who puts there has to open the cache again.
    pub fn with_pages<R, F: FnOnce(&mut P) -> R>(&mut self, f: F) -> R
        requires { F.IsAlwaysCallable f }
        ensures called { FnOnceReturnsAtMut F.FnOnce f self.old.pages result self.new.pages }
        ensures frames { cache_of self.new ≡ cache_of self.old }
    {
        f(&mut self.pages)
    }
}

impl<'f, P: Pages> Cached<'f, P> {
    // With all that is marked written below.
    fn spare_after(&mut self, from: u64) -> Option<u64>
        ensures runs { Runs P.Pages.goes (spare_after from (cache_of self.old)) self.old.pages self.new.pages (page_told result, cache_of self.new) }
        ensures real { IfSome result (λ n. 0 < n) }
    {
        self.flush();
        self.pages.spare(from)
    }
}

impl<'f, P: Pages> Pages for Cached<'f, P> {
    ghost goes = { λ s c r t. Runs P.Pages.goes (cache_flow c (cache_of s)) s.pages t.pages (r, cache_of t) };

    fn get(&mut self, n: u64, into: &mut [u8; 4096]) {
        if n >= self.frames.numbers {
            *into = [0; 4096];
            return;
        }
        if let Some(i) = self.frames.find(n) {
            *into = *self.frames.page(i);
            return;
        }
        if self.frames.count() == 0 {
            self.pages.get(n, into);
            return;
        }
        let i = self.evict();
        self.pages.get(n, into);
        self.frames.fill(i, Tag::Clean { page: n }, into);
    }

    fn put(&mut self, n: u64, bytes: &[u8; 4096]) -> Result<(), Refused> {
        self.put_page(n, bytes, How::Lasting)
    }

    fn put_volatile(&mut self, n: u64, bytes: &[u8; 4096]) -> Result<(), Refused> {
        self.put_page(n, bytes, How::Volatile)
    }

    fn put_through(&mut self, n: u64, bytes: &[u8; 4096]) -> Result<(), Refused> {
        self.put_page(n, bytes, How::Through)
    }

    fn volatile(&mut self, n: u64) -> Result<(), Refused> {
        if let Some(i) = self.frames.find(n) {
            if self.frames.tags[i].is_marked() {
                self.frames.tags[i] = Tag::Marked {
                    page: n,
                    volatile: true,
                };
                return Ok(());
            }
        }
        self.pages.volatile(n)
    }

    fn spare(&mut self, from: u64) -> Option<u64> {
        // As many turns as may find a page in a frame, and one more; where to look on comes from what was found.
        let mut at = from;
        for _ in 0..self.frames.count() + 1 {
            let found = self.pages.spare(at);
            // None is told as 0, and page 0 may be marked where no store came up.
            let n = found.unwrap_or(0);
            if !self.frames.is_marked(n) {
                return found;
            }
            at = n.wrapping_add(1);
        }
        self.spare_after(from)
    }

    fn left(&mut self) -> u64 {
        let left = self.pages.left();
        left.saturating_sub(self.frames.marks())
    }

    fn label(&mut self) -> Option<[u8; 248]> {
        self.pages.label()
    }

    fn sync(&mut self, label: &[u8; 248]) {
        self.flush();
        self.pages.sync(label);
    }
}
