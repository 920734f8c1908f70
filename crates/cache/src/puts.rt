// Puts: into a frame while something is left, else below. What is put goes along as number, bytes and how, as the calls of `Pages` have it: a struct for the three would be taken apart at each step.
ghost use Rattle.std.specs.Prelude.{◌≡◌, is_ok};
ghost use Rattle.device.specs.Flow.{Runs};
ghost use Rattle.caching.specs.Cache.{staying, put_with, put};
ghost use Rattle.cache.specs.Serving.{cache_of};

use crate::back::put_below;
use crate::cached::Cached;
use caching::{How, Tag};
use pages::serve::is_blank;
use pages::{Pages, Refused};

impl<'f, P: Pages> Cached<'f, P> {
    // The tag with which a put stays in a frame, if it does, with so many left below. What is blank does not: it takes no room there.
    fn staying(&self, n: u64, bytes: &[u8; 4096], how: How, left: u64) -> Option<Tag>
        ensures { result ≡ staying n bytes.now how left (cache_of self.now) }
    {
        let tag = how.tag(n)?;
        let frames = &self.frames;
        if is_blank(bytes) || frames.count() == 0 || left <= frames.marks() {
            return None;
        }
        Some(tag)
    }

    fn put_with(&mut self, n: u64, bytes: &[u8; 4096], how: How, left: u64) -> Result<(), Refused>
        ensures { Runs P.Pages.goes (put_with n bytes.now how left (cache_of self.old)) self.old.pages self.new.pages (is_ok result, cache_of self.new) }
    {
        if let Some(tag) = self.staying(n, bytes, how, left) {
            let i = self.frame_for(n);
            self.frames.fill(i, tag, bytes);
            return Ok(());
        }
        self.make_room(left);
        put_below(&mut self.pages, n, bytes, how)?;
        self.frames.drop_page(n);
        Ok(())
    }

    pub(crate) fn put_page(&mut self, n: u64, bytes: &[u8; 4096], how: How) -> Result<(), Refused>
        ensures { Runs P.Pages.goes (put n bytes.now how (cache_of self.old)) self.old.pages self.new.pages (is_ok result, cache_of self.new) }
    {
        if n >= self.frames.numbers {
            return Err(Refused);
        }
        let left = self.pages.left();
        self.put_with(n, bytes, how, left)
    }
}
