// Which frame has a page, and which are marked. That a frame is one of these stands in each contract: a type for its number would have to hold how many there are.
use crate::frames::{Frames, MOST_FRAMES};
use caching::Tag;

impl<'f> Frames<'f> {
    ghost use Rattle.std.specs.Prelude.{◌≡◌, ◌<◌, length, IfSome};
    ghost use Rattle.caching.specs.Frames as frame;
    ghost use Rattle.cache.specs.Of.{seen};

    // Of so many pages none is in a frame.
    pub(crate) fn new(numbers: u64, lent: &'f mut [[u8; 4096]]) -> Frames<'f>
        ensures { seen result ≡ frame.fresh numbers (length lent.old) }
    {
        let mut frames = Frames {
            numbers,
            bytes: lent,
            tags: [Tag::Free; MOST_FRAMES],
            hand: 0,
        };
        frames.reset(numbers);
        frames
    }

    // Nothing is in a frame any more; there are so many pages from now on.
    pub(crate) fn reset(&mut self, numbers: u64)
        ensures { seen self.new ≡ frame.fresh numbers (length self.old.bytes.now) }
    {
        self.bytes.fill([0; 4096]);
        self.numbers = numbers;
        self.tags = [Tag::Free; MOST_FRAMES];
        self.hand = 0;
    }

    // How many frames are used; the rest of what is lent is only blank.
    pub(crate) fn count(&self) -> usize
        ensures { result ≡ frame.count (seen self.now) }
    {
        self.bytes.len().min(MOST_FRAMES)
    }

    // The page in a frame.
    pub(crate) fn page(&self, i: usize) -> &[u8; 4096]
        requires { i < length self.now.bytes.now }
        ensures { result.now ≡ frame.frame_at (seen self.now) i }
    {
        let bytes = &*self.bytes;
        &bytes[i]
    }

    // The frame that has a page.
    pub(crate) fn find(&self, n: u64) -> Option<usize>
        ensures is { result ≡ frame.find (seen self.now) n }
        ensures within { IfSome result (λ i. i < frame.count (seen self.now)) }
    {
        self.tags[..self.count()]
            .iter()
            .rposition(|tag| tag.has_page(n))
    }

    // How many frames are marked. They are 128 at most, so a byte counts them: of bytes many are added at once.
    pub(crate) fn marks(&self) -> u64
        ensures { result ≡ frame.marks (seen self.now) }
    {
        let marks: u8 = self.tags[..self.count()]
            .iter()
            .map(|tag| u8::from(tag.is_marked()))
            .sum();
        u64::from(marks)
    }

    pub(crate) fn is_marked(&self, n: u64) -> bool
        ensures { result ≡ frame.is_marked (seen self.now) n }
    {
        let tags = &self.tags;
        self.find(n).is_some_and(|i| tags[i].is_marked())
    }

    // A page is let go.
    pub(crate) fn drop_page(&mut self, n: u64)
        ensures { seen self.new ≡ frame.dropped n (seen self.old) }
    {
        if let Some(i) = self.find(n) {
            self.tags[i] = Tag::Free;
        }
    }

    // A page comes into a frame.
    pub(crate) fn fill(&mut self, i: usize, tag: Tag, page: &[u8; 4096])
        requires { i < frame.count (seen self.old) }
        ensures { seen self.new ≡ frame.filled i tag page.now (seen self.old) }
    {
        self.bytes[i] = *page;
        self.tags[i] = tag;
    }

    // The hand goes to the next frame, and then to the first one again.
    pub(crate) fn turn(&mut self)
        requires { 0 < length self.old.bytes.now }
        ensures { seen self.new ≡ frame.turned (seen self.old) }
    {
        let next = self.hand + 1;
        self.hand = if next < self.count() { next } else { 0 };
    }
}
