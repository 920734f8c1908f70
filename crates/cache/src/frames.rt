// The lent frames, and what each holds.
ghost use Rattle.std.specs.Prelude.{◌<◌, min, length};

use caching::Tag;

// There are tags for so many frames; more are not used.
pub const MOST_FRAMES: usize = 128;

// Memory is lent as whole pages, and the table of what each holds is of fixed size: so `bytes` and `tags` stand side by side.
#[derive(Drop)]
pub(crate) struct Frames<'f> {
    // How many pages there are.
    pub(crate) numbers: u64,
    pub(crate) bytes: &'f mut [[u8; 4096]],
    pub(crate) tags: [Tag; MOST_FRAMES],
    // The frame that is given up next.
    pub(crate) hand: usize,
    // The hand is at a frame that is used.
    ghost handed: { 0 < length bytes.now → hand < min (length bytes.now) 128 },
}
