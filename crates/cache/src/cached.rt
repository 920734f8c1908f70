// The cache: pages below, and frames over them.
use crate::frames::Frames;

#[derive(Drop)]
pub struct Cached<'f, P> {
    pub(crate) pages: P,
    pub(crate) frames: Frames<'f>,
}
