// What is told of many nodes at once: the names of a folder, and the whole tree. Both go by the calls of the file system.
use crate::desk::{Desk, Files, Untold, shown};
use crate::digest::Digest;
use lines::Notation;
use model::{Call, Kind, Reply};
use std::alloc::{AllocError, Global};

// What closes a list: it is no name.
const END: &str = ".";

const TOP: &[u8] = b"/";

const STROKE: u8 = b'/';

// The most bytes that one call reads.
const MOST: u64 = 65536;

// So many reads come to the end of any file, which has at most 2^32 bytes.
const PARTS: u64 = 65537;

fn path_text(heap: Global, path: &[u8]) -> Result<String, AllocError> {
    lines::print_reply(heap, Reply::Named(path), Notation::Path)
}

fn push_line(text: &mut String, line: &str) -> Result<(), AllocError> {
    text.push_str(line)?;
    text.push('\n')
}

fn digest_text(heap: Global, digest: Digest) -> Result<String, AllocError> {
    let value = digest.value();
    format!(in heap; "{value:016x}")
}

// The path of a name in a folder.
fn child(heap: Global, folder: &[u8], name: &[u8]) -> Result<Vec<u8>, AllocError> {
    let mut path: Vec<u8> = Vec::new(heap);
    if folder != TOP {
        path.extend_from_slice(folder)?;
    }
    path.push(STROKE)?;
    path.extend_from_slice(name)?;
    Ok(path)
}

impl<'d, F: Files> Desk<'d, F> {
    // The names of an open folder, one call for each; without power, those before it failed.
    fn names(&mut self, handle: u64) -> Result<Vec<Vec<u8>>, Untold> {
        let mut names: Vec<Vec<u8>> = Vec::new(self.heap);
        for _ in 0..u64::MAX {
            let last = names.last().map_or(b"".as_slice(), |name| name.as_slice());
            let Some(name) = self.next_name(handle, last)? else {
                break;
            };
            names.push(name)?;
            if !self.watch.is_on() {
                break;
            }
        }
        Ok(names)
    }

    fn names_text(&mut self, handle: u64) -> Result<String, Untold> {
        let names = self.names(handle)?;
        let mut text = String::new(self.heap);
        for name in &names {
            let name = path_text(self.heap, name)?;
            push_line(&mut text, name.as_str())?;
        }
        text.push_str(END)?;
        Ok(text)
    }

    // The names of an open folder, a line for each, and what closes them.
    pub fn list_text(&mut self, handle: u64) -> Result<String, AllocError> {
        shown(self.names_text(handle))
    }

    // The digest of the bytes of an open file.
    fn read_all(&mut self, handle: u64) -> Result<Digest, Untold> {
        let mut digest = Digest::new();
        for i in 0..PARTS {
            let part = self.read(handle, i * MOST, MOST)?;
            let is_last = (part.len() as u64) < MOST;
            digest.add(part);
            if is_last || !self.watch.is_on() {
                break;
            }
        }
        Ok(digest)
    }

    fn file_text(&mut self, path: &[u8]) -> Result<String, Untold> {
        let handle = self.open(path)?;
        let digest = self.read_all(handle);
        self.close(handle);
        Ok(digest_text(self.heap, digest?)?)
    }

    fn link_text(&mut self, path: &[u8]) -> Result<String, Untold> {
        let mut digest = Digest::new();
        digest.add(self.read_link(path)?);
        Ok(digest_text(self.heap, digest)?)
    }

    // A folder has no digest; the paths in it are still to be shown, the last one first.
    fn folder_text(&mut self, path: &[u8], left: &mut Vec<Vec<u8>>) -> Result<String, Untold> {
        let handle = self.open(path)?;
        let names = self.names(handle);
        self.close(handle);
        for name in names?.iter().rev() {
            left.push(child(self.heap, path, name)?)?;
        }
        Ok(String::from_str(self.heap, "-")?)
    }

    // A path: what stat tells of it, what is in it, and the path. Or why it is not told.
    fn node_text(&mut self, path: &[u8], left: &mut Vec<Vec<u8>>) -> Result<String, AllocError> {
        let heap = self.heap;
        let reply = self.call(Call::Stat { path });
        let told = lines::print_reply(heap, reply, Notation::Hex)?;
        let at = path_text(heap, path)?;
        let Reply::Told(stat) = reply else {
            return format!(in heap; "{told} {at}");
        };
        let inside = shown(match stat.kind {
            Kind::File => self.file_text(path),
            Kind::Folder => self.folder_text(path, left),
            Kind::Link => self.link_text(path),
        })?;
        format!(in heap; "{told} {inside} {at}")
    }

    // Every path, a line for each, a folder before what is in it and names in their order; and what closes them.
    pub fn tree_text(&mut self) -> Result<String, AllocError> {
        let mut text = String::new(self.heap);
        let mut left: Vec<Vec<u8>> = vec![in self.heap; child(self.heap, TOP, b"")?]?;
        for _ in 0..u64::MAX {
            let Some(path) = left.pop() else {
                break;
            };
            let line = self.node_text(&path, &mut left)?;
            push_line(&mut text, line.as_str())?;
            if !self.watch.is_on() {
                break;
            }
        }
        text.push_str(END)?;
        Ok(text)
    }
}
