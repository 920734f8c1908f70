// A desk that has come up: what answers its calls, what is known of the power, and the buffer that replies stand in.
use crate::watched::Watch;
use calls_on_store::FileSystem;
use device::Device;
use lines::Notation;
use model::{Call, Refusal, Reply, Way};
use std::alloc::{AllocError, AllocFailed, Global};

// What answers calls, and knows how many sectors its coming up has read: the file system, whose type names five loans that a desk need not know.
pub trait Files {
    fn call<'o>(&mut self, call: Call<&[u8]>, out: &'o mut [u8; 65536]) -> Reply<'o>;

    fn reads(&self) -> u64;
}

impl<'c, 'f, 's, 'a, 'p, D: Device> Files for FileSystem<'c, 'f, 's, 'a, 'p, D> {
    fn call<'o>(&mut self, call: Call<&[u8]>, out: &'o mut [u8; 65536]) -> Reply<'o> {
        FileSystem::call(self, call, out)
    }

    fn reads(&self) -> u64 {
        FileSystem::reads(self)
    }
}

// Why there is nothing to show: the text of the reply that says so, or no memory for it.
#[derive(Drop)]
pub enum Untold {
    Reply(String),
    Memory,
}

impl From<AllocError> for Untold {
    fn from(_e: AllocError) -> Untold {
        Untold::Memory
    }
}

impl<T: Drop> From<AllocFailed<T>> for Untold {
    fn from(_e: AllocFailed<T>) -> Untold {
        Untold::Memory
    }
}

// What is shown, or the reply in its place.
pub fn shown(told: Result<String, Untold>) -> Result<String, AllocError> {
    match told {
        Ok(text) => Ok(text),
        Err(Untold::Reply(why)) => Ok(why),
        Err(Untold::Memory) => Err(AllocError),
    }
}

fn why_not(heap: Global, reply: Reply) -> Untold {
    match lines::print_reply(heap, reply, Notation::Hex) {
        Ok(text) => Untold::Reply(text),
        Err(_) => Untold::Memory,
    }
}

#[derive(Drop)]
pub struct Desk<'d, F> {
    pub heap: Global,
    pub files: &'d mut F,
    pub watch: &'d Watch,
    pub out: [u8; 65536],
}

impl<'d, F: Files> Desk<'d, F> {
    pub fn new(heap: Global, files: &'d mut F, watch: &'d Watch) -> Desk<'d, F> {
        Desk {
            heap,
            files,
            watch,
            out: [0; 65536],
        }
    }

    pub fn call(&mut self, call: Call<&[u8]>) -> Reply<'_> {
        let out = &mut self.out;
        self.files.call(call, out)
    }

    // The name that comes next in an open folder.
    pub fn next_name(&mut self, handle: u64, after: &[u8]) -> Result<Option<Vec<u8>>, Untold> {
        let heap = self.heap;
        match self.call(Call::NextName { handle, after }) {
            Reply::Named(name) => Ok(Some(name.to_vec(heap)?)),
            Reply::No(Refusal::NotFound) => Ok(None),
            other => Err(why_not(heap, other)),
        }
    }

    // Opens what has a path, to read.
    pub fn open(&mut self, path: &[u8]) -> Result<u64, Untold> {
        let heap = self.heap;
        let way = Way::Old;
        match self.call(Call::Open {
            way,
            write: false,
            path,
        }) {
            Reply::Opened(handle) => Ok(handle),
            other => Err(why_not(heap, other)),
        }
    }

    pub fn close(&mut self, handle: u64) {
        let _ = self.call(Call::Close { handle });
    }

    // The bytes of an open file from a place on, as many as one reply holds.
    pub fn read(&mut self, handle: u64, from: u64, most: u64) -> Result<&[u8], Untold> {
        let heap = self.heap;
        match self.call(Call::Read { handle, from, most }) {
            Reply::Bytes(part) => Ok(part),
            other => Err(why_not(heap, other)),
        }
    }

    pub fn read_link(&mut self, path: &[u8]) -> Result<&[u8], Untold> {
        let heap = self.heap;
        match self.call(Call::ReadLink { path }) {
            Reply::Bytes(to) => Ok(to),
            other => Err(why_not(heap, other)),
        }
    }
}
