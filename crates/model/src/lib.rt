// The calls of the file system and their replies, as programs use them. What they mean stands in specs/: Tree, Walk, Calls, Answers; Of.antt ties each value here to its meaning there.
#![tactic(auto)]

pub mod laws;

ghost use Rattle.std.specs.Prelude.{◌≡◌, Some};
ghost use Rattle.model.specs.Of.{call_by, call_of, kind_of, kind_word, number_of};

use std::convert::AsSlice;
use std::fmt;

// How a file is opened: it must be there, it may be made, it must be new.
#[derive(Clone, Copy, Debug, PartialEq, Eq)]
pub enum Way {
    Old,
    May,
    New,
}

// `B` are its bytes: borrowed where it is made, owned where it is kept.
#[derive(Clone, Copy, Drop)]
pub enum Call<B> {
    Open { way: Way, write: bool, path: B },
    Close { handle: u64 },
    Read { handle: u64, from: u64, most: u64 },
    Write { handle: u64, from: u64, bytes: B },
    Resize { handle: u64, size: u64 },
    Stat { path: B },
    StatOpen { handle: u64 },
    MakeFolder { path: B },
    Remove { path: B },
    RemoveFolder { path: B },
    // The name of an open folder that comes next after a given one; after the empty one, the first.
    NextName { handle: u64, after: B },
    Rename { old: B, new: B },
    // A further name for a file or link.
    Join { old: B, new: B },
    MakeLink { to: B, path: B },
    ReadLink { path: B },
    // When it is answered, all that was called before stands for good.
    Sync,
}

impl<B: AsSlice<u8>> Call<B> {
    // The same call, with its bytes borrowed.
    pub fn borrowed(&self) -> Call<&[u8]>
        ensures { call_of result ≡ call_by B.items self.now }
    {
        match self {
            Call::Open { way, write, path } => Call::Open {
                way: *way,
                write: *write,
                path: path.as_slice(),
            },
            Call::Close { handle } => Call::Close { handle: *handle },
            Call::Read { handle, from, most } => Call::Read {
                handle: *handle,
                from: *from,
                most: *most,
            },
            Call::Write {
                handle,
                from,
                bytes,
            } => Call::Write {
                handle: *handle,
                from: *from,
                bytes: bytes.as_slice(),
            },
            Call::Resize { handle, size } => Call::Resize {
                handle: *handle,
                size: *size,
            },
            Call::Stat { path } => Call::Stat {
                path: path.as_slice(),
            },
            Call::StatOpen { handle } => Call::StatOpen { handle: *handle },
            Call::MakeFolder { path } => Call::MakeFolder {
                path: path.as_slice(),
            },
            Call::Remove { path } => Call::Remove {
                path: path.as_slice(),
            },
            Call::RemoveFolder { path } => Call::RemoveFolder {
                path: path.as_slice(),
            },
            Call::NextName { handle, after } => Call::NextName {
                handle: *handle,
                after: after.as_slice(),
            },
            Call::Rename { old, new } => Call::Rename {
                old: old.as_slice(),
                new: new.as_slice(),
            },
            Call::Join { old, new } => Call::Join {
                old: old.as_slice(),
                new: new.as_slice(),
            },
            Call::MakeLink { to, path } => Call::MakeLink {
                to: to.as_slice(),
                path: path.as_slice(),
            },
            Call::ReadLink { path } => Call::ReadLink {
                path: path.as_slice(),
            },
            Call::Sync => Call::Sync,
        }
    }
}

#[derive(Clone, Copy, Debug, PartialEq, Eq)]
pub enum Kind {
    File,
    Folder,
    Link,
}

impl fmt::Display for Kind {
    ghost output = { λ k. Some (kind_word (kind_of k)) };

    fn fmt<W: fmt::Write>(&self, f: &mut fmt::Formatter<W>) -> fmt::Result {
        f.write_str(match self {
            Kind::File => "file",
            Kind::Folder => "folder",
            Kind::Link => "link",
        })
    }
}

// What is told of a node: `size` in bytes, or in names for a folder; `names` is how many names it has itself.
#[derive(Clone, Copy, Debug, PartialEq, Eq)]
pub struct Stat {
    pub kind: Kind,
    pub node: u64,
    pub size: u64,
    pub names: u64,
}

// Why a call is turned away; what is turned away changes nothing.
#[derive(Clone, Copy, Debug, PartialEq, Eq)]
pub enum Refusal {
    BadPath,
    NotFound,
    NotAFolder,
    IsAFolder,
    AlreadyThere,
    FolderNotEmpty,
    TooManyLinks,
    NoSuchHandle,
    NotForWriting,
    NotALink,
    TooLarge,
    NumbersUsedUp,
    IntoItself,
    NotBuilt,
    TooManyOpen,
    UnknownForm,
}

#[derive(Clone, Copy, Debug, PartialEq, Eq)]
pub enum Reply<'a> {
    No(Refusal),
    Done,
    Opened(u64),
    Bytes(&'a [u8]),
    Told(Stat),
    Named(&'a [u8]),
    // No room: nothing was changed.
    Full,
}

// The number by which a refusal is known outside.
impl From<Refusal> for u8 {
    ghost from_gives = { λ why n. n ≡ number_of why };

    fn from(why: Refusal) -> u8 {
        match why {
            Refusal::BadPath => 1,
            Refusal::NotFound => 2,
            Refusal::NotAFolder => 3,
            Refusal::IsAFolder => 4,
            Refusal::AlreadyThere => 5,
            Refusal::FolderNotEmpty => 6,
            Refusal::TooManyLinks => 7,
            Refusal::NoSuchHandle => 8,
            Refusal::NotForWriting | Refusal::NotALink => 9,
            Refusal::TooLarge | Refusal::NumbersUsedUp => 10,
            Refusal::IntoItself => 11,
            Refusal::NotBuilt => 12,
            Refusal::TooManyOpen => 13,
            Refusal::UnknownForm => 19,
        }
    }
}
