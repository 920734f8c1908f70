// The file system: it comes up on a device with lent memory, and answers calls.
#![tactic(auto)]

ghost use Rattle.std.specs.Prelude.{◌≡◌, ◌*◌, Some, length};
ghost use Rattle.device.specs.Plays.{Plays};
ghost use Rattle.model.specs.Of.{call_of, reply_of};
ghost use Rattle.calls.specs.Promise.{Whole};
ghost use Rattle.calls.specs.Files.{machine, built};
ghost use Rattle.calls.specs.Of.{pages_of, open_error_text, open_fault, mem_of, ComesUp};

use device::Device;
use model::{Call, Refusal, Reply};
use std::error::Error;
use std::fmt;

// The sectors that a card has at least and at most: 4 MiB and 512 TiB. The page store has the same bounds, and `calls` does not stand on it yet.
pub const FEWEST_SECTORS: u64 = 8192;

pub const MOST_SECTORS: u64 = 1 << 40;

// The pages of memory that are lent, besides two words for each page of the card.
pub const LENT_PAGES: usize = 64;

// The most bytes that a reply holds.
pub const MOST_BYTES: usize = 65536;

// The words of memory that are lent: two for each page of 8 sectors.
pub fn words_for(sectors: u64) -> u64
    ensures { result ≡ 2 * pages_of sectors }
{
    2 * sectors.div_ceil(8)
}

// Why a file system does not come up.
#[derive(Clone, Copy, Debug, PartialEq, Eq, Drop)]
pub enum OpenError {
    TooFewSectors,
    TooManySectors,
    TooFewPages,
    TooFewWords,
}

impl fmt::Display for OpenError {
    ghost output = { λ e. Some (open_error_text e) };

    fn fmt<W: fmt::Write>(&self, f: &mut fmt::Formatter<W>) -> fmt::Result {
        f.write_str(match self {
            OpenError::TooFewSectors => "a card has at least 8192 sectors of 512 bytes",
            OpenError::TooManySectors => "a card has at most 2^40 sectors of 512 bytes",
            OpenError::TooFewPages => "too few pages of memory",
            OpenError::TooFewWords => "too few words of memory",
        })
    }
}

impl Error for OpenError {}

fn open_fault(sectors: u64, pages: usize, words: usize) -> Option<OpenError>
    ensures { result ≡ open_fault sectors pages words }
{
    if sectors < FEWEST_SECTORS {
        Some(OpenError::TooFewSectors)
    } else if sectors > MOST_SECTORS {
        Some(OpenError::TooManySectors)
    } else if pages < LENT_PAGES {
        Some(OpenError::TooFewPages)
    } else if (words as u64) < words_for(sectors) {
        Some(OpenError::TooFewWords)
    } else {
        None
    }
}

// The device comes back untouched.
#[derive(Drop)]
pub struct NotOpened<D> {
    pub why: OpenError,
    pub device: D,
}

#[derive(Drop)]
pub struct FileSystem<'a, D> {
    device: D,
    pages: &'a mut [[u8; 4096]],
    words: &'a mut [u64],
}

impl<'a, D: Device> FileSystem<'a, D> {
    // Comes up on a device of so many sectors. Lent: 64 pages, and two words for each page of 8 sectors.
    pub fn open(
        device: D,
        sectors: u64,
        pages: &'a mut [[u8; 4096]],
        words: &'a mut [u64],
    ) -> Result<FileSystem<'a, D>, NotOpened<D>>
        ensures { ComesUp D.Device.steps sectors (length pages.old) (length words.old) device result }
    {
        match open_fault(sectors, pages.len(), words.len()) {
            None => Ok(FileSystem {
                device,
                pages,
                words,
            }),
            Some(why) => Err(NotOpened { why, device }),
        }
    }

    // What the call's meaning says, on the card, with power cut anywhere: the machine that it plays keeps the promise `Whole`. The reply's bytes stand in `out`.
    pub fn call<'o>(&mut self, call: Call<&[u8]>, out: &'o mut [u8; 65536]) -> Reply<'o>
        ensures plays { Plays D.Device.steps (machine.does (call_of call.entry) (mem_of self.old)) self.old.device self.new.device (record { reply = reply_of result; mem = mem_of self.new }) }
        ensures whole { Whole built machine }
    {
        Reply::No(Refusal::NotBuilt)
    }

    // The device, as it is.
    pub fn device(&self) -> &D
        ensures { result.now ≡ self.now.device }
    {
        &self.device
    }
}
