// The file system: it comes up on a store of pages with a cache over it, and answers calls.
#![tactic(auto)]

ghost use Rattle.std.specs.Prelude.{◌≡◌, ℕ, length};
ghost use Rattle.device.specs.Flow.{Runs};
ghost use Rattle.device.specs.Plays.{Plays};
ghost use Rattle.model.specs.Of.{call_of, reply_of};
ghost use Rattle.calls.specs.Promise.{Whole};
ghost use Rattle.calls_on_store.specs.Promise.{RefusesForeign};
ghost use Rattle.calls_on_store.specs.Counted.{OpenCounted};
ghost use Rattle.calls_on_store.specs.Files.{machine, built, call_flow};
ghost use Rattle.calls_on_store.specs.Of.{raised, mem_of, device_of, files_of, CacheGoes, ComesUp};

use cache::cached::Cached;
pub use calls::{OpenError, words_for};
use device::Device;
use model::{Call, Refusal, Reply};
use pages::Pages;
use pages::store::{self, Store};

// The pages of memory that the calls work in, and those that are the frames of the cache: 64 in all, besides two words for each page of the card.
pub const WORK_PAGES: usize = 29;

pub const CACHE_FRAMES: usize = 35;

// Why a file system does not come up, where the store says why. No `From`, which has to stand where one of the types is declared: `calls` does not know the store.
fn raised(why: store::OpenError) -> OpenError
    ensures { result ≡ raised why }
{
    match why {
        store::OpenError::TooFewSectors => OpenError::TooFewSectors,
        store::OpenError::TooManySectors => OpenError::TooManySectors,
        store::OpenError::TooFewWords => OpenError::TooFewWords,
    }
}

#[derive(Drop)]
pub struct FileSystem<'c, 'f, 's, 'a, 'p, D> {
    pages: &'c mut Cached<'f, &'s mut Store<'a, D>>,
    work: &'p mut [[u8; 4096]],
    // The header, which the store keeps as its label; none on a card whose form is not known.
    label: Option<[u8; 248]>,
    // How many sectors coming up has read.
    reads: u64,
}

impl<'c, 'f, 's, 'a, 'p, D: Device> FileSystem<'c, 'f, 's, 'a, 'p, D> {
    // Comes up on a store whose device has so many sectors, with the cache over it. Lent: 29 pages to work in.
    pub fn open(
        pages: &'c mut Cached<'f, &'s mut Store<'a, D>>,
        sectors: u64,
        work: &'p mut [[u8; 4096]],
    ) -> Result<FileSystem<'c, 'f, 's, 'a, 'p, D>, OpenError>
        ensures { ComesUp D.Device.steps sectors (length work.old) pages.old result }
    {
        if work.len() < WORK_PAGES {
            return Err(OpenError::TooFewPages);
        }
        let reads = pages.open(sectors).map_err(raised)?;
        let label = pages.label();
        Ok(FileSystem {
            pages,
            work,
            label,
            reads,
        })
    }

    // What the call's meaning says, on the card, with power cut anywhere: the machine that it plays keeps the promise `Whole`. The reply's bytes stand in `out`.
    pub fn call<'o>(&mut self, call: Call<&[u8]>, out: &'o mut [u8; 65536]) -> Reply<'o>
        ensures plays { (frames : ℕ) → Plays D.Device.steps ((machine frames).does (call_of call.entry) (mem_of frames self.old)) (device_of self.old) (device_of self.new) (record { reply = reply_of result; mem = mem_of frames self.new }) }
        ensures whole { (frames : ℕ) → Whole built (machine frames) }
        ensures foreign { (frames : ℕ) → RefusesForeign (machine frames) }
    {
        self.serve(call, out)
    }

    // The call, by what it asks of the pages.
    fn serve<'o>(&mut self, call: Call<&[u8]>, out: &'o mut [u8; 65536]) -> Reply<'o>
        ensures { Runs (CacheGoes D.Device.steps) (call_flow (call_of call.entry) (files_of self.old)) self.old.pages.now self.new.pages.now (reply_of result, files_of self.new) }
    {
        let Some(label) = &self.label else {
            return Reply::No(Refusal::UnknownForm);
        };
        match call {
            Call::Sync => {
                self.pages.sync(label);
                Reply::Done
            }
            _ => Reply::No(Refusal::NotBuilt),
        }
    }

    // How many sectors coming up has read: just as many as the machine reads then.
    pub fn reads(&self) -> u64
        ensures value { result ≡ self.now.reads }
        ensures counted { (frames : ℕ) → OpenCounted frames }
    {
        self.reads
    }
}
