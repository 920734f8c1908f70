// A file of the host as a card.
ghost use Rattle.std.specs.Prelude.{◌≡◌};

use anyhow::anyhow;
use device::Device;
use std::fs::{File, OpenOptions};
use std::io;
use std::io::{Read, Seek, SeekFrom, Write};
use std::rt::Files;

const SECTOR: u64 = 512;

// The first trouble with the file is kept. From then on nothing is asked of the file, so that nothing that follows from a failed read is written: for the card it is a power cut.
#[derive(Drop)]
pub struct HostCard {
    file: File,
    sectors: u64,
    trouble: Option<io::Error>,
}

impl HostCard {
    // A file whose size is a multiple of 512 bytes; nothing is written to it.
    pub fn open(rt: &HostRuntime, path: &str) -> anyhow::Result<HostCard> {
        let file = OpenOptions::new().read(true).write(true).open(rt, path)?;
        let bytes = file.metadata()?.len();
        if bytes % SECTOR != 0 {
            return Err(anyhow!("the file's size is no multiple of 512 bytes"));
        }
        Ok(HostCard {
            file,
            sectors: bytes / SECTOR,
            trouble: None,
        })
    }

    pub fn sectors(&self) -> u64
        ensures { result ≡ self.now.sectors }
    {
        self.sectors
    }

    pub fn trouble(&self) -> Option<&io::Error> {
        self.trouble.as_ref()
    }

    // Does something with the file, unless there was trouble before.
    fn unless_trouble<F: FnOnce(&mut File) -> io::Result<()>>(&mut self, step: F)
        requires { F.IsAlwaysCallable step }
    {
        if self.trouble.is_none() {
            self.trouble = step(&mut self.file).err();
        }
    }
}

fn read_sector(file: &mut File, at: u64, into: &mut [u8; 512]) -> io::Result<()> {
    let _ = file.seek(SeekFrom::Start(at.saturating_mul(SECTOR)))?;
    file.read_exact(into)
}

fn write_sector(file: &mut File, at: u64, bytes: &[u8; 512]) -> io::Result<()> {
    let _ = file.seek(SeekFrom::Start(at.saturating_mul(SECTOR)))?;
    file.write_all(bytes)
}

// Nothing can be proved of a file of the host, so its relation says nothing; docs/DECISIONS.md says what is assumed of it.
impl Device for HostCard {
    ghost steps = { λ s c r t. Unit {0} };

    fn read(&mut self, at: u64, into: &mut [u8; 512]) {
        self.unless_trouble(|file| read_sector(file, at, into));
    }

    fn write(&mut self, at: u64, bytes: &[u8; 512]) {
        self.unless_trouble(|file| write_sector(file, at, bytes));
    }

    fn sync(&mut self) {
        self.unless_trouble(|file| file.sync_all());
    }
}
