// What the page store costs, in sectors and device syncs: counts are printed, and compared in the gate; times go to standard error.
#![tactic(auto)]

use anyhow::anyhow;
use cache::cached::Cached;
use device::Device;
use device::memory::{Askings, Memory};
use pages::store::Store;
use pages::{Pages, Refused};
use std::time::Instant;

const PAGE_SECTORS: u64 = 8;

// A card of 64 MiB.
const SECTORS: u64 = 131072;

const PUTS: u64 = 10000;

// A blank card of any size, which keeps nothing and counts what is read.
#[derive(Drop)]
struct Blank {
    reads: u64,
}

impl Device for Blank {
    ghost steps = { λ s c r t. Unit {0} };

    fn read(&mut self, _at: u64, into: &mut [u8; 512]) {
        self.reads = self.reads.wrapping_add(1);
        *into = [0u8; 512];
    }

    fn write(&mut self, _at: u64, _bytes: &[u8; 512]) {}

    fn sync(&mut self) {}
}

// Another page at each turn.
fn stamp(page: &mut [u8; 4096], n: u64) {
    let bytes = n.wrapping_add(1).to_le_bytes();
    page[0..8].copy_from_slice(&bytes);
}

// Page numbers that come round after `spread`, and a sync after each `group` of puts.
#[derive(Clone, Copy)]
struct Load {
    spread: u64,
    group: u64,
}

// One put, and a sync where a group is full.
fn put_one<P: Pages>(pages: &mut P, load: Load, turn: u64) -> Result<(), Refused> {
    let mut page = [7u8; 4096];
    stamp(&mut page, turn);
    pages.put(1 + turn % load.spread.max(1), &page)?;
    if turn % load.group.max(1) == load.group.saturating_sub(1) {
        pages.sync(&[1u8; 248]);
    }
    Ok(())
}

// All puts, and a last sync.
fn put_all<P: Pages>(pages: &mut P, load: Load) -> Result<(), Refused> {
    for turn in 0..PUTS {
        put_one(pages, load, turn)?;
    }
    pages.sync(&[1u8; 248]);
    Ok(())
}

fn report(rt: &HostRuntime, name: &str, group: u64, asked: Askings) -> anyhow::Result<()> {
    let Askings {
        reads,
        writes,
        syncs,
    } = asked;
    let beyond = writes.saturating_sub(PAGE_SECTORS * PUTS);
    let percent = writes / (PAGE_SECTORS * PUTS / 100);
    println!(rt;
        "{name}, a sync after {group}: {writes} sectors written ({percent}% of the pages' own), {beyond} beyond them, {reads} read, {syncs} device syncs"
    )?;
    Ok(())
}

fn puts(rt: &HostRuntime, name: &str, load: Load) -> anyhow::Result<()> {
    let mut words = vec![in rt.alloc(); 0u64; 2 * (SECTORS / PAGE_SECTORS) as usize]?;
    let mut store = Store::new(Memory::new(rt.alloc(), SECTORS)?, &mut words);
    let opening = store
        .open(SECTORS)
        .map_err(|_| anyhow!("the store did not come up"))?;
    let start = Instant::now(rt)?;
    put_all(&mut store, load).map_err(|_| anyhow!("no room"))?;
    let took = start.elapsed(rt)?;
    let mut asked = store.with_device(|card| card.askings());
    asked.reads = asked.reads.saturating_sub(opening);
    let group = load.group;
    report(rt, name, group, asked)?;
    eprintln!(rt; "{name}, a sync after {group}: {took:?}")?;
    Ok(())
}

// 100 pages changed 100 times between two syncs, on a cache of so many frames over the store.
fn changes(rt: &HostRuntime, frames: usize) -> anyhow::Result<()> {
    let mut words = vec![in rt.alloc(); 0u64; 2 * (SECTORS / PAGE_SECTORS) as usize]?;
    let mut lent = vec![in rt.alloc(); [0u8; 4096]; frames]?;
    let mut store = Store::new(Memory::new(rt.alloc(), SECTORS)?, &mut words);
    let mut cache = Cached::new(&mut store, 0, &mut lent);
    let _ = cache
        .open(SECTORS)
        .map_err(|_| anyhow!("the cache did not come up"))?;
    let start = Instant::now(rt)?;
    let load = Load {
        spread: 100,
        group: PUTS,
    };
    put_all(&mut cache, load).map_err(|_| anyhow!("no room"))?;
    let took = start.elapsed(rt)?;
    let wrote = store.with_device(|card| card.writes());
    let pages = wrote / PAGE_SECTORS;
    println!(rt;
        "100 pages changed 100 times between two syncs, {frames} frames: {wrote} sectors written, as many as {pages} pages have"
    )?;
    eprintln!(rt; "100 pages changed 100 times between two syncs, {frames} frames: {took:?}")?;
    Ok(())
}

fn up(rt: &HostRuntime, name: &str, sectors: u64) -> anyhow::Result<()> {
    let mut words = vec![in rt.alloc(); 0u64; (sectors / 4) as usize]?;
    let mut store = Store::new(Blank { reads: 0 }, &mut words);
    let start = Instant::now(rt)?;
    let reads = store
        .open(sectors)
        .map_err(|_| anyhow!("the store did not come up"))?;
    let took = start.elapsed(rt)?;
    let asked = store.with_device(|card| card.reads);
    let most = 64 + sectors / 64;
    println!(rt; "coming up at {name}: {reads} sectors read, {asked} asked for, {most} allowed")?;
    eprintln!(rt; "coming up at {name}: {took:?}")?;
    Ok(())
}

fn run(rt: &HostRuntime) -> anyhow::Result<()> {
    for (name, spread) in [("new pages", 16000), ("100 pages rewritten", 100)] {
        for group in [1, 16, 256] {
            puts(rt, name, Load { spread, group })?;
        }
    }
    for frames in [0, 35, 100] {
        changes(rt, frames)?;
    }
    for (name, sectors) in [("64 MiB", 131072), ("1 GiB", 2097152), ("16 GiB", 33554432)] {
        up(rt, name, sectors)?;
    }
    Ok(())
}

fn main(rt: HostRuntime) -> anyhow::Result<()> {
    run(&rt)
}
