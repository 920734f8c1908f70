// What the store does at each call.
ghost use Rattle.std.specs.Prelude.{◌≡◌, ◌<◌, ◌≤◌, true, ◌&&◌, is_some, is_ok, nat_lt};
ghost use Rattle.device.specs.Flow.{Runs};
ghost use Rattle.paging.specs.Layout.{numbers, last_node, rooms};
ghost use Rattle.paging.specs.Memory.{target};
ghost use Rattle.paging.specs.Store.{store_flow, reclaim, reclaim_turn, place_of, unchanged, put_into, put, write_below};
ghost use Rattle.paging.specs.Pages.{same_bytes, blank_page};
ghost use Rattle.pages.specs.Flags.{as_place};
ghost use Rattle.pages.specs.Of.{IsNode, IsPage, IsPlace, seen};
ghost use Rattle.pages.specs.Writing.{nodes_written};
ghost use Rattle.pages.specs.Serving.{stored_of};

use crate::flags::{Flag, Version};
use crate::geometry::{CHILDREN, DEPTH, child_of, slot_of};
use crate::memory::Memory;
use crate::store::Store;
use crate::transfer::{read_page, same_pages, write_page, write_root};
use crate::{Pages, Refused};
use device::Device;

// The marked nodes below a node, each into the slot that does not count. No method of the store: the memory is only read, so a method would have to say that it stays.
fn write_below<D: Device>(device: &mut D, memory: &Memory, depth: u8, node: u64)
    requires { IsNode memory.now node }
    ensures { Runs D.Device.steps (write_below depth (seen memory.now) node) device.old device.new tt }
{
    if depth == 0 || node >= memory.words.card.inner() {
        return;
    }
    for b in 0..CHILDREN {
        let child = child_of(node, b);
        if memory.is_marked(child) {
            let slot = slot_of(child, !memory.words.has(Flag::Slot, child));
            device.write(slot, &memory.node_sector(child));
            write_below(device, memory, depth - 1, child);
        }
    }
}

// All of them, for good.
fn write_nodes<D: Device>(device: &mut D, memory: &Memory)
    ensures { Runs D.Device.steps (nodes_written (seen memory.now)) device.old device.new tt }
{
    write_below(device, memory, DEPTH, 0);
    device.sync();
}

// Whether a page is all zero.
pub fn is_blank(bytes: &[u8; 4096]) -> bool
    ensures { result ≡ same_bytes bytes.now blank_page }
{
    *bytes == [0u8; 4096]
}

impl<'a, D: Device> Store<'a, D> {
    // The physical page at which a page lies; none for a blank one, and for what is no page.
    fn place_of(&self, n: u64) -> Option<u64>
        ensures { as_place result ≡ place_of (stored_of self.now).mem n }
    {
        if self.has(n) {
            self.memory.words.place(Version::Now, n)
        } else {
            None
        }
    }

    // Whether nothing is to be written, and the label stays.
    fn is_unchanged(&self, label: &[u8; 248]) -> bool
        ensures { result ≡ unchanged label.now (stored_of self.now) }
    {
        match &self.label {
            Some(last) => !self.memory.words.has(Flag::Dirty, 0) && label == last,
            None => true,
        }
    }

    // Whether there is such a page: none is there while the store is not up.
    fn has(&self, n: u64) -> bool
        ensures { result ≡ (is_some self.now.label && nat_lt n (numbers self.now.memory.words.card.sectors)) }
    {
        self.label.is_some() && n < self.memory.words.card.pages()
    }

    // A page with two places that hold the same goes back to where it was synced.
    fn reclaim_page(&mut self, n: u64)
        requires { IsPage self.old.memory n }
        ensures label { self.new.label ≡ self.old.label }
        ensures size { self.new.memory.words.card.sectors ≡ self.old.memory.words.card.sectors }
        ensures runs { Runs D.Device.steps (reclaim_turn n (seen self.old.memory)) self.old.device self.new.device (seen self.new.memory) }
    {
        let Some((now, synced)) = self.memory.two_places(n) else {
            return;
        };
        let card = self.memory.words.card;
        if same_pages(&mut self.device, card.home(now), card.home(synced)) {
            let volatile = self.memory.words.has(Flag::Volatile, n);
            self.memory.move_page(n, Some(synced), volatile);
        }
    }

    // All of them, before it is said that there is no room.
    fn reclaim_pages(&mut self)
        ensures label { self.new.label ≡ self.old.label }
        ensures size { self.new.memory.words.card.sectors ≡ self.old.memory.words.card.sectors }
        ensures runs { Runs D.Device.steps (reclaim (seen self.old.memory)) self.old.device self.new.device (seen self.new.memory) }
    {
        for n in 0..self.memory.words.card.pages() {
            self.reclaim_page(n);
        }
    }

    // Where a page of the card is to be written.
    fn room_for(&self, n: u64) -> Option<u64>
        requires { IsPage self.now.memory n }
        ensures is { as_place result ≡ target (seen self.now.memory) ((seen self.now.memory).now n) }
        ensures within { IsPlace self.now.memory result }
    {
        self.memory.target(self.memory.words.place(Version::Now, n))
    }

    // Writes a page at a place, if there is one.
    fn put_into(
        &mut self,
        n: u64,
        bytes: &[u8; 4096],
        volatile: bool,
        place: Option<u64>,
    ) -> Result<(), Refused>
        requires { (is_some self.old.label ≡ true) × (IsPage self.old.memory n × IsPlace self.old.memory place) }
        ensures { Runs D.Device.steps (put_into n bytes.now volatile (stored_of self.old) (seen self.old.memory) (as_place place)) self.old.device self.new.device (is_ok result, stored_of self.new) }
    {
        let Some(p) = place else {
            return Err(Refused);
        };
        let home = self.memory.words.card.home(p);
        write_page(&mut self.device, home, bytes);
        self.memory.move_page(n, place, volatile);
        Ok(())
    }

    // Volatile or not is a bool in the memory's words and in the judge, so it is one here.
    fn put_page(&mut self, n: u64, bytes: &[u8; 4096], volatile: bool) -> Result<(), Refused>
        ensures { Runs D.Device.steps (put n bytes.now volatile (stored_of self.old)) self.old.device self.new.device (is_ok result, stored_of self.new) }
    {
        if !self.has(n) {
            return Err(Refused);
        }
        if is_blank(bytes) {
            self.memory.move_page(n, None, false);
            return Ok(());
        }
        let near = self.room_for(n);
        if near.is_some() {
            return self.put_into(n, bytes, volatile, near);
        }
        self.reclaim_pages();
        let far = self.room_for(n);
        self.put_into(n, bytes, volatile, far)
    }
}

impl<'a, D: Device> Pages for Store<'a, D> {
    ghost goes = { λ s c r t. Runs D.Device.steps (store_flow c (stored_of s)) s.device t.device (r, stored_of t) };

    fn get(&mut self, n: u64, into: &mut [u8; 4096]) {
        match self.place_of(n) {
            Some(p) => {
                let home = self.memory.words.card.home(p);
                read_page(&mut self.device, home, into);
            }
            None => into.fill(0),
        }
    }

    fn put(&mut self, n: u64, bytes: &[u8; 4096]) -> Result<(), Refused> {
        self.put_page(n, bytes, false)
    }

    fn put_volatile(&mut self, n: u64, bytes: &[u8; 4096]) -> Result<(), Refused> {
        self.put_page(n, bytes, true)
    }

    fn put_through(&mut self, n: u64, bytes: &[u8; 4096]) -> Result<(), Refused> {
        self.put(n, bytes)
    }

    fn volatile(&mut self, n: u64) -> Result<(), Refused> {
        if !self.has(n) {
            return Err(Refused);
        }
        let place = self.memory.words.place(Version::Now, n);
        if place.is_some() {
            self.memory.move_page(n, place, true);
        }
        Ok(())
    }

    fn spare(&mut self, from: u64) -> Option<u64> {
        if self.label.is_none() {
            return None;
        }
        self.memory.spare_from(from)
    }

    fn left(&mut self) -> u64 {
        if self.label.is_some() {
            self.memory.left
        } else {
            0
        }
    }

    fn label(&mut self) -> Option<[u8; 248]> {
        self.label
    }

    fn sync(&mut self, label: &[u8; 248]) {
        if self.is_unchanged(label) {
            return;
        }
        let root = self.memory.root_sector(label);
        write_nodes(&mut self.device, &self.memory);
        write_root(&mut self.device, &root);
        self.memory.tidy();
        self.label = Some(*label);
    }
}
