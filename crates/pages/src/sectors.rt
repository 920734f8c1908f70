// The sectors of the map: places, selector bits, form and label.
ghost use Rattle.std.specs.Prelude.{◌≡◌, ◌+◌, ◌-◌, ◌*◌, ◌^◌, ◌<◌, ◌≤◌, ◌++◌, take, if◌then◌else◌, nat_lt};
ghost use Rattle.paging.specs.Layout.{numbers, rooms, inner, last_node, child};
ghost use Rattle.paging.specs.Sectors.{leaf_sector, root_sector, bytes_le, bytes_to, bits_to, bit_at, label_at, root_known};
ghost use Rattle.paging.specs.Memory.{durable, selected, placed, settled, clipped, took_bit, took_bits, took_places, took};
ghost use Rattle.paging.specs.Store.{holds};
ghost use Rattle.pages.specs.Flags.{as_place};
ghost use Rattle.pages.specs.Of.{IsInner, IsNode, IsPage, IsPlace, Steps, seen};

use crate::fields::number_of;
use crate::flags::Flag;
use crate::geometry::{CHILDREN, LEAF_PAGES, child_of};
use crate::memory::Memory;
use std::array;

// The mark RATS, the form's number, the least form that may read it.
const FORM: [u8; 8] = [82, 65, 84, 83, 1, 0, 1, 0];

// Where the selector bits begin in the sector of a node.
const BITS: usize = 256;

// Whether a root is of this form, or blank.
pub(crate) fn root_known(root: &[u8; 512]) -> bool
    ensures { result ≡ root_known root.now }
{
    root.starts_with(&FORM) || *root == [0u8; 512]
}

pub(crate) fn label_of(root: &[u8; 512]) -> [u8; 248]
    ensures { result ≡ label_at root.now }
{
    // Proved to be so long.
    root[8..BITS].try_into().unwrap()
}

fn bit_at(sector: &[u8; 512], b: usize) -> bool
    requires { b < 2048 }
    ensures { result ≡ bit_at sector.now b }
{
    sector[BITS + b / 8] >> (b % 8) & 1 == 1
}

// A place of so many, as a sector has it; none where it is no place of these.
fn place_of(number: u64, rooms: u64) -> Option<u64>
    ensures is { as_place result ≡ clipped rooms number }
    ensures within { as_place result ≤ rooms }
{
    if number <= rooms {
        number.checked_sub(1)
    } else {
        None
    }
}

impl<'a> Memory<'a> {
    // 8 selector bits of a node's children, from one on.
    fn bits_byte(&self, node: u64, first: u64) -> u8
        requires { IsInner self.now node × (first + 8 ≤ 2048) }
        ensures { result ≡ bits_to 8 (λ i. selected (seen self.now) (child node (first + i))) }
    {
        (0..8u64).rev().fold(0, |byte, i| {
            byte << 1 | u8::from(self.slot_after(child_of(node, first + i)))
        })
    }

    // The selector bits of a node, in the second half of its sector.
    fn put_bits(&self, node: u64, sector: &mut [u8; 512])
        requires { IsInner self.now node }
        ensures { sector.new ≡ take 256 sector.old ++ bytes_to 256 (λ b. selected (seen self.now) (child node b)) }
    {
        let bits: [u8; 256] = array::from_fn(|t| self.bits_byte(node, 8 * t as u64));
        sector[BITS..].copy_from_slice(&bits);
    }

    // Where a sync leaves the page n, if there is such a page.
    fn durable_at(&self, n: u64) -> Option<u64>
        ensures is { as_place result ≡ durable (seen self.now) n }
        ensures within { IsPlace self.now result }
    {
        if n < self.words.card.pages() {
            self.durable_of(n)
        } else {
            None
        }
    }

    // The places of a leaf's pages.
    fn put_places(&self, first: u64, sector: &mut [u8; 512])
        requires { first ≤ self.now.words.card.sectors }
        ensures { sector.new ≡ leaf_sector (λ j. durable (seen self.now) (first + j)) }
    {
        // Without its clauses, of a closure that gives an array a proof knows nothing.
        let place = |j: usize|
            requires { first + j < 2 ^ 64 }
            ensures { result ≡ bytes_le 8 (durable (seen self.entry.now) (first + j)) }
        { number_of(self.durable_at(first + j as u64)).to_le_bytes() };
        let places: [[u8; 8]; 64] = array::from_fn(place);
        sector.copy_from_slice(places.as_flattened());
    }

    // What a node is to hold.
    pub(crate) fn node_sector(&self, node: u64) -> [u8; 512]
        requires { IsNode self.now node }
        ensures { result ≡ holds (seen self.now) node }
    {
        let inner = self.words.card.inner();
        let mut sector = [0u8; 512];
        if node < inner {
            self.put_bits(node, &mut sector);
            return sector;
        }
        self.put_places(LEAF_PAGES * (node - inner), &mut sector);
        sector
    }

    // What the root is to hold.
    pub(crate) fn root_sector(&self, label: &[u8; 248]) -> [u8; 512]
        ensures { result ≡ root_sector label.now (λ b. selected (seen self.now) (child 0 b)) }
    {
        let mut sector = [0u8; 512];
        sector[..8].copy_from_slice(&FORM);
        sector[8..BITS].copy_from_slice(label);
        self.put_bits(0, &mut sector);
        sector
    }

    // Coming up: the bit of a node's child, if there is such a node.
    fn take_bit(&mut self, node: u64, sector: &[u8; 512], b: u64)
        requires { IsInner self.old node × (b < 2048) }
        ensures { Steps self.old self.new (took_bit node sector.now b (seen self.old)) }
    {
        let child = child_of(node, b);
        if child <= self.words.card.last_node() {
            self.set(Flag::Slot, child, bit_at(sector, b as usize));
        }
    }

    // The bits of all its children.
    fn take_bits(&mut self, node: u64, sector: &[u8; 512])
        requires { IsInner self.old node }
        ensures { Steps self.old self.new (took_bits 2048 node sector.now (seen self.old)) }
    {
        for b in 0..CHILDREN {
            self.take_bit(node, sector, b);
        }
    }

    // One page's place, none where the sector has what is no place.
    fn take_place(&mut self, n: u64, number: u64)
        requires { IsPage self.old n }
        ensures { Steps self.old self.new (settled n (placed n (clipped (rooms self.old.words.card.sectors) number) (seen self.old))) }
    {
        let place = place_of(number, self.words.card.rooms());
        self.relocate(n, place);
        self.settle(n);
    }

    // The same, if there is such a page.
    fn take_page(&mut self, n: u64, number: u64)
        ensures { Steps self.old self.new (if nat_lt n (numbers self.old.words.card.sectors) then settled n (placed n (clipped (rooms self.old.words.card.sectors) number) (seen self.old)) else seen self.old) }
    {
        if n < self.words.card.pages() {
            self.take_place(n, number);
        }
    }

    // The places of a leaf's pages.
    fn take_places(&mut self, first: u64, sector: &[u8; 512])
        requires { first ≤ self.old.words.card.sectors }
        ensures { Steps self.old self.new (took_places 64 first sector.now (seen self.old)) }
    {
        let (places, _) = sector.as_chunks::<8>();
        for (j, place) in places.iter().enumerate() {
            self.take_page(first + j as u64, u64::from_le_bytes(*place));
        }
    }

    // A node, as its sector says.
    pub(crate) fn take_node(&mut self, node: u64, sector: &[u8; 512])
        requires { IsNode self.old node }
        ensures { Steps self.old self.new (took node sector.now (seen self.old)) }
    {
        let inner = self.words.card.inner();
        if node < inner {
            self.take_bits(node, sector);
        } else {
            self.take_places(LEAF_PAGES * (node - inner), sector);
        }
    }
}
