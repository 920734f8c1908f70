// Numbered pages of 4,096 bytes on a device, all or nothing at a sync: shadow paging under one root sector. What the store is, and what is promised of it, stands in the crate `paging`; here is its code.
#![tactic(auto)]

mod fields;
mod flags;
mod geometry;
mod memory;
mod open;
mod sectors;
pub mod serve;
mod steps;
pub mod store;
mod transfer;

ghost use Rattle.std.specs.Prelude.{◌<◌, IfSome, is_ok};
ghost use Rattle.paging.specs.Pages.{PageCall, Told, Get, Put, PutVolatile, PutThrough, Volatile, Spare, Left, Label, Sync};
ghost use Rattle.pages.specs.Of.{page_told};

// A page is refused: there is no such page, or no room. It is never printed: the layers above tell what it means for a call.
#[derive(Clone, Copy, Debug, PartialEq, Eq)]
pub struct Refused;

// Numbered pages, by what each call does: `goes s c r t` says that, asked c in the state s, they tell r and are then in the state t. A page that was never put, or that there is none of, is blank: all zero.
pub trait Pages {
    ghost goes: { Self → (c : PageCall) → Told c → Self → Type 0 };

    fn get(&mut self, n: u64, into: &mut [u8; 4096])
        ensures { goes self.old (Get n) into.new self.new };

    fn put(&mut self, n: u64, bytes: &[u8; 4096]) -> Result<(), Refused>
        ensures { goes self.old (Put n bytes.now) (is_ok result) self.new };

    // The same, but a power cut blanks the page. Three methods, as the judge has three calls: what each call tells is of a type of its own, so one method over a kind of put would have a clause by cases, and be no plainer.
    fn put_volatile(&mut self, n: u64, bytes: &[u8; 4096]) -> Result<(), Refused>
        ensures { goes self.old (PutVolatile n bytes.now) (is_ok result) self.new };

    // The same as `put`, for bytes that nobody will ask for soon: pages that are kept in memory do not keep these.
    fn put_through(&mut self, n: u64, bytes: &[u8; 4096]) -> Result<(), Refused>
        ensures { goes self.old (PutThrough n bytes.now) (is_ok result) self.new };

    // The page, as it is, is volatile from now on.
    fn volatile(&mut self, n: u64) -> Result<(), Refused>
        ensures { goes self.old (Volatile n) (is_ok result) self.new };

    // A blank page, never the page 0, looked for from a number on; there is none only where nothing is left.
    fn spare(&mut self, from: u64) -> Option<u64>
        ensures told { goes self.old (Spare from) (page_told result) self.new }
        ensures real { IfSome result (λ n. 0 < n) };

    // How many puts surely find room, and read nothing.
    fn left(&mut self) -> u64
        ensures { goes self.old Left result self.new };

    // The label of the last sync; none where the card is of a form that is not known.
    fn label(&mut self) -> Option<[u8; 248]>
        ensures { goes self.old Label result self.new };

    // When it is answered, the pages and the label stand for good.
    fn sync(&mut self, label: &[u8; 248])
        ensures { goes self.old (Sync label.now) tt self.new };
}

// Pages that are lent are pages: whoever has lent them finds them as they were left.
impl<P: Pages> Pages for &mut P {
    ghost goes = { λ s c r t. P.Pages.goes s.now c r t.now };

    fn get(&mut self, n: u64, into: &mut [u8; 4096]) {
        (**self).get(n, into);
    }

    fn put(&mut self, n: u64, bytes: &[u8; 4096]) -> Result<(), Refused> {
        (**self).put(n, bytes)
    }

    fn put_volatile(&mut self, n: u64, bytes: &[u8; 4096]) -> Result<(), Refused> {
        (**self).put_volatile(n, bytes)
    }

    fn put_through(&mut self, n: u64, bytes: &[u8; 4096]) -> Result<(), Refused> {
        (**self).put_through(n, bytes)
    }

    fn volatile(&mut self, n: u64) -> Result<(), Refused> {
        (**self).volatile(n)
    }

    fn spare(&mut self, from: u64) -> Option<u64> {
        (**self).spare(from)
    }

    fn left(&mut self) -> u64 {
        (**self).left()
    }

    fn label(&mut self) -> Option<[u8; 248]> {
        (**self).label()
    }

    fn sync(&mut self, label: &[u8; 248]) {
        (**self).sync(label);
    }
}
