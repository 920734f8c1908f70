// Coming up: the root, and then the nodes of the map in order, each from the slot that the nodes before it say.
ghost use Rattle.std.specs.Prelude.{◌≡◌, MatchResult, None, Some};
ghost use Rattle.std.specs.Fn.{FnOnceReturnsAtMut};
ghost use Rattle.device.specs.Flow.{Runs};
ghost use Rattle.paging.specs.Store.{nodes_flow, shut};
ghost use Rattle.pages.specs.Of.{seen};
ghost use Rattle.pages.specs.Serving.{ComesUp, size_fault, stored_of};

use crate::flags::Flag;
use crate::geometry::{Card, slot_of};
use crate::memory::Memory;
use crate::sectors::{label_of, root_known};
use crate::store::{OpenError, Store};
use device::Device;

const FEWEST_SECTORS: u64 = 8192;

const MOST_SECTORS: u64 = 1 << 40;

impl TryFrom<u64> for Card {
    type Error = OpenError;

    ghost try_from_gives = { λ sectors r. MatchResult r (λ card. (size_fault sectors ≡ None) × (card.sectors ≡ sectors)) (λ why. size_fault sectors ≡ Some why) };

    fn try_from(sectors: u64) -> Result<Card, OpenError> {
        if sectors < FEWEST_SECTORS {
            return Err(OpenError::TooFewSectors);
        }
        if sectors > MOST_SECTORS {
            return Err(OpenError::TooManySectors);
        }
        Ok(Card::new(sectors))
    }
}

impl<'a, D: Device> Store<'a, D> {
    // Not up yet: until `open` says that it is, all pages are blank and nothing is written.
    pub fn new(device: D, words: &'a mut [u64]) -> Store<'a, D>
        ensures { (result.device ≡ device) × (stored_of result ≡ shut) }
    {
        Store {
            device,
            memory: Memory::new(words),
            label: None,
        }
    }

    // Comes up on a device of 8,192 to 2^40 sectors, with two words for each page of 8 sectors. How many sectors were read is the result; where it is refused, nothing was asked of the device.
    pub fn open(&mut self, sectors: u64) -> Result<u64, OpenError>
        ensures { ComesUp D.Device.steps sectors self.old self.new result }
    {
        self.label = None;
        let card = Card::try_from(sectors)?;
        if !self.memory.words.suffices(card) {
            return Err(OpenError::TooFewWords);
        }
        let mut root = [0u8; 512];
        self.device.read(0, &mut root);
        if !root_known(&root) {
            return Ok(1);
        }
        self.memory.clear(card);
        self.memory.take_node(0, &root);
        self.take_nodes();
        self.label = Some(label_of(&root));
        Ok(card.last_node() + 1)
    }

    // The nodes below the root.
    fn take_nodes(&mut self)
        ensures size { self.new.memory.words.card.sectors ≡ self.old.memory.words.card.sectors }
        ensures runs { Runs D.Device.steps (nodes_flow self.old.memory.words.card.sectors (seen self.old.memory)) self.old.device self.new.device (seen self.new.memory) }
    {
        let mut sector = [0u8; 512];
        for i in 0..self.memory.words.card.last_node() {
            // The turn i of the flow is the node i + 1.
            let node = i + 1;
            let second = self.memory.words.has(Flag::Slot, node);
            self.device.read(slot_of(node, second), &mut sector);
            self.memory.take_node(node, &sector);
        }
    }

    // What f does with the device, for who has lent it: to count what was asked of it, and to rehearse power cuts. The rest of the store stays as it is; who writes to the device has to open the store again.
    pub fn with_device<R, F: FnOnce(&mut D) -> R>(&mut self, f: F) -> R
        requires { F.IsAlwaysCallable f }
        ensures called { FnOnceReturnsAtMut F.FnOnce f self.old.device result self.new.device }
        ensures label { self.new.label ≡ self.old.label }
        ensures memory { self.new.memory ≡ self.old.memory }
    {
        f(&mut self.device)
    }
}
