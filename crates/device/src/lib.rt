// A device of sectors, and the theory of code over one: programs, machines, layers. The definitions are in specs/.
#![tactic(auto)]

pub mod memory;
pub mod random;
pub mod theorems;

ghost use Rattle.device.specs.Plays.{Asked, Told, Read, Write, Sync};

// A device of 512-byte sectors, by what each thing asked of it does: `steps s c r t` says that, asked c in the state s, it tells r and is then in the state t.
pub trait Device {
    ghost steps: { Self → (c : Asked) → Told c → Self → Type 0 };

    fn read(&mut self, at: u64, into: &mut [u8; 512])
        ensures { steps self.old (Read at) into.new self.new };

    fn write(&mut self, at: u64, bytes: &[u8; 512])
        ensures { steps self.old (Write at bytes.now) tt self.new };

    // When it is answered, all that was written before stands for good.
    fn sync(&mut self)
        ensures { steps self.old Sync tt self.new };
}

// A device that is lent is a device: whoever has lent it finds it as it was left.
impl<D: Device> Device for &mut D {
    ghost steps = { λ s c r t. D.Device.steps s.now c r t.now };

    fn read(&mut self, at: u64, into: &mut [u8; 512]) {
        (**self).read(at, into);
    }

    fn write(&mut self, at: u64, bytes: &[u8; 512]) {
        (**self).write(at, bytes);
    }

    fn sync(&mut self) {
        (**self).sync();
    }
}
