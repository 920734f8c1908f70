// FNV-1a with 64 bits, of bytes that come in parts.
ghost use Rattle.std.specs.Prelude.{◌≡◌};
ghost use Rattle.rehearse.specs.Digest.{offset_basis, stepped, digested};

const OFFSET_BASIS: u64 = 0xCBF2_9CE4_8422_2325;

const PRIME: u64 = 0x0000_0100_0000_01B3;

#[derive(Clone, Copy)]
pub struct Digest {
    value: u64,
}

fn step(value: u64, byte: u8) -> u64
    ensures { result ≡ stepped value byte }
{
    (value ^ u64::from(byte)).wrapping_mul(PRIME)
}

impl Digest {
    // Of no bytes.
    pub fn new() -> Digest
        ensures { result.value ≡ offset_basis }
    {
        Digest {
            value: OFFSET_BASIS,
        }
    }

    // Of these bytes after those before.
    pub fn add(&mut self, bytes: &[u8])
        ensures { self.new.value ≡ digested self.old.value bytes.now }
    {
        self.value = bytes
            .iter()
            .fold(self.value, |value, byte| step(value, *byte));
    }

    pub fn value(self) -> u64
        ensures { result ≡ self.value }
    {
        self.value
    }
}
