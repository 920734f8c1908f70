// Numbers that look random and are the same for the same seed: splitmix64.
ghost use Rattle.std.specs.Prelude.{◌≡◌};
ghost use Rattle.device.specs.Random.{turned, mixed};

#[derive(Drop)]
pub struct SplitMix64 {
    state: u64,
}

impl SplitMix64 {
    pub fn new(seed: u64) -> SplitMix64
        ensures { result.state ≡ seed }
    {
        SplitMix64 { state: seed }
    }

    pub fn next_u64(&mut self) -> u64
        ensures state { self.new.state ≡ turned self.old.state }
        ensures value { result ≡ mixed (turned self.old.state) }
    {
        self.state = self.state.wrapping_add(0x9E37_79B9_7F4A_7C15);
        let a = (self.state ^ (self.state >> 30)).wrapping_mul(0xBF58_476D_1CE4_E5B9);
        let b = (a ^ (a >> 27)).wrapping_mul(0x94D0_49BB_1331_11EB);
        b ^ (b >> 31)
    }
}
