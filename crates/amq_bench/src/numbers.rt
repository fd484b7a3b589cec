ghost use Rattle.std.specs.Prelude.{◌≡◌, ◌+◌, ◌*◌, ◌/◌, ◌%◌, ◌^◌};

/// Numbers in an order that looks random: the journal's generator makes its bodies from them.
#[derive(Clone, Copy, Debug, PartialEq, Eq)]
pub struct Numbers {
    state: u64,
}

impl Numbers {
    pub fn from_seed(seed: u64) -> Numbers
        ensures { result.state ≡ seed }
    {
        Numbers { state: seed }
    }

    /// The next number, below 2^31.
    pub fn draw(&mut self) -> usize
        ensures state { self.new.state ≡ (self.old.state * 6364136223846793005 + 1442695040888963407) % 2 ^ 64 }
        ensures drawn { result ≡ self.new.state / 2 ^ 33 }
    {
        self.state = self
            .state
            .wrapping_mul(6_364_136_223_846_793_005)
            .wrapping_add(1_442_695_040_888_963_407);
        (self.state >> 33) as usize
    }
}
