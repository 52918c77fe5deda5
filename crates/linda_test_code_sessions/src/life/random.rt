//! Numbers that look random, from a seed.

ghost use Rattle.std.specs.Prelude.{◌<◌};

/// A generator of such numbers (xorshift).
#[derive(Clone, Copy)]
pub(super) struct Random {
    state: u64,
}

impl Random {
    /// The generator of this seed, which is not 0.
    pub(super) fn new(seed: u64) -> Random {
        Random {
            state: seed.wrapping_mul(0x9e37_79b9_7f4a_7c15),
        }
    }

    /// A number below this one.
    pub(super) fn below(&mut self, end: u64) -> u64
        requires { 0 < end }
        ensures { result < end }
    {
        let mut x = self.state;
        x ^= x.wrapping_shl(13);
        x ^= x >> 7;
        x ^= x.wrapping_shl(17);
        self.state = x;
        x % end
    }

    /// One of twelve tuples: four times its letter, and its number.
    pub(super) fn row(&mut self) -> u64 {
        let letter = self.below(3);
        letter * 4 + self.below(4)
    }
}
