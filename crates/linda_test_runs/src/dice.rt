//! Dice, by which a run draws what happens next: the same words for the same seed.

use rand_core::utils::NextWord;
use rand_pcg::Pcg32;

/// What draws numbers.
#[derive(Drop)]
pub struct Dice {
    words: Pcg32,
}

impl Dice {
    /// The dice of this seed. Each stream draws words of its own.
    pub fn new(seed: u64, stream: u64) -> Dice {
        Dice {
            words: Pcg32::new(seed, stream),
        }
    }

    /// A number below the limit; 0 if that is 0.
    pub fn below(&mut self, limit: u32) -> u32 {
        let word = self.words.next_word();
        if limit == 0 { 0 } else { word % limit }
    }

    /// Whether one of so many came.
    pub fn one_in(&mut self, count: u32) -> bool {
        self.below(count) == 0
    }

    /// A length of a piece of so many bytes: all of it, a byte, or any length, none too.
    pub fn piece(&mut self, len: usize) -> usize {
        let few = u32::try_from(len).unwrap_or(u32::MAX);
        match self.below(4) {
            0 => len,
            1 => len.min(1),
            _ => (self.below(few.saturating_add(1)) as usize).min(len),
        }
    }
}
