//! Course of a run: its seed, and which events it has.

use crate::dice::Dice;
use std::alloc::{AllocError, Global};

/// The seed of a run, and its events by their numbers. What an event draws rests on its number and
/// on the seed only, so leaving one out changes nothing that others draw.
#[derive(Drop)]
pub struct Course {
    pub seed: u64,
    /// Memory is scarce.
    pub is_scarce: bool,
    // So many events from 0 on, if there is no list.
    count: u64,
    list: Option<Vec<u64>>,
}

impl Course {
    /// So many events.
    pub fn whole(seed: u64, is_scarce: bool, count: u64) -> Course {
        Course {
            seed,
            is_scarce,
            count,
            list: None,
        }
    }

    /// These events.
    pub fn of(seed: u64, is_scarce: bool, list: Vec<u64>) -> Course {
        Course {
            seed,
            is_scarce,
            count: list.len() as u64,
            list: Some(list),
        }
    }

    /// The same run with these events.
    pub fn with(&self, list: Vec<u64>) -> Course {
        Course::of(self.seed, self.is_scarce, list)
    }

    /// How many events there are.
    pub fn len(&self) -> u64 {
        self.count
    }

    /// The number of the event at this place.
    pub fn number(&self, at: u64) -> u64 {
        match &self.list {
            Some(list) => match usize::try_from(at) {
                Ok(at) => list.get(at).copied().unwrap_or(at as u64),
                Err(_) => at,
            },
            None => at,
        }
    }

    /// What the event at this place draws from.
    pub fn dice(&self, at: u64) -> Dice {
        let number = self.number(at).wrapping_add(1);
        let state = number.wrapping_mul(0x9e37_79b9_7f4a_7c15) ^ self.seed;
        Dice::new(state, self.seed)
    }

    /// Its first so many events, as a list.
    pub fn first(&self, alloc: Global, count: u64) -> Result<Vec<u64>, AllocError> {
        let mut list = Vec::new(alloc);
        for at in 0..count.min(self.count) {
            list.push(self.number(at))?;
        }
        Ok(list)
    }
}
