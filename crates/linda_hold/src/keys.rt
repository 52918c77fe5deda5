//! Keys of the hash of arrival numbers.

ghost use Rattle.linda_hold.specs.Keys.{first_state};

use std::hash::{BuildHasher, DefaultHasher, RandomState};

/// The keys of the hash: the same in every process, or random ones.
#[derive(Clone, Copy)]
pub(crate) enum Keys {
    Fixed,
    Random(RandomState),
}

impl BuildHasher for Keys {
    type Hasher = DefaultHasher;

    ghost build_hasher = { first_state };

    fn build_hasher(&self) -> DefaultHasher {
        match self {
            Keys::Fixed => DefaultHasher::default(),
            Keys::Random(keys) => keys.build_hasher(),
        }
    }
}
