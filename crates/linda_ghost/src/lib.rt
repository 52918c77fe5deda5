//! A value as it was at one moment, which only contracts see.
//!
//! A `Moment<T>` takes no bytes and owns nothing: its ghost field names the value that a reference
//! pointed to when it was made. So it may go to another thread for any `T`, and a struct that keeps
//! one is `Send` if its other fields are.
#![tactic(auto)]

ghost use Rattle.std.specs.Prelude.{◌≡◌};
ghost use base.Fml.{ftrue};

use std::marker::{Model, PhantomData};

/// A value as it was at one moment. It takes no bytes.
pub struct Moment<T> {
    marker: PhantomData<T>,
    pub ghost value: { T },
}

impl<T> Model for Moment<T> {
    ghost also_owns = { λ _. ftrue };
}

impl<T> Moment<T> {
    /// The value as it is now.
    pub fn of(x: &T) -> Moment<T>
        ensures { result.value ≡ x.now }
    {
        let _ = x;
        Moment {
            marker: PhantomData,
        }
    }
}

impl<T> Drop for Moment<T> {
    fn drop(self) {
        let Self { marker: _ } = self;
    }
}

// It owns nothing that a thread could share with another.
unsafe impl<T> Send for Moment<T> {}
