//! Effect of one message, as its session hears it.

ghost use Rattle.std.specs.Prelude.{◌≡◌, ◌≤◌};
ghost use Rattle.linda_shared_accounts.specs.Effect as spec;

use crate::fault::SharedFault;

/// What one message led to. A deed has its receipt: one that several share, or one with memory of
/// its own.
#[derive(Debug, Drop)]
pub enum Effect<R> {
    /// A deed.
    Deed(R),
    /// No deed.
    NoDeed,
    /// Nothing was done.
    Failed(SharedFault),
}

impl<R> Effect<R> {
    /// The effect of a message, given the receipt of its deed, if it made one.
    pub fn of(receipt: Option<R>) -> Effect<R>
        ensures { result ≡ spec.told_of receipt }
    {
        match receipt {
            Some(receipt) => Effect::Deed(receipt),
            None => Effect::NoDeed,
        }
    }

    /// 1 if a deed was made, else 0.
    pub fn weight(&self) -> u64
        ensures is { result ≡ spec.weight self.now }
        ensures few { result ≤ 1 }
    {
        match self {
            Effect::Deed(_) => 1,
            Effect::NoDeed | Effect::Failed(_) => 0,
        }
    }
}
