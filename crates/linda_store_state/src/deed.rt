//! Deeds: what a server did, and what it keeps on a disk.

ghost use Rattle.std.specs.Prelude.{◌≡◌, ◌↔◌, true, IfOk, OnErr};
ghost use Rattle.linda_store_state.specs.Deed.{client_of, number_of, PutsTuple};

mod spelled;

use linda_tuple::Tuple;
use std::alloc::{AllocError, Global};

/// One change of a server's state. Each fresh numbered message that is not refused makes one.
#[derive(Debug, Drop)]
pub enum Deed {
    /// The client put a tuple, which got the next id.
    Out { client: u32, n: u64, tuple: Tuple },
    /// The client took the tuple of this id.
    Take { client: u32, n: u64, id: u64 },
    /// The client wanted the tuple of this id, and did not get it.
    Pass { client: u32, n: u64, id: u64 },
    /// The client gave up its number for good.
    Leave { client: u32, n: u64 },
}

impl Deed {
    /// The client whose deed it is.
    pub fn client(&self) -> u32
        ensures { result ≡ client_of self.now }
    {
        match self {
            Deed::Out { client, .. } => *client,
            Deed::Take { client, .. } => *client,
            Deed::Pass { client, .. } => *client,
            Deed::Leave { client, .. } => *client,
        }
    }

    /// The number of the message that it answers.
    pub fn number(&self) -> u64
        ensures { result ≡ number_of self.now }
    {
        match self {
            Deed::Out { n, .. } => *n,
            Deed::Take { n, .. } => *n,
            Deed::Pass { n, .. } => *n,
            Deed::Leave { n, .. } => *n,
        }
    }

    /// A copy with memory of its own.
    ///
    /// # Errors
    ///
    /// `AllocError` if memory runs out. It comes only for an Out: the others take no memory.
    pub fn try_clone(&self, alloc: Global) -> Result<Deed, AllocError>
        ensures ok { IfOk result (λ copy. copy ≡ self.now) }
        ensures err { OnErr result (PutsTuple self.now) }
    {
        match self {
            Deed::Out { client, n, tuple } => Ok(Deed::Out {
                client: *client,
                n: *n,
                tuple: tuple.try_clone(alloc)?,
            }),
            Deed::Take { client, n, id } => Ok(Deed::Take {
                client: *client,
                n: *n,
                id: *id,
            }),
            Deed::Pass { client, n, id } => Ok(Deed::Pass {
                client: *client,
                n: *n,
                id: *id,
            }),
            Deed::Leave { client, n } => Ok(Deed::Leave {
                client: *client,
                n: *n,
            }),
        }
    }
}

impl PartialEq for Deed {
    ghost use Rattle.std.specs.Cmp.{partial_equiv_from_equiv};
    ghost use Rattle.linda_store_state.specs.Sameness.{same_deed, same_deed-equiv};

    ghost eq = { same_deed };

    ghost laws = { partial_equiv_from_equiv same_deed-equiv };

    // Deeds compare equal exactly if they are.
    fn eq(&self, other: &Deed) -> bool
        ensures test { result ≡ same_deed self.now other.now }
        ensures exact { (result ≡ true) ↔ (self.now ≡ other.now) }
    {
        match (self, other) {
            (
                Deed::Out { client, n, tuple },
                Deed::Out {
                    client: c,
                    n: m,
                    tuple: row,
                },
            ) => { *client == *c && *n == *m && *tuple == *row }
            (
                Deed::Take { client, n, id },
                Deed::Take {
                    client: c,
                    n: m,
                    id: taken,
                },
            ) => { *client == *c && *n == *m && *id == *taken }
            (
                Deed::Pass { client, n, id },
                Deed::Pass {
                    client: c,
                    n: m,
                    id: passed,
                },
            ) => { *client == *c && *n == *m && *id == *passed }
            (Deed::Leave { client, n }, Deed::Leave { client: c, n: m }) => {
                *client == *c && *n == *m
            }
            _ => false,
        }
    }
}

impl Eq for Deed {
    ghost use Rattle.linda_store_state.specs.Sameness.{same_deed-equiv};

    ghost laws = { same_deed-equiv };
}
