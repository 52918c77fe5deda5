//! Service of messages by a store, before anything is written.

ghost use Rattle.std.specs.Prelude.{◌≡◌, ◌∷◌, [], OnOk, IfOk, false};
ghost use Rattle.linda_store_step.specs.Served.{IsServed};
ghost use Rattle.linda_server.specs.Messages.{messages_of};

use linda_bag::IndexBag;
use linda_store_step::{Served, Store};
use linda_wire::Message;
use std::alloc::{AllocError, Global};

/// One message or several, each of its client, which are served one after another.
#[derive(Clone, Copy)]
pub(crate) enum Messages<'a> {
    /// One, of this client.
    One(u32, &'a Message),
    /// So many.
    Many(&'a [(u32, Message)]),
}

/// Serves messages.
///
/// # Errors
///
/// `AllocError` if memory runs out.
pub(crate) fn serve(
    store: &mut Store<IndexBag>,
    alloc: Global,
    batch: Messages<'_>,
) -> Result<Served, AllocError>
    requires { store.old.is_spent ≡ false }
    ensures ok { IfOk result (λ served.
        IsServed store.old.state store.old.soft (messages_of batch.entry)
        served store.new.state store.new.soft) }
    ensures unspent { OnOk result (store.new.is_spent ≡ false) }
{
    match batch {
        Messages::One(client, message) => serve_one(store, alloc, client, message),
        Messages::Many(messages) => store.step_all(alloc, messages),
    }
}

// Serves one message, without room for more.
fn serve_one(
    store: &mut Store<IndexBag>,
    alloc: Global,
    client: u32,
    message: &Message,
) -> Result<Served, AllocError>
    requires { store.old.is_spent ≡ false }
    ensures ok { IfOk result (λ served. IsServed store.old.state store.old.soft
        ((client, message.now) ∷ []) served store.new.state store.new.soft) }
    ensures unspent { OnOk result (store.new.is_spent ≡ false) }
{
    let mut served = Served::new(alloc);
    store.add_step(alloc, client, message, &mut served, Vec::new(alloc))?;
    Ok(served)
}
