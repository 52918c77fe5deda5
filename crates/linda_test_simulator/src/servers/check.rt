//! Check of a server that was opened: it keeps what the model keeps.

use crate::servers::model::Model;
use crate::servers::words::{Told, Value, value_of};
use linda_bag::{Bag, IndexBag};
use linda_book::{Book, KeptReply};
use linda_store_state::State;
use linda_tuple::Tuple;

/// Whether the state is the model's.
pub fn is_kept(state: &State<IndexBag>, model: &Model) -> bool {
    state.next == model.next && has_items(&state.bag, model) && has_lasts(&state.book, model)
}

// Whether the bag has the model's tuples and no others.
fn has_items(bag: &IndexBag, model: &Model) -> bool {
    if bag.len() != model.items.len() {
        return false;
    }
    for item in model.items.iter() {
        match bag.get(item.id) {
            Some(tuple) => {
                if !is_value(tuple, item.value) {
                    return false;
                }
            }
            None => return false,
        }
    }
    true
}

// Whether a tuple is this one.
fn is_value(tuple: &Tuple, value: Value) -> bool {
    value_of(tuple) == Some(value)
}

// Whether the book has the model's last replies and no others.
fn has_lasts(book: &Book, model: &Model) -> bool {
    if book.len() != model.lasts.len() {
        return false;
    }
    for last in model.lasts.iter() {
        match book.entry_from(last.client) {
            Some((client, (n, reply))) => {
                if client != last.client || n != last.n || !is_reply(reply, last.reply) {
                    return false;
                }
            }
            None => return false,
        }
    }
    true
}

// Whether a kept reply is this one.
fn is_reply(reply: &KeptReply, told: Told) -> bool {
    match (reply, told) {
        (KeptReply::Stored(id), Told::Stored { id: wanted, .. }) => *id == wanted,
        (
            KeptReply::Taken(id, tuple),
            Told::Taken {
                id: wanted,
                value,
                ..
            },
        ) => { *id == wanted && is_value(tuple, value) }
        (KeptReply::Gone, Told::Gone { .. }) => true,
        (KeptReply::Left, Told::Left { .. }) => true,
        _ => false,
    }
}
