//! Two stores, one over each bag: what clients say to them, and what comes of it, which has to be
//! the same.

use crate::batches::batch;
use linda_bag::{Bag, IndexBag, ListBag};
use linda_hold::Holds;
use linda_snap::{SnapshotFault, get_state};
use linda_store_state::{BANK_FORM, Deed, State};
use linda_store_step::{Step, Store};
use linda_test_script::{
    WordsFault, done, read_hex, read_message, read_number, read_numbered, read_small_number,
    split_number, split_word, tell, tell_replies, tell_tuple, tell_two,
};
use linda_text::write_tuple;
use linda_tuple::Form;
use linda_wire::Message;
use std::alloc::{AllocError, Global};
use std::fmt::Display;

/// A store over the plain bag, and one over the bag with an index.
#[derive(Drop)]
pub(crate) struct Stores {
    plain: Store<ListBag>,
    index: Store<IndexBag>,
}

impl Stores {
    /// Stores of servers that were never used.
    pub(crate) fn new(alloc: Global) -> Stores {
        Stores {
            plain: Store::new(alloc),
            index: Store::new(alloc),
        }
    }

    /// Lets both stores do what the words say, and says what came of it, of each if they differ.
    pub(crate) fn play(
        &mut self,
        alloc: Global,
        words: &str,
        came: &mut String,
    ) -> Result<(), WordsFault> {
        let mut plain = String::new(alloc);
        let mut index = String::new(alloc);
        play_store(alloc, &mut self.plain, words, &mut plain)?;
        play_store(alloc, &mut self.index, words, &mut index)?;
        done(tell_alike(came, &plain, &index))
    }
}

// Appends the lines that came of both bags, or those of each if they differ.
fn tell_alike(came: &mut String, plain: &str, index: &str) -> Result<(), AllocError> {
    came.push_str(plain)?;
    if plain == index {
        return Ok(());
    }
    came.push_str("> but over the bag with an index\n")?;
    came.push_str(index)
}

// Lets the store do what the words say.
fn play_store<B: Bag>(
    alloc: Global,
    store: &mut Store<B>,
    words: &str,
    came: &mut String,
) -> Result<(), WordsFault> {
    let (word, rest) = split_word(words);
    match word {
        "state" => take_state(alloc, store, rest),
        "close" => close(alloc, store, rest, came),
        "puts" => puts(alloc, store, rest),
        "many" => puts_many(alloc, store, rest),
        "asks" => asks(alloc, store, rest),
        "passes" => passes(alloc, store, rest),
        "size" => tell_size(alloc, store, rest, came),
        _ => {
            if let Ok((client, words)) = read_numbered(words) {
                answer(alloc, store, client, words, came)
            } else {
                show(alloc, store, word, rest, came)
            }
        }
    }
}

// Takes the store of the state that these bytes spell.
fn take_state<B: Bag>(alloc: Global, store: &mut Store<B>, digits: &str) -> Result<(), WordsFault> {
    let bytes = read_hex(alloc, digits)?;
    let state: State<B> = match get_state(alloc, BANK_FORM, &bytes) {
        Ok(state) => state,
        Err(SnapshotFault::Memory) => return Err(WordsFault::Memory),
        Err(SnapshotFault::NoSnapshot) => return Err(WordsFault::Unknown),
    };
    *store = Store::from_state(alloc, state);
    Ok(())
}

// Ends what a client waits for and holds, and says what comes of it.
fn close<B: Bag>(
    alloc: Global,
    store: &mut Store<B>,
    client: &str,
    came: &mut String,
) -> Result<(), WordsFault> {
    let sends = store.close(alloc, read_small_number(client)?)?;
    done(tell_replies(alloc, came, &sends))
}

// Says what comes of the words of a client.
fn answer<B: Bag>(
    alloc: Global,
    store: &mut Store<B>,
    client: u32,
    words: &str,
    came: &mut String,
) -> Result<(), WordsFault> {
    let step = step_of(alloc, store, client, words)?;
    if let Some(deed) = &step.deed {
        tell_deed(alloc, came, deed)?;
    }
    done(tell_replies(alloc, came, &step.sends))
}

// What comes of the words of a client.
fn step_of<B: Bag>(
    alloc: Global,
    store: &mut Store<B>,
    client: u32,
    words: &str,
) -> Result<Step, WordsFault> {
    let message = read_message(alloc, words)?;
    let before = kept(store);
    match store.step(alloc, client, &message) {
        Ok(step) => Ok(step),
        Err(_) if is_spent(alloc, store, client, &message) && kept(store) == before => {
            Err(WordsFault::Memory)
        }
        Err(_) => Err(WordsFault::Unknown),
    }
}

// What a store keeps: the next id, and how many tuples and clients there are.
fn kept<B: Bag>(store: &Store<B>) -> (u64, usize, usize) {
    let state = store.state();
    (state.next, state.bag.len(), state.book.len())
}

// Whether a store that ran out of memory holds nothing, lets nobody wait, and answers nothing.
fn is_spent<B: Bag>(alloc: Global, store: &mut Store<B>, client: u32, message: &Message) -> bool {
    store.is_spent()
        && store.step(alloc, client, message).is_err()
        && store.close(alloc, client).is_err()
        && store.holds().len() == 0
        && store.waits().len() == 0
}

// Client 7 puts tuples of these fields, as its messages from 1 on.
fn puts<B: Bag>(alloc: Global, store: &mut Store<B>, fields: &str) -> Result<(), WordsFault> {
    let mut n: u64 = 0;
    for field in fields.split_whitespace() {
        n = n.saturating_add(1);
        hear_of(alloc, store, 7, "out", n, field)?;
    }
    Ok(())
}

// Client 6 puts the tuples `("b", n, n % KEYS, n % 7)` for n from 1 on, so many, as its messages n.
fn puts_many<B: Bag>(alloc: Global, store: &mut Store<B>, words: &str) -> Result<(), WordsFault> {
    let (count, rest) = split_number(words)?;
    let keys = read_number(rest)?;
    for n in 1..=count {
        let key = n.checked_rem(keys).unwrap_or(0);
        let words = format!(in alloc; "out {n} (\"b\", {n}, {key}, {})", n % 7)?;
        hear(alloc, store, 6, &words)?;
    }
    Ok(())
}

// Client 8 asks by the tickets from 1 on, below this one, for the tuple 5: to take it by an odd
// one, else to read it.
fn asks<B: Bag>(alloc: Global, store: &mut Store<B>, end: &str) -> Result<(), WordsFault> {
    let end = read_number(end)?;
    for ticket in 1..end {
        let verb = if ticket % 2 == 1 { "in" } else { "rd" };
        hear_of(alloc, store, 8, verb, ticket, "5")?;
    }
    Ok(())
}

// Each client from the first on, below the second, accepts what nobody offered it.
fn passes<B: Bag>(alloc: Global, store: &mut Store<B>, clients: &str) -> Result<(), WordsFault> {
    let (first, end) = read_numbered(clients)?;
    let end = read_small_number(end)?;
    for client in first..end {
        hear(alloc, store, client, "accept 1 1 1")?;
    }
    Ok(())
}

// The store does what a client says, of which nothing is said.
fn hear<B: Bag>(
    alloc: Global,
    store: &mut Store<B>,
    client: u32,
    words: &str,
) -> Result<(), WordsFault> {
    let _ = step_of(alloc, store, client, words)?;
    Ok(())
}

// The store does what a client says, by this number, of the tuple `("a", FIELD)`.
fn hear_of<B: Bag>(
    alloc: Global,
    store: &mut Store<B>,
    client: u32,
    verb: &str,
    n: u64,
    field: &str,
) -> Result<(), WordsFault> {
    hear(
        alloc,
        store,
        client,
        &format!(in alloc; "{verb} {n} (\"a\", {field})")?,
    )
}

// The form that is asked for, which is that of new banks if none is, and the words after it.
fn split_form(words: &str) -> (Form, &str) {
    match words.strip_prefix("one ") {
        Some(rest) => (Form::One, rest),
        None => (BANK_FORM, words),
    }
}

// Writes how many bytes the deeds of these messages will spell, or that one has no spelling in the
// form.
fn tell_size<B: Bag>(
    alloc: Global,
    store: &Store<B>,
    words: &str,
    came: &mut String,
) -> Result<(), WordsFault> {
    let (form, words) = split_form(words);
    let messages = batch(alloc, words)?;
    match store.size_of(form, &messages) {
        Some(bytes) => tell_two(came, bytes, "bytes"),
        None => tell(came, "no spelling"),
    }
}

/// Appends a line for a deed, as `> put 7 1 ("a", 3)`, `> take 7 1 1`, `> pass 7 1 1` or `> leave 7
/// 1`.
pub(crate) fn tell_deed(alloc: Global, came: &mut String, deed: &Deed) -> Result<(), AllocError> {
    match deed {
        Deed::Out { client, n, tuple } => {
            tell_act(came, "put", *client, *n, write_tuple(alloc, tuple)?)
        }
        Deed::Take { client, n, id } => tell_act(came, "take", *client, *n, *id),
        Deed::Pass { client, n, id } => tell_act(came, "pass", *client, *n, *id),
        Deed::Leave { client, n } => writeln!(came, "> leave {client} {n}"),
    }
}

// Appends a line for what a client did, by which number, to what.
fn tell_act<T: Display + Drop>(
    came: &mut String,
    verb: &str,
    client: u32,
    n: u64,
    what: T,
) -> Result<(), AllocError> {
    writeln!(came, "> {verb} {client} {n} {what}")
}

// Appends what the store has, if these words ask.
fn show<B: Bag>(
    alloc: Global,
    store: &Store<B>,
    what: &str,
    which: &str,
    came: &mut String,
) -> Result<(), WordsFault> {
    match what {
        "tuple" => {
            tell_held_tuple(
                alloc,
                store.state(),
                store.holds(),
                read_number(which)?,
                came,
            )
        }
        "waiting" => tell_two(came, "waiting", store.waits().len()),
        "clients" => tell_two(came, "clients", store.state().book.len()),
        "next" => tell_two(came, "next", store.state().next),
        _ => Err(WordsFault::Unknown),
    }
}

/// Writes the tuple that a state keeps under an id, and for whom it is held.
pub(crate) fn tell_held_tuple<B: Bag>(
    alloc: Global,
    state: &State<B>,
    holds: &Holds,
    id: u64,
    came: &mut String,
) -> Result<(), WordsFault> {
    let held = holds.get(id).map(|r| (r.client, r.ticket));
    done(tell_tuple(alloc, came, id, state.bag.get(id), held))
}
