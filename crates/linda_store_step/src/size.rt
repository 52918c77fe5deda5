//! Needs of the deeds that messages will do: how many they are, how many bytes of a form they take,
//! and whether each has a spelling there, known without doing them.
//!
//! Whether a message does a deed follows only from numbers, and from whether its client left: the
//! last number of its client, how many clients are kept, and the next id. So these are counted on
//! from message to message.

ghost use Rattle.std.specs.Prelude.{◌≡◌, ◌≤◌, ◌<◌, ◌%◌, ◌∷◌, [], length, IfSome, IfNone};
ghost use Rattle.linda_store_state.specs.declared.limits.TheConstants.{MAX_DEED_BYTES};
ghost use Rattle.linda_store_state.specs.State.{IsState};
ghost use Rattle.linda_store_step.specs.Judge.{demand_of};
ghost use Rattle.linda_store_step.specs.Size as spec;
ghost use Rattle.linda_store_step.specs.Size.{bytes_from, count_from, numbers_of, AllSuit, Suits};
ghost use Rattle.linda_store_step.specs.Size.{AreMarked};

use crate::judge::{self, Demand, Standing, Verdict};
use linda_bag::Bag;
use linda_store_state::{HEAD_BYTES, ID_BYTES, State, has_leaves, tuple_len};
use linda_tuple::{Form, fits};
use linda_wire::Message;

/// How many messages one call of a node takes at most: as many as there may be deeds of one record.
pub const MAX_BATCH: usize = linda_store_state::MAX_DEEDS;

/// How many messages are served together at most, those of many clients, whose deeds may take
/// several records.
pub const MAX_GROUP: usize = 1024;

// Up to so many messages, the room for the last numbers of their clients is small.
const FEW: usize = 64;

// How many places there are for marks of clients that did a deed: for so few messages, and for
// more.
const FEW_PLACES: usize = 512;

const PLACES: usize = 4096;

/// What deeds need on a bank.
#[derive(Clone, Copy, Debug, PartialEq, Eq)]
pub struct Need {
    /// How many deeds there are.
    pub deeds: usize,
    /// How many bytes they spell in the form of the bank.
    pub bytes: usize,
}

/// What the deeds of the messages need in the form, each of its client, one after another; `None`
/// if one of them has no spelling there.
pub(crate) fn need_of<B: Bag>(
    form: Form,
    state: &State<B>,
    messages: &[(u32, Message)],
) -> Option<Need>
    requires ranges { IsState state.now }
    requires few { length messages.now ≤ MAX_GROUP }
    ensures bytes { IfSome result (λ need.
        need.bytes ≡ bytes_from form (numbers_of state.now) messages.now) }
    ensures deeds { IfSome result (λ need.
        need.deeds ≡ count_from (numbers_of state.now) messages.now) }
    ensures few { IfSome result (λ need. need.deeds ≤ MAX_GROUP) }
    ensures suit { IfSome result (λ need. AllSuit form (numbers_of state.now) messages.now) }
    ensures none { IfNone result (AllSuit form (numbers_of state.now) messages.now → ⊥) }
{
    if messages.len() <= FEW {
        return need_within(
            form,
            state,
            messages,
            &mut [(0, (0, false)); FEW],
            &mut [false; FEW_PLACES],
        );
    }
    need_within(
        form,
        state,
        messages,
        &mut [(0, (0, false)); MAX_GROUP],
        &mut [false; PLACES],
    )
}

// The same. The last number of each client so far is kept in `lasts`, and in `met` a mark for each
// client that did a deed.
fn need_within<B: Bag>(
    form: Form,
    state: &State<B>,
    messages: &[(u32, Message)],
    lasts: &mut [(u32, (u64, bool))],
    met: &mut [bool],
) -> Option<Need>
    requires ranges { IsState state.now }
    requires few { length messages.now ≤ MAX_GROUP }
    requires room { length messages.now ≤ length lasts.old }
    requires places { 0 < length met.old }
    ensures bytes { IfSome result (λ need.
        need.bytes ≡ bytes_from form (numbers_of state.now) messages.now) }
    ensures deeds { IfSome result (λ need.
        need.deeds ≡ count_from (numbers_of state.now) messages.now) }
    ensures few { IfSome result (λ need. need.deeds ≤ MAX_GROUP) }
    ensures suit { IfSome result (λ need. AllSuit form (numbers_of state.now) messages.now) }
    ensures none { IfNone result (AllSuit form (numbers_of state.now) messages.now → ⊥) }
{
    let mut count = 0;
    let mut clients = state.book.len();
    let mut next = state.next;
    let mut bytes = 0;
    for (client, message) in messages {
        let (last, left) = latest(met, &lasts[..count], *client, state.book.standing(*client));
        let at = Standing {
            last,
            left,
            clients,
            next,
        };
        let Some(done) = done_of(message, at) else {
            continue;
        };
        let size = deed_bytes(form, message)?;
        lasts[count] = (*client, (done.n, done.leaves()));
        met[place_of(*client, met.len())] = true;
        count += 1;
        clients += usize::from(last == 0);
        next += u64::from(done.puts());
        bytes += size;
    }
    Some(Need {
        deeds: count,
        bytes,
    })
}

/// What the deed of the client's message needs in the form, nothing if it does none; `None` if it
/// has no spelling there.
pub(crate) fn need_of_one<B: Bag>(
    form: Form,
    state: &State<B>,
    client: u32,
    message: &Message,
) -> Option<Need>
    ensures bytes { IfSome result (λ need.
        need.bytes ≡ bytes_from form (numbers_of state.now) ((client, message.now) ∷ [])) }
    ensures deeds { IfSome result (λ need.
        need.deeds ≡ count_from (numbers_of state.now) ((client, message.now) ∷ [])) }
    ensures few { IfSome result (λ need. need.deeds ≤ MAX_GROUP) }
    ensures suit { IfSome result (λ need.
        AllSuit form (numbers_of state.now) ((client, message.now) ∷ [])) }
    ensures none { IfNone result (AllSuit form (numbers_of state.now) ((client, message.now) ∷ [])
        → ⊥) }
{
    match done_of(message, Standing::of(state, client)) {
        Some(_) => match deed_bytes(form, message) {
            Some(bytes) => Some(Need { deeds: 1, bytes }),
            None => None,
        },
        None => Some(Need { deeds: 0, bytes: 0 }),
    }
}

// What is done of the message, if its client has this standing.
fn done_of(message: &Message, at: Standing) -> Option<Demand>
    ensures { result ≡ spec.done_by (demand_of message.now) at }
{
    let demand = judge::demand_of(message)?;
    match judge::judge(demand, at) {
        Verdict::Done => Some(demand),
        Verdict::Refused(_) | Verdict::Repeated => None,
    }
}

// How many bytes the deed of the message spells in the form, if it does one; `None` if the deed has
// no spelling there.
fn deed_bytes(form: Form, message: &Message) -> Option<usize>
    ensures exact { IfSome result (λ bytes. bytes ≡ spec.deed_bytes form message.now) }
    ensures short { IfSome result (λ bytes. bytes ≤ MAX_DEED_BYTES) }
    ensures suits { IfSome result (λ bytes. Suits form message.now) }
    ensures none { IfNone result (Suits form message.now → ⊥) }
{
    match message {
        Message::Out { tuple, .. } => {
            if !fits(form, tuple) {
                return None;
            }
            Some(HEAD_BYTES + tuple_len(form, tuple))
        }
        Message::Leave { .. } => {
            if !has_leaves(form) {
                return None;
            }
            Some(HEAD_BYTES)
        }
        _ => Some(HEAD_BYTES + ID_BYTES),
    }
}

// The last number of the client after these entries, each a client with its number and whether it
// left; `last` if no entry is the client's. The entries are searched only if the client's place is
// marked, so a large group takes no more time for each client than a small one.
fn latest(met: &[bool], lasts: &[(u32, (u64, bool))], client: u32, last: (u64, bool)) -> (u64, bool)
    requires places { 0 < length met.now }
    requires marked { AreMarked met.now lasts.now }
    ensures { result ≡ spec.last_behind lasts.now client last }
{
    if met[place_of(client, met.len())] {
        return last_behind(lasts, client, last);
    }
    last
}

// The client's place among so many. (By a number that is known here no division is needed.)
fn place_of(client: u32, places: usize) -> usize
    requires { 0 < places }
    ensures exact { result ≡ client % places }
    ensures within { result < places }
{
    if places == FEW_PLACES {
        return client as usize % FEW_PLACES;
    }
    client as usize % places
}

// The same, found from the end.
fn last_behind(lasts: &[(u32, (u64, bool))], client: u32, last: (u64, bool)) -> (u64, bool)
    ensures { result ≡ spec.last_behind lasts.now client last }
{
    match lasts {
        [] => last,
        [before @ .., (other, latest)] => {
            if *other == client {
                return *latest;
            }
            last_behind(before, client, last)
        }
    }
}
