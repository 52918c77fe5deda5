//! The entries of a snapshot: a tuple with its id, and a client with its last number and the reply
//! to it. They are read in either form, and written in that of new banks.

ghost use Rattle.std.specs.Prelude.{◌≡◌, ◌++◌, ◌≤◌, ◌+◌, length, OnOk};
ghost use Rattle.linda_codec.specs.declared.limits.TheConstants.{NUMBER_BYTES};
ghost use Rattle.linda_codec.specs.Steps.{Gives};
ghost use Rattle.linda_store_state.specs.DeedFormat.{written};
ghost use Rattle.linda_snap.specs.declared.entry.TheConstants.{CLIENT_BYTES, MAX_KEPT_BYTES};
ghost use Rattle.linda_snap.specs.declared.entry.TheConstants.{MAX_PLACED_BYTES};
ghost use Rattle.linda_snap.specs.Snapshot as format;

use linda_book::KeptReply;
use linda_codec::{
    KIND_BYTES, MAX_TUPLE_BYTES, NUMBER_BYTES, ReadFault, SHORT_NUMBER_BYTES, Spelled, read_u32,
    read_u64,
};
use linda_store_state::BANK_FORM;
use linda_tuple::{Form, Tuple};
use std::alloc::{AllocError, Global};

/// The bytes of a client and its number.
const CLIENT_BYTES: usize = SHORT_NUMBER_BYTES + NUMBER_BYTES;

/// The most bytes that an id and a tuple spell.
const MAX_PLACED_BYTES: usize = NUMBER_BYTES + MAX_TUPLE_BYTES;

/// The most bytes that a client with what is kept for it spells: its number, a kind, and an id and
/// a tuple. No entry of a snapshot has more.
pub const MAX_KEPT_BYTES: usize = CLIENT_BYTES + KIND_BYTES + MAX_PLACED_BYTES;

/// Reads an id and a tuple, and returns them with the bytes after them.
///
/// # Errors
///
/// The first fault from the left, given by the count of bytes left; `Memory` if there is none for
/// the tuple.
pub(crate) fn read_placed(
    alloc: Global,
    form: Form,
    bytes: &[u8],
) -> Result<(u64, Tuple, &[u8]), ReadFault>
    ensures { Gives (λ x. ((x.0, x.1), x.2.now)) result ((format.placed form).read bytes.now) }
{
    let (id, rest) = read_u64(bytes)?;
    let (tuple, rest) = Tuple::read(alloc, form, rest)?;
    Ok((id, tuple, rest))
}

/// Reads a client, its last number, and the reply to it; likewise.
pub(crate) fn read_kept(
    alloc: Global,
    form: Form,
    bytes: &[u8],
) -> Result<(u32, (u64, KeptReply), &[u8]), ReadFault>
    ensures { Gives (λ x. ((x.0, x.1), x.2.now)) result ((format.kept form).read bytes.now) }
{
    let (client, rest) = read_u32(bytes)?;
    let (n, rest) = read_u64(rest)?;
    let (reply, rest) = KeptReply::read(alloc, form, rest)?;
    Ok((client, (n, reply), rest))
}

/// Appends the spelling of an id and a tuple. If memory runs out, a part of it may follow the old
/// bytes.
pub(crate) fn push_placed(out: &mut Vec<u8>, id: u64, tuple: &Tuple) -> Result<(), AllocError>
    ensures ok { OnOk result (out.new.items
        ≡ out.old.items ++ (format.placed written).spell (id, tuple.now)) }
    ensures fits { OnOk result ((format.placed written).Fits (id, tuple.now)) }
    ensures short { OnOk result (length out.new.items ≤ length out.old.items + MAX_PLACED_BYTES) }
{
    // Every tuple has a spelling in the form of new banks, and says so when its fields are asked
    // for.
    let _fields = tuple.fields();
    out.extend_from_slice(&id.to_be_bytes())?;
    tuple.push(BANK_FORM, out)?;
    Ok(())
}

/// Appends the spelling of a client, its last number, and the reply to it; likewise.
pub(crate) fn push_kept(
    out: &mut Vec<u8>,
    client: u32,
    n: u64,
    reply: &KeptReply,
) -> Result<(), AllocError>
    ensures ok { OnOk result (out.new.items
        ≡ out.old.items ++ (format.kept written).spell (client, (n, reply.now))) }
    ensures fits { OnOk result ((format.kept written).Fits (client, (n, reply.now))) }
    ensures short { OnOk result (length out.new.items ≤ length out.old.items + MAX_KEPT_BYTES) }
{
    out.extend_from_slice(&client.to_be_bytes())?;
    out.extend_from_slice(&n.to_be_bytes())?;
    push_reply(out, reply)?;
    Ok(())
}

// Appends the spelling of the kept reply; likewise.
fn push_reply(out: &mut Vec<u8>, reply: &KeptReply) -> Result<(), AllocError>
    ensures ok { OnOk result (out.new.items
        ≡ out.old.items ++ (format.reply written).spell reply.now) }
    ensures fits { (format.reply written).Fits reply.now }
{
    // Every reply has a spelling in the form of new banks, too.
    let _fits = reply.fits(BANK_FORM);
    reply.push(BANK_FORM, out)
}

/// How many bytes a client, its last number, and the reply to it spell.
pub(crate) fn kept_len(reply: &KeptReply) -> usize
    ensures exact { result ≡ CLIENT_BYTES + length ((format.reply written).spell reply.now) }
    ensures short { result ≤ MAX_KEPT_BYTES }
{
    CLIENT_BYTES + reply.len(BANK_FORM)
}
