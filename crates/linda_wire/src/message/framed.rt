//! A message in a frame: read, passed over and written.

ghost use Rattle.std.specs.Prelude.{◌≡◌, ◌++◌, length, take, OnOk};
ghost use Rattle.linda_tuple.specs.Tuple.{FitsIn};
ghost use Rattle.linda_tuple.specs.Template.{FitsTemplateIn};
ghost use Rattle.linda_codec.specs.Steps.{Gives, GivesAlways, left_by};
ghost use Rattle.linda_codec.specs.Formats.{made_at, number};
ghost use Rattle.linda_wire.specs.Frames as format;
ghost use Rattle.linda_wire.specs.Frames.{spoken};
ghost use Rattle.linda_wire.specs.declared.message.Message.TheVariants.{Hello, Out, Ask, Accept};
ghost use Rattle.linda_wire.specs.declared.message.Message.TheVariants.{Cancel, Leave};

use crate::framed::{FramePayload, push_numbered, push_placed, push_template, push_tuple, rest_of};
use crate::kinds::{ACCEPT, ASK, CANCEL, HELLO, LEAVE, OUT};
use crate::limits::FORM;
use crate::message::Message;
use linda_codec::{
    KIND_BYTES, ReadFault, read_bool, read_template, read_tuple, read_u8, read_u32, read_u64,
    skip_template, skip_tuple,
};
use linda_tuple::{Template, Tuple};
use std::alloc::{AllocError, Global};

impl FramePayload for Message {
    ghost use Rattle.linda_wire.specs.FrameLaws.{message_is, message_size};
    ghost use Rattle.linda_wire.specs.Frames.{message};

    ghost format = { message };

    ghost framed = { record { lawful = message_is; sized = message_size } };

    fn read(alloc: Global, payload: &[u8]) -> Result<(Message, &[u8]), ReadFault> {
        match payload {
            [] => Err(ReadFault::Short),
            [kind, body @ ..] => read_body(alloc, *kind, body),
        }
    }

    fn skip(payload: &[u8]) -> Result<&[u8], ReadFault> {
        match payload {
            [] => Err(ReadFault::Short),
            [kind, body @ ..] => skip_body(*kind, body),
        }
    }

    fn push(&self, out: &mut Vec<u8>) -> Result<(), AllocError> {
        match self {
            Message::Hello {
                version,
                client,
                fresh,
            } => push_hello(out, *version, *client, *fresh),
            Message::Out { n, tuple } => push_out(out, *n, tuple),
            Message::Ask {
                ticket,
                remove,
                template,
            } => push_ask(out, *ticket, *remove, template),
            Message::Accept { n, ticket, id } => push_accept(out, *n, *ticket, *id),
            Message::Cancel { ticket } => push_numbered(out, CANCEL, *ticket),
            Message::Leave { n } => push_numbered(out, LEAVE, *n),
        }
    }
}

// Reads a message of that kind, of which the kind is read and the body is at the front.
fn read_body(alloc: Global, kind: u8, body: &[u8]) -> Result<(Message, &[u8]), ReadFault>
    ensures { Gives (λ x. (x.0, x.1.now)) result (format.message_body_at kind body.now) }
{
    match kind {
        HELLO => hello_from(body),
        OUT => out_from(alloc, body),
        ASK => ask_from(alloc, body),
        ACCEPT => accept_from(body),
        CANCEL => cancel_from(body),
        LEAVE => leave_from(body),
        _ => Err(ReadFault::BadKind(KIND_BYTES + body.len())),
    }
}

// The bytes after a message of that kind, of which the kind is read and the body is at the front.
fn skip_body(kind: u8, body: &[u8]) -> Result<&[u8], ReadFault>
    ensures { GivesAlways (λ rest. rest.now) result
        (left_by (format.message_body_at kind body.now)) }
{
    match kind {
        HELLO => rest_of(hello_from(body)),
        OUT => skip_out(body),
        ASK => skip_ask(body),
        ACCEPT => rest_of(accept_from(body)),
        CANCEL => rest_of(cancel_from(body)),
        LEAVE => rest_of(leave_from(body)),
        _ => Err(ReadFault::BadKind(KIND_BYTES + body.len())),
    }
}

fn push_hello(out: &mut Vec<u8>, version: u8, client: u32, fresh: bool) -> Result<(), AllocError>
    ensures ok { OnOk result (out.new.items
        ≡ out.old.items ++ format.spell_message (Hello version client fresh)) }
    ensures front { take (length out.old.items) out.new.items ≡ out.old.items }
{
    out.push(HELLO)?;
    out.push(version)?;
    out.extend_from_slice(&client.to_be_bytes())?;
    Ok(out.push(u8::from(fresh))?)
}

fn push_out(out: &mut Vec<u8>, n: u64, tuple: &Tuple) -> Result<(), AllocError>
    ensures ok { OnOk result (out.new.items
        ≡ out.old.items ++ format.spell_message (Out n tuple.now)) }
    ensures front { take (length out.old.items) out.new.items ≡ out.old.items }
    ensures within { OnOk result (FitsIn spoken tuple.now) }
{
    push_numbered(out, OUT, n)?;
    push_tuple(out, tuple)
}

fn push_ask(
    out: &mut Vec<u8>,
    ticket: u64,
    remove: bool,
    template: &Template,
) -> Result<(), AllocError>
    ensures ok { OnOk result (out.new.items
        ≡ out.old.items ++ format.spell_message (Ask ticket remove template.now)) }
    ensures front { take (length out.old.items) out.new.items ≡ out.old.items }
    ensures within { OnOk result (FitsTemplateIn spoken template.now) }
{
    push_numbered(out, ASK, ticket)?;
    out.push(u8::from(remove))?;
    push_template(out, template)
}

fn push_accept(out: &mut Vec<u8>, n: u64, ticket: u64, id: u64) -> Result<(), AllocError>
    ensures ok { OnOk result (out.new.items
        ≡ out.old.items ++ format.spell_message (Accept n ticket id)) }
    ensures front { take (length out.old.items) out.new.items ≡ out.old.items }
{
    push_placed(out, ACCEPT, n, ticket)?;
    out.extend_from_slice(&id.to_be_bytes())
}

fn hello_from(body: &[u8]) -> Result<(Message, &[u8]), ReadFault>
    ensures { GivesAlways (λ x. (x.0, x.1.now)) result
        (made_at (format.of_three Hello) format.hello body.now) }
{
    let (version, rest) = read_u8(body)?;
    let (client, rest) = read_u32(rest)?;
    let (fresh, rest) = read_bool(rest)?;
    let hello = Message::Hello {
        version,
        client,
        fresh,
    };
    Ok((hello, rest))
}

fn out_from(alloc: Global, body: &[u8]) -> Result<(Message, &[u8]), ReadFault>
    ensures { Gives (λ x. (x.0, x.1.now)) result (made_at (format.of_two Out) format.out body.now) }
{
    let (n, rest) = read_u64(body)?;
    let (tuple, rest) = read_tuple(alloc, FORM, rest)?;
    Ok((Message::Out { n, tuple }, rest))
}

fn skip_out(body: &[u8]) -> Result<&[u8], ReadFault>
    ensures { GivesAlways (λ rest. rest.now) result
        (left_by (made_at (format.of_two Out) format.out body.now)) }
{
    let (_n, rest) = read_u64(body)?;
    skip_tuple(FORM, rest)
}

fn ask_from(alloc: Global, body: &[u8]) -> Result<(Message, &[u8]), ReadFault>
    ensures { Gives (λ x. (x.0, x.1.now)) result
        (made_at (format.of_three Ask) format.ask body.now) }
{
    let (ticket, rest) = read_u64(body)?;
    let (remove, rest) = read_bool(rest)?;
    let (template, rest) = read_template(alloc, FORM, rest)?;
    let ask = Message::Ask {
        ticket,
        remove,
        template,
    };
    Ok((ask, rest))
}

fn skip_ask(body: &[u8]) -> Result<&[u8], ReadFault>
    ensures { GivesAlways (λ rest. rest.now) result
        (left_by (made_at (format.of_three Ask) format.ask body.now)) }
{
    let (_ticket, rest) = read_u64(body)?;
    let (_remove, rest) = read_bool(rest)?;
    skip_template(FORM, rest)
}

fn accept_from(body: &[u8]) -> Result<(Message, &[u8]), ReadFault>
    ensures { GivesAlways (λ x. (x.0, x.1.now)) result
        (made_at (format.of_three Accept) format.accept body.now) }
{
    let (n, rest) = read_u64(body)?;
    let (ticket, rest) = read_u64(rest)?;
    let (id, rest) = read_u64(rest)?;
    Ok((Message::Accept { n, ticket, id }, rest))
}

fn cancel_from(body: &[u8]) -> Result<(Message, &[u8]), ReadFault>
    ensures { GivesAlways (λ x. (x.0, x.1.now)) result (made_at Cancel number body.now) }
{
    let (ticket, rest) = read_u64(body)?;
    Ok((Message::Cancel { ticket }, rest))
}

fn leave_from(body: &[u8]) -> Result<(Message, &[u8]), ReadFault>
    ensures { GivesAlways (λ x. (x.0, x.1.now)) result (made_at Leave number body.now) }
{
    let (n, rest) = read_u64(body)?;
    Ok((Message::Leave { n }, rest))
}
