//! JSON of the heads: how two files begin, which bank is in use, and how much it has.

ghost use Rattle.std.specs.Prelude.{◌≡◌, ◌++◌, ◌&&◌, OnOk};
ghost use Rattle.linda_inspect.specs.Json.{IsPushed};
ghost use Rattle.linda_inspect.specs.Object as object;
ghost use Rattle.linda_inspect.specs.Object.{json_bank, json_bank_made, json_bank_sizes, json_file};
ghost use Rattle.linda_inspect.specs.Object.{json_files, json_form, json_heading, json_made};
ghost use Rattle.linda_inspect.specs.Object.{json_side, json_sizes, json_standing, json_why};

use super::value::push_member;
use linda_journal::Heading;
use linda_tuple::Form;
use std::alloc::AllocError;

const ONE: &[u8] = b"\"form\":\"LND1\"";

const TWO: &[u8] = b"\"form\":\"LND2\"";

const LEFT: &[u8] = b"\"left\"";

const RIGHT: &[u8] = b"\"right\"";

const GREATER: &[u8] = b"\"the greater generation\"";

const ONLY: &[u8] = b"\"the only bank\"";

/// Appends what two files of so many bytes begin with.
///
/// # Errors
///
/// `AllocError` if memory runs out; a part of it may then be there. The same holds for all
/// functions below.
pub(super) fn push_files(
    out: &mut Vec<u8>,
    left: Heading,
    bytes: usize,
    right: Heading,
    more: usize,
) -> Result<(), AllocError>
    ensures { OnOk result (IsPushed out.old out.new (json_files left bytes right more)) }
{
    out.extend_from_slice(b"{\n\"left\":")?;
    push_file(out, left, bytes)?;
    out.extend_from_slice(b",\n\"right\":")?;
    push_file(out, right, more)
}

// What a file of so many bytes begins with, and that number.
fn push_file(out: &mut Vec<u8>, heading: Heading, bytes: usize) -> Result<(), AllocError>
    ensures { OnOk result (IsPushed out.old out.new (json_file heading bytes)) }
{
    push_heading(out, heading, bytes)?;
    push_member(out, b",\"bytes\":", bytes as u64)?;
    out.extend_from_slice(b"}")
}

fn push_heading(out: &mut Vec<u8>, heading: Heading, bytes: usize) -> Result<(), AllocError>
    ensures { OnOk result (IsPushed out.old out.new (json_heading heading bytes)) }
{
    match heading {
        Heading::Bank { form, generation } => {
            out.extend_from_slice(b"{\"is\":\"bank\",")?;
            push_made(out, form, generation)
        }
        Heading::Foreign => out.extend_from_slice(b"{\"is\":\"foreign\""),
        Heading::NoBank => push_no_bank(out, bytes),
    }
}

fn push_no_bank(out: &mut Vec<u8>, bytes: usize) -> Result<(), AllocError>
    ensures { OnOk result (IsPushed out.old out.new (json_heading Heading.NoBank bytes)) }
{
    if bytes == 0 {
        return out.extend_from_slice(b"{\"is\":\"empty\"");
    }
    out.extend_from_slice(b"{\"is\":\"closed\"")
}

// The form and the generation of a bank.
fn push_made(out: &mut Vec<u8>, form: Form, generation: u64) -> Result<(), AllocError>
    ensures { OnOk result (IsPushed out.old out.new (json_made form generation)) }
{
    out.extend_from_slice(letters(form))?;
    push_member(out, b",\"generation\":", generation)
}

fn letters(form: Form) -> &'static [u8]
    ensures { result.now ≡ json_form form }
{
    match form {
        Form::One => ONE,
        Form::Two => TWO,
    }
}

/// Appends which bank is in use, the right one or the left one, and whether it is one of two or the
/// only one.
pub(super) fn push_standing(
    out: &mut Vec<u8>,
    is_right: bool,
    are_two: bool,
) -> Result<(), AllocError>
    ensures { OnOk result (IsPushed out.old out.new (json_standing is_right are_two)) }
{
    push_named(out, b",\n\"stands\":", side(is_right))?;
    push_named(out, b",\n\"why\":", why(are_two))?;
    Ok(())
}

// A name, as it is, and a text.
fn push_named(out: &mut Vec<u8>, name: &[u8], text: &[u8]) -> Result<(), AllocError>
    ensures { OnOk result (IsPushed out.old out.new (name.now ++ text.now)) }
{
    out.extend_from_slice(name)?;
    out.extend_from_slice(text)
}

/// The name of a side.
pub(super) fn side(is_right: bool) -> &'static [u8]
    ensures { result.now ≡ json_side is_right }
{
    if is_right { RIGHT } else { LEFT }
}

fn why(are_two: bool) -> &'static [u8]
    ensures { result.now ≡ json_why are_two }
{
    if are_two { GREATER } else { ONLY }
}

/// Whether a bank begins so in each of two files.
pub(super) fn are_banks(left: Heading, right: Heading) -> bool
    ensures { result ≡ (object.is_bank left && object.is_bank right) }
{
    is_bank(left) && is_bank(right)
}

fn is_bank(heading: Heading) -> bool
    ensures { result ≡ object.is_bank heading }
{
    match heading {
        Heading::Bank { .. } => true,
        Heading::Foreign => false,
        Heading::NoBank => false,
    }
}

/// Appends the form and the generation of a bank, how many records it has, its bytes, and the most
/// that it may have.
pub(super) fn push_bank(
    out: &mut Vec<u8>,
    form: Form,
    generation: u64,
    records: usize,
    used: usize,
    limit: usize,
) -> Result<(), AllocError>
    ensures { OnOk result (IsPushed out.old out.new
        (json_bank form generation records used limit)) }
{
    push_bank_made(out, form, generation)?;
    push_bank_sizes(out, records, used, limit)?;
    Ok(())
}

fn push_bank_made(out: &mut Vec<u8>, form: Form, generation: u64) -> Result<(), AllocError>
    ensures { OnOk result (IsPushed out.old out.new (json_bank_made form generation)) }
{
    out.extend_from_slice(b",\n\"bank\":{")?;
    push_made(out, form, generation)
}

fn push_bank_sizes(
    out: &mut Vec<u8>,
    records: usize,
    used: usize,
    limit: usize,
) -> Result<(), AllocError>
    ensures { OnOk result (IsPushed out.old out.new (json_bank_sizes records used limit)) }
{
    push_sizes(out, records, used, limit)?;
    out.extend_from_slice(b"}")
}

fn push_sizes(
    out: &mut Vec<u8>,
    records: usize,
    used: usize,
    limit: usize,
) -> Result<(), AllocError>
    ensures { OnOk result (IsPushed out.old out.new (json_sizes records used limit)) }
{
    push_member(out, b",\"records\":", records as u64)?;
    push_member(out, b",\"used\":", used as u64)?;
    push_member(out, b",\"limit\":", limit as u64)?;
    Ok(())
}
