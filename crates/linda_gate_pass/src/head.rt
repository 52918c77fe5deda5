//! The head that HAProxy sends ahead of what a client sends.

ghost use Rattle.std.specs.Prelude.{◌≡◌, ◌≤◌, IfSome, length};
ghost use Rattle.std.specs.Option.{option_copied};
ghost use Rattle.linda_gate_pass.specs.declared.head.TheConstants as c;
ghost use Rattle.linda_gate_pass.specs.Head as spec;
ghost use Rattle.linda_gate_pass.specs.Head.{IsNumber, Names, Heads};

use crate::client_numbers::ClientNumbers;

/// How many bytes a head has before its addresses.
const HEAD_BYTES: usize = 16;

/// What each head begins with.
const SIGNATURE: [u8; 12] = [
    0x0d, 0x0a, 0x0d, 0x0a, 0x00, 0x0d, 0x0a, 0x51, 0x55, 0x49, 0x54, 0x0a,
];

/// Version 2, and that the connection is one of a client.
const PROXY: u8 = 0x21;

/// The client's connection is TCP over IPv4.
const TCP4: u8 = 0x11;

/// How long both addresses and ports are then.
const TCP4_BYTES: usize = 12;

/// The client's connection is TCP over IPv6.
const TCP6: u8 = 0x21;

/// How long both addresses and ports are then.
const TCP6_BYTES: usize = 36;

/// How many fields are looked at.
const FIELDS: u32 = 64;

/// The kind of the field that says what is known of TLS.
const TLS: u8 = 0x20;

/// The kind of the field in it that is the name of the certificate.
const NAME: u8 = 0x22;

/// The client showed a certificate when the session began that this connection goes on with.
const SHOWN: u8 = 5;

/// The client showed a certificate in this connection.
const SHOWN_NOW: u8 = 7;

/// What bytes that came begin with.
#[derive(Clone, Copy, Debug, PartialEq, Eq)]
pub enum ProxyHead {
    /// A part of a head, so far.
    Short,
    /// A head of so many bytes, of a client that is allowed these numbers.
    Allows(ClientNumbers, usize),
    /// No head of a client with a certificate that was verified and has numbers for a name.
    Refused,
}

/// What the bytes begin with.
pub fn read_head(bytes: &[u8]) -> ProxyHead
    ensures { Heads bytes.now result }
{
    if bytes.len() < HEAD_BYTES {
        return ProxyHead::Short;
    }
    if !is_of_client(bytes) {
        return ProxyHead::Refused;
    }
    let Some(addresses) = addresses_of(bytes[13]) else {
        return ProxyHead::Refused;
    };
    let len = head_len(bytes);
    if bytes.len() < len {
        return ProxyHead::Short;
    }
    if len < HEAD_BYTES + addresses {
        return ProxyHead::Refused;
    }
    let Some(name) = certificate(&bytes[HEAD_BYTES + addresses..len]) else {
        return ProxyHead::Refused;
    };
    match numbers_of(name) {
        Some(numbers) => ProxyHead::Allows(numbers, len),
        None => ProxyHead::Refused,
    }
}

// Whether it begins as the head of a client's connection.
fn is_of_client(bytes: &[u8]) -> bool
    requires { c.HEAD_BYTES ≤ length bytes.now }
    ensures { result ≡ spec.is_of_client bytes.now }
{
    bytes.starts_with(&SIGNATURE) && bytes[12] == PROXY
}

// How long the head is.
fn head_len(bytes: &[u8]) -> usize
    requires { c.HEAD_BYTES ≤ length bytes.now }
    ensures { result ≡ spec.head_len bytes.now }
{
    HEAD_BYTES + two(bytes[14], bytes[15])
}

// How long both addresses are.
fn addresses_of(family: u8) -> Option<usize>
    ensures is { result ≡ spec.addresses_of family }
    ensures few { IfSome result (λ n. n ≤ 36) }
{
    if family == TCP4 {
        return Some(TCP4_BYTES);
    }
    if family == TCP6 {
        return Some(TCP6_BYTES);
    }
    None
}

// The name of a verified certificate in the fields of a head.
fn certificate(fields: &[u8]) -> Option<&[u8]>
    ensures { option_copied result ≡ spec.certificate fields.now }
{
    match field(FIELDS, TLS, fields) {
        Some(tls) => name_in(tls),
        None => None,
    }
}

// The name in what is known of TLS.
fn name_in(tls: &[u8]) -> Option<&[u8]>
    ensures { option_copied result ≡ spec.name_in tls.now }
{
    if tls.len() < 5 {
        return None;
    }
    if is_verified(tls) {
        return field(FIELDS, NAME, &tls[5..]);
    }
    None
}

// Whether the client showed a certificate, and it was verified.
fn is_verified(tls: &[u8]) -> bool
    requires { 5 ≤ length tls.now }
    ensures { result ≡ spec.is_verified tls.now }
{
    (tls[0] == SHOWN || tls[0] == SHOWN_NOW)
        && tls[1] == 0
        && tls[2] == 0
        && tls[3] == 0
        && tls[4] == 0
}

// The value of the first field of this kind, of so many fields at most.
#[tactic(auto, using(crate::proofs::HeadLaws::field_short, crate::proofs::HeadLaws::field_found))]
fn field(count: u32, wanted: u8, bytes: &[u8]) -> Option<&[u8]>
    ensures { option_copied result ≡ spec.field count wanted bytes.now }
{
    if count == 0 {
        return None;
    }
    if bytes.len() < 3 {
        return None;
    }
    let end = 3 + two(bytes[1], bytes[2]);
    if bytes.len() < end {
        return None;
    }
    if bytes[0] == wanted {
        return Some(&bytes[3..end]);
    }
    field(count - 1, wanted, &bytes[end..])
}

// The number that two bytes are.
fn two(high: u8, low: u8) -> usize
    ensures is { result ≡ spec.two high low }
    ensures short { result ≤ 65535 }
{
    usize::from(high) * 256 + usize::from(low)
}

// The numbers that a name says.
fn numbers_of(name: &[u8]) -> Option<ClientNumbers>
    ensures { IfSome result (λ numbers. Names name.now numbers) }
{
    let Ok(name) = str::from_utf8(name) else {
        return None;
    };
    match name.split_once('-') {
        Some((first, last)) => {
            let low = number(first)?;
            let high = number(last)?;
            if low <= high {
                return Some(ClientNumbers { low, high });
            }
            None
        }
        None => {
            let client = number(name)?;
            Some(ClientNumbers {
                low: client,
                high: client,
            })
        }
    }
}

// The number that the digits are.
fn number(digits: &str) -> Option<u32>
    ensures { IfSome result (λ n. IsNumber digits.now n) }
{
    if !begins_number(digits.as_bytes()) {
        return None;
    }
    match digits.parse::<u32>() {
        Ok(number) => Some(number),
        Err(_) => None,
    }
}

// Whether a number may begin so.
fn begins_number(bytes: &[u8]) -> bool
    ensures { result ≡ spec.begins_number bytes.now }
{
    match bytes {
        [] => false,
        [_] => true,
        [first, ..] => *first > 48,
    }
}
