//! Query after the path of a list: which part of the list is asked for.

ghost use Rattle.std.specs.Prelude.{◌≤◌, IfSome};

use form_urlencoded::parse;
use linda_tuple::{Atom, MAX_TEXT, Text};
use percent_encoding::percent_decode;
use std::alloc::{AllocError, Global};

/// How many rows a page has at most.
const MOST_ROWS: u64 = 1_000;

/// How many it has at most if nothing is said of that.
const ROWS: u64 = 100;

/// Which part of a list is asked for, as far as that was said.
#[derive(Drop)]
pub(crate) struct ListRange {
    from: Option<u64>,
    limit: Option<u64>,
    tag: Option<Atom>,
    // The list is that of tuples; else that of clients.
    is_of_tuples: bool,
}

/// What is wrong with a parameter, and which one it is: the first is 1.
#[derive(Clone, Copy)]
pub(crate) struct BadParameter {
    pub(crate) number: u64,
    pub(crate) why: &'static str,
}

impl ListRange {
    // Nothing was said.
    fn new(is_of_tuples: bool) -> ListRange {
        ListRange {
            from: None,
            limit: None,
            tag: None,
            is_of_tuples,
        }
    }

    /// The first number that is asked for.
    pub(crate) fn from(&self) -> u64 {
        self.from.unwrap_or(0)
    }

    /// The first client that is asked for.
    pub(crate) fn from_client(&self) -> u32 {
        match u32::try_from(self.from()) {
            Ok(client) => client,
            Err(_) => u32::MAX,
        }
    }

    /// How many rows are asked for.
    pub(crate) fn limit(&self) -> usize {
        self.limit.unwrap_or(ROWS) as usize
    }

    /// The tag that is asked for.
    pub(crate) fn into_tag(self) -> Option<Atom> {
        let ListRange { tag, .. } = self;
        tag
    }

    // Takes a parameter in. Returns what is wrong with it, if anything is.
    fn take(
        &mut self,
        alloc: Global,
        name: &[u8],
        value: &str,
    ) -> Result<Option<&'static str>, AllocError> {
        if name == b"from".as_slice() {
            return Ok(self.set_from(value));
        }
        if name == b"limit".as_slice() {
            return Ok(set(
                &mut self.limit,
                number_within(value, 1, MOST_ROWS),
                NO_LIMIT,
            ));
        }
        if name == b"tag".as_slice() && self.is_of_tuples {
            return set_tag(alloc, &mut self.tag, value);
        }
        if self.is_of_tuples {
            return Ok(Some(NO_NAME));
        }
        Ok(Some(NO_NAME_HERE))
    }

    // Takes in the first number that is asked for. Returns what is wrong with it, if anything is.
    fn set_from(&mut self, value: &str) -> Option<&'static str> {
        if self.is_of_tuples {
            return set(&mut self.from, number_within(value, 0, u64::MAX), NO_ID);
        }
        set(
            &mut self.from,
            number_within(value, 0, u64::from(u32::MAX)),
            NO_CLIENT,
        )
    }
}

// What may be wrong with a parameter.
const TWICE: &str = "it is given twice";

const NO_ID: &str = "from is a number from 0 to 18446744073709551615";

const NO_CLIENT: &str = "from is a number from 0 to 4294967295";

const NO_LIMIT: &str = "limit is a number from 1 to 1000";

const TOO_LONG: &str = "a tag has at most 4095 bytes";

const NO_TEXT: &str = "it is not UTF-8";

const NO_NAME: &str = "its name is none of from, limit, tag";

const NO_NAME_HERE: &str = "its name is none of from, limit";

const NO_NAME_BUT_LIMIT: &str = "its name is not limit";

/// The part that is asked for, or what is wrong with the first parameter that is.
///
/// # Errors
///
/// `AllocError` if memory runs out.
pub(crate) fn read_part(
    alloc: Global,
    query: &[u8],
    is_of_tuples: bool,
) -> Result<Result<ListRange, BadParameter>, AllocError> {
    let is_text = is_text(alloc, query)?;
    let mut part = ListRange::new(is_of_tuples);
    let mut number: u64 = 0;
    for pair in parse(alloc, query) {
        let (name, value) = pair?;
        number = number.saturating_add(1);
        if !is_text && (has_replacement(&name) || has_replacement(&value)) {
            let why = NO_TEXT;
            return Ok(Err(BadParameter { number, why }));
        }
        if let Some(why) = part.take(alloc, name.as_bytes(), &value)? {
            return Ok(Err(BadParameter { number, why }));
        }
    }
    Ok(Ok(part))
}

/// How many rows are asked for, if nothing else can be asked for; or what is wrong with the first
/// parameter that is.
///
/// # Errors
///
/// `AllocError` if memory runs out.
pub(crate) fn read_limit(
    alloc: Global,
    query: &[u8],
) -> Result<Result<usize, BadParameter>, AllocError> {
    let is_text = is_text(alloc, query)?;
    let mut limit = None;
    let mut number: u64 = 0;
    for pair in parse(alloc, query) {
        let (name, value) = pair?;
        number = number.saturating_add(1);
        if !is_text && (has_replacement(&name) || has_replacement(&value)) {
            let why = NO_TEXT;
            return Ok(Err(BadParameter { number, why }));
        }
        if let Some(why) = set_limit(&mut limit, name.as_bytes(), &value) {
            return Ok(Err(BadParameter { number, why }));
        }
    }
    Ok(Ok(limit.unwrap_or(ROWS) as usize))
}

// Whether a query is UTF-8 once its escapes are read. If it is not, `parse` has replacement
// characters in place of what is wrong.
fn is_text(alloc: Global, query: &[u8]) -> Result<bool, AllocError> {
    let mut bytes = Vec::new(alloc);
    percent_decode(query).append_to(&mut bytes)?;
    Ok(std::str::from_utf8(&bytes).is_ok())
}

fn has_replacement(text: &str) -> bool {
    text.contains('\u{fffd}')
}

// Takes in how many are asked for. Returns what is wrong with it, if anything is.
fn set_limit(limit: &mut Option<u64>, name: &[u8], value: &str) -> Option<&'static str> {
    if name == b"limit".as_slice() {
        return set(limit, number_within(value, 1, MOST_ROWS), NO_LIMIT);
    }
    Some(NO_NAME_BUT_LIMIT)
}

// Puts the value there, if there is one and none was there. Returns what is wrong, if anything is.
fn set(place: &mut Option<u64>, value: Option<u64>, why: &'static str) -> Option<&'static str> {
    if place.is_some() {
        return Some(TWICE);
    }
    match value {
        Some(_) => {
            *place = value;
            None
        }
        None => Some(why),
    }
}

// Puts the tag there, if none was there. Returns what is wrong, if anything is.
fn set_tag(
    alloc: Global,
    place: &mut Option<Atom>,
    value: &str,
) -> Result<Option<&'static str>, AllocError> {
    if place.is_some() {
        return Ok(Some(TWICE));
    }
    if value.len() > MAX_TEXT {
        return Ok(Some(TOO_LONG));
    }
    let text = Text::new(String::from_str(alloc, value)?);
    *place = Some(Atom::Text(text));
    Ok(None)
}

// The number that these digits are, if it is one of those.
fn number_within(digits: &str, least: u64, most: u64) -> Option<u64>
    ensures { IfSome result (λ n. (least ≤ n) × (n ≤ most)) }
{
    match digits.parse::<u64>() {
        Ok(number) => {
            if number >= least && number <= most {
                return Some(number);
            }
            None
        }
        Err(_) => None,
    }
}
