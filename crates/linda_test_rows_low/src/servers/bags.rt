//! Both bags, which do the same and have to answer the same.

use crate::servers::typed::{template_of, tuple_of};
use linda_bag::{Bag, IndexBag, Kind, ListBag};
use linda_test_script::{WordsFault, done, read_number, split_number, split_word, tell};
use linda_text::{write_atom, write_tuple};
use linda_tuple::Tuple;
use std::alloc::{AllocError, Global};
use std::collections::BTreeSet;
use std::fmt::Display;

/// The plain bag, the bag with an index, and the ids that a look-up passes over.
#[derive(Drop)]
pub(crate) struct Bags {
    plain: ListBag,
    index: IndexBag,
    passed: BTreeSet<u64>,
}

impl Bags {
    /// Empty bags.
    pub(crate) fn new(alloc: Global) -> Bags {
        Bags {
            plain: ListBag::new(alloc),
            index: IndexBag::new(alloc),
            passed: BTreeSet::new(alloc),
        }
    }

    /// Lets both bags do what the words say, and says what came of it, of each if they differ.
    pub(crate) fn play(
        &mut self,
        alloc: Global,
        words: &str,
        came: &mut String,
    ) -> Result<(), WordsFault> {
        let (word, rest) = split_word(words);
        match word {
            "pass" => {
                self.passed.insert(read_number(rest)?)?;
                Ok(())
            }
            "takes" => self.take_all(alloc, rest, came),
            "kinds" => tell_kinds(alloc, &self.index, came),
            _ => self.do_both(alloc, words, came),
        }
    }

    // Does this on both bags, and says what came of it.
    fn do_both(&mut self, alloc: Global, words: &str, came: &mut String) -> Result<(), WordsFault> {
        let (plain, index) = self.both(alloc, words)?;
        tell_both(came, &plain, &index)
    }

    // What comes of the words at the plain bag, and at the one with an index.
    fn both(&mut self, alloc: Global, words: &str) -> Result<(String, String), WordsFault> {
        let mut plain = String::new(alloc);
        let mut index = String::new(alloc);
        play_bag(alloc, &mut self.plain, &self.passed, words, &mut plain)?;
        play_bag(alloc, &mut self.index, &self.passed, words, &mut index)?;
        Ok((plain, index))
    }

    // Takes what many templates ask for, in turn, from both bags: so often in all, `(n % tags, n %
    // keys)`, and at each tenth turn `(n % tags, ?i)` too. Writes if the two differ.
    fn take_all(
        &mut self,
        alloc: Global,
        words: &str,
        came: &mut String,
    ) -> Result<(), WordsFault> {
        let (times, tags, keys) = read_three(words)?;
        for n in 0..times {
            let tag = rest_of(n, tags);
            self.take_alike(alloc, tag, rest_of(n, keys), came)?;
            if n % 10 == 0 {
                self.take_alike(alloc, tag, "?i", came)?;
            }
        }
        Ok(())
    }

    // Takes what the template of this tag and key asks for from both bags, and says what came if
    // they differ.
    fn take_alike<K: Display + Drop>(
        &mut self,
        alloc: Global,
        tag: u64,
        key: K,
        came: &mut String,
    ) -> Result<(), WordsFault> {
        let words = format!(in alloc; "take ({tag}, {key})")?;
        let (plain, index) = self.both(alloc, &words)?;
        tell_unlike(came, &words, &plain, &index)
    }
}

// Writes how many tuples the bag has of each tag and number of fields, in their order.
fn tell_kinds(alloc: Global, bag: &IndexBag, came: &mut String) -> Result<(), WordsFault> {
    let mut last = None;
    for _ in 0..=bag.len() {
        let Some(kind) = bag.kind_after(last) else {
            return done(writeln!(came, "> no more"));
        };
        tell_kind(alloc, kind, came)?;
        last = Some((kind.tag, kind.fields));
    }
    done(writeln!(came, "> more than there are tuples"))
}

// Writes a tag and a number of fields, with how many tuples have both.
fn tell_kind(alloc: Global, kind: Kind<'_>, came: &mut String) -> Result<(), WordsFault> {
    let Kind {
        tag,
        fields,
        tuples,
    } = kind;
    let tag = write_atom(alloc, tag)?;
    done(writeln!(came, "> {tag} with {fields}: {tuples}"))
}

// Writes what came of both, or of each if they differ; nothing comes of what has nothing to give.
fn tell_both(came: &mut String, plain: &str, index: &str) -> Result<(), WordsFault> {
    if plain != index {
        done(writeln!(came, "> plain {plain}, index {index}"))
    } else if plain.is_empty() {
        Ok(())
    } else {
        tell(came, plain)
    }
}

// Writes what came of the words at each, if they differ.
fn tell_unlike(came: &mut String, words: &str, plain: &str, index: &str) -> Result<(), WordsFault> {
    if plain == index {
        Ok(())
    } else {
        done(writeln!(came, "> {words}: {plain} or {index}"))
    }
}

// The three numbers of these words.
fn read_three(words: &str) -> Result<(u64, u64, u64), WordsFault> {
    let (first, rest) = split_number(words)?;
    let (second, rest) = split_number(rest)?;
    Ok((first, second, read_number(rest)?))
}

// What is left of a number divided by another one; 0 if that is 0.
fn rest_of(n: u64, by: u64) -> u64 {
    n.checked_rem(by).unwrap_or(0)
}

// Lets this bag do what the words say, and appends what comes of it.
fn play_bag<B: Bag>(
    alloc: Global,
    bag: &mut B,
    passed: &BTreeSet<u64>,
    words: &str,
    came: &mut String,
) -> Result<(), WordsFault> {
    let (word, rest) = split_word(words);
    match word {
        "put" => put(alloc, bag, rest),
        "fill" => fill(alloc, bag, rest),
        "least" => least(alloc, bag, passed, rest, came),
        "take" => take(alloc, bag, passed, rest, came),
        "count" => done(write!(came, "{} tuples", bag.len())),
        _ => play_id(alloc, bag, word, read_number(rest)?, came),
    }
}

// Appends what the word asks of an id: the tuple, which is taken out or not, or the first id from
// this one on.
fn play_id<B: Bag>(
    alloc: Global,
    bag: &mut B,
    word: &str,
    id: u64,
    came: &mut String,
) -> Result<(), WordsFault> {
    match word {
        "get" => done(push_tuple(alloc, bag.get(id), came)),
        "remove" => done(push_tuple(alloc, bag.remove(id).as_ref(), came)),
        "next" => done(push_id(bag.next_from(id), came)),
        _ => Err(WordsFault::Unknown),
    }
}

// Puts a tuple under an id.
fn put<B: Bag>(alloc: Global, bag: &mut B, words: &str) -> Result<(), WordsFault> {
    let (id, rest) = split_number(words)?;
    done(bag.insert(id, tuple_of(alloc, rest)?))
}

// Puts so many tuples `(n % tags, n % keys)` under the ids n, from 0 on.
fn fill<B: Bag>(alloc: Global, bag: &mut B, words: &str) -> Result<(), WordsFault> {
    let (times, tags, keys) = read_three(words)?;
    for n in 0..times {
        let words = format!(in alloc; "{n} ({}, {})", rest_of(n, tags), rest_of(n, keys))?;
        put(alloc, bag, &words)?;
    }
    Ok(())
}

// Appends the least id that the template matches.
fn least<B: Bag>(
    alloc: Global,
    bag: &B,
    passed: &BTreeSet<u64>,
    words: &str,
    came: &mut String,
) -> Result<(), WordsFault> {
    let template = template_of(alloc, words)?;
    done(push_id(bag.least_match(&template, passed), came))
}

// Takes the tuple of the least id that the template matches; appends the id, the tuple, and which
// id comes next.
fn take<B: Bag>(
    alloc: Global,
    bag: &mut B,
    passed: &BTreeSet<u64>,
    words: &str,
    came: &mut String,
) -> Result<(), WordsFault> {
    let template = template_of(alloc, words)?;
    match bag.least_match(&template, passed) {
        None => done(came.push_str("none")),
        Some(id) => done(take_out(alloc, bag, id, came)),
    }
}

// Takes the tuple of this id; appends the id, the tuple, and which id comes next.
fn take_out<B: Bag>(
    alloc: Global,
    bag: &mut B,
    id: u64,
    came: &mut String,
) -> Result<(), AllocError> {
    write!(came, "{id} ")?;
    push_tuple(alloc, bag.remove(id).as_ref(), came)?;
    came.push_str(", next ")?;
    push_id(bag.next_from(id), came)
}

fn push_tuple(alloc: Global, tuple: Option<&Tuple>, came: &mut String) -> Result<(), AllocError> {
    match tuple {
        Some(tuple) => came.push_str(&write_tuple(alloc, tuple)?),
        None => came.push_str("none"),
    }
}

fn push_id(id: Option<u64>, came: &mut String) -> Result<(), AllocError> {
    match id {
        Some(id) => write!(came, "{id}"),
        None => came.push_str("none"),
    }
}
