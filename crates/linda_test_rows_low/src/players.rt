//! Rows by their subjects.

use crate::clients::client::Clients;
use crate::clients::events::Events;
use crate::clients::texts::play_text;
use crate::disks::stand::Stand;
use crate::servers::bags::Bags;
use crate::servers::book::play_book;
use crate::servers::deeds::play_deeds;
use crate::servers::holds::play_holds;
use crate::servers::node::play_node;
use crate::servers::step::Stores;
use crate::servers::talks::Talks;
use crate::servers::waits::play_waits;
use crate::values::bytes::play_bytes;
use crate::values::copies::play_copies;
use crate::values::echo::play_rows_in_text;
use crate::values::limits::play_limits;
use crate::values::lines::play_lines;
use crate::values::matching::play_matching;
use crate::values::notation::spread;
use crate::values::order::play_order;
use crate::values::streams::Stream;
use crate::values::texts::play_texts;
use crate::values::words::play_words;
use linda_book::Book;
use linda_hold::{Holds, Waits};
use linda_store::Volatile;
use linda_store_state::Deed;
use linda_test_script::{Player, WordsFault};
use linda_wire::{Message, Reply};
use std::alloc::Global;

/// What a row is about.
#[derive(Clone, Copy)]
enum Subject {
    Matching,
    Limits,
    Order,
    Copies,
    Texts,
    Bytes,
    Messages,
    Replies,
    Words,
    Lines,
    Rows,
    Bag,
    Waits,
    Holds,
    Book,
    Step,
    Promise,
    Store,
    Session,
    Disks,
    ShortDisks,
    Event,
    Client,
    EventText,
}

// The subjects by their words.
const SUBJECTS: [(&str, Subject); 34] = [
    ("matching", Subject::Matching),
    ("limits", Subject::Limits),
    ("order", Subject::Order),
    ("copies", Subject::Copies),
    ("texts", Subject::Texts),
    ("text faults", Subject::Texts),
    ("bytes", Subject::Bytes),
    ("byte faults", Subject::Bytes),
    ("messages", Subject::Messages),
    ("message faults", Subject::Messages),
    ("replies", Subject::Replies),
    ("reply faults", Subject::Replies),
    ("words", Subject::Words),
    ("lines", Subject::Lines),
    ("rows", Subject::Rows),
    ("bag", Subject::Bag),
    ("waits", Subject::Waits),
    ("holds", Subject::Holds),
    ("book", Subject::Book),
    ("step", Subject::Step),
    ("step faults", Subject::Step),
    ("promise", Subject::Promise),
    ("store", Subject::Store),
    ("session", Subject::Session),
    ("conversation", Subject::Session),
    ("disk", Subject::Disks),
    ("journal", Subject::Disks),
    ("snap", Subject::Disks),
    ("server", Subject::Disks),
    ("server faults", Subject::ShortDisks),
    ("event", Subject::Event),
    ("client", Subject::Client),
    ("client faults", Subject::Client),
    ("text", Subject::EventText),
];

/// The subject of the row, and a new value of each that it may play with.
#[derive(Drop)]
pub(crate) struct Players {
    subject: Subject,
    messages: Stream<Message>,
    replies: Stream<Reply>,
    bags: Bags,
    waits: Waits,
    holds: Holds,
    book: Book,
    stores: Stores,
    deeds: Vec<Deed>,
    node: Volatile,
    talks: Talks,
    disks: Stand,
    events: Events,
    clients: Clients,
}

impl Players {
    /// Before the first row.
    pub(crate) fn new(alloc: Global) -> Players {
        Players {
            subject: Subject::Rows,
            messages: Stream::new(alloc),
            replies: Stream::new(alloc),
            bags: Bags::new(alloc),
            waits: Waits::new(alloc),
            holds: Holds::new(alloc),
            book: Book::new(alloc),
            stores: Stores::new(alloc),
            deeds: Vec::new(alloc),
            node: Volatile::new(alloc),
            talks: Talks::new(alloc),
            disks: Stand::new(alloc),
            events: Events::new(),
            clients: Clients::new(),
        }
    }

    // Plays a line about values, in which nothing is in braces any more.
    fn play_values(
        &mut self,
        alloc: Global,
        words: &str,
        came: &mut String,
    ) -> Result<(), WordsFault> {
        match self.subject {
            Subject::Matching => play_matching(alloc, words, came),
            Subject::Limits => play_limits(alloc, words, came),
            Subject::Order => play_order(alloc, words, came),
            Subject::Copies => play_copies(alloc, words, came),
            Subject::Texts => play_texts(alloc, words, came),
            Subject::Bytes => play_bytes(alloc, words, came),
            Subject::Messages => self.messages.play(alloc, words, came),
            Subject::Replies => self.replies.play(alloc, words, came),
            Subject::Words => play_words(alloc, words, came),
            Subject::Lines => play_lines(alloc, words, came),
            _ => play_rows_in_text(alloc, words, came),
        }
    }
}

// The subject of this name.
fn subject_of(name: &str) -> Result<Subject, WordsFault> {
    for (word, subject) in &SUBJECTS {
        if *word == name {
            return Ok(*subject);
        }
    }
    Err(WordsFault::Unknown)
}

impl Player for Players {
    fn begin(&mut self, alloc: Global, subject: &str) -> Result<(), WordsFault> {
        let subject = subject_of(subject)?;
        *self = Players::new(alloc);
        self.subject = subject;
        match subject {
            Subject::Client => self.clients.begin(alloc),
            _ => Ok(()),
        }
    }

    fn play(&mut self, alloc: Global, words: &str, came: &mut String) -> Result<(), WordsFault> {
        match self.subject {
            Subject::Bag => self.bags.play(alloc, words, came),
            Subject::Waits => play_waits(alloc, &mut self.waits, words, came),
            Subject::Holds => play_holds(alloc, &mut self.holds, words, came),
            Subject::Book => play_book(alloc, &mut self.book, words, came),
            Subject::Step => self.stores.play(alloc, words, came),
            Subject::Promise => play_deeds(alloc, &mut self.deeds, words, came),
            Subject::Store => play_node(alloc, &mut self.node, words, came),
            Subject::Session => self.talks.play(alloc, words, came),
            Subject::Disks => self.disks.play(alloc, words, false, came),
            Subject::ShortDisks => self.disks.play(alloc, words, true, came),
            Subject::Event => self.events.play(alloc, words, came),
            Subject::Client => self.clients.play(alloc, words, came),
            Subject::EventText => play_text(alloc, words, came),
            _ => self.play_values(alloc, &spread(alloc, words)?, came),
        }
    }
}
