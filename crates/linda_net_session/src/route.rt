//! Routes of a session's messages.

ghost use Rattle.std.specs.Prelude.{◌≡◌};
ghost use Rattle.linda_net_session.specs.Place as spec;

use crate::phase::{MOST_ASKED, Phase, Way};
use linda_wire::Message;

/// What a message is, by what comes of it.
#[derive(Clone, Copy, Debug, PartialEq, Eq)]
pub enum MessageKind {
    /// It greets.
    Hello,
    /// It bears no number, so no deed comes of it.
    Ask,
    /// It bears a number.
    Deed,
}

/// The ways on which there is room for one message more.
#[derive(Clone, Copy, Debug, PartialEq, Eq)]
pub struct OpenWays {
    pub asks: bool,
    pub deeds: bool,
}

/// Where a message goes.
#[derive(Clone, Copy, Debug, PartialEq, Eq)]
pub enum Route {
    /// To the server, which greets its client.
    Greet,
    /// Nowhere: a second Hello, which was answered.
    Busy,
    /// To the server, this way.
    Goes(Way),
    /// Nowhere yet.
    Keep,
}

impl Route {
    /// Whether it goes nowhere yet.
    pub(crate) fn is_keep(self) -> bool
        ensures { result ≡ spec.is_keep self }
    {
        match self {
            Route::Greet => false,
            Route::Busy => false,
            Route::Goes(_) => false,
            Route::Keep => true,
        }
    }
}

/// The kind of the message.
pub fn kind_of(message: &Message) -> MessageKind
    ensures { result ≡ spec.kind_of message.now }
{
    match message {
        Message::Hello { .. } => MessageKind::Hello,
        Message::Ask { .. } => MessageKind::Ask,
        Message::Cancel { .. } => MessageKind::Ask,
        Message::Out { .. } => MessageKind::Deed,
        Message::Accept { .. } => MessageKind::Deed,
        Message::Leave { .. } => MessageKind::Deed,
    }
}

/// Where the next message of a session goes, and how far the session is then.
pub fn place(phase: Phase, kind: MessageKind, room: OpenWays) -> (Route, Phase)
    ensures { result ≡ spec.place phase kind room }
{
    match phase {
        Phase::Fresh => (Route::Greet, Phase::Greeting),
        Phase::Greeting => (Route::Keep, phase),
        Phase::Open { asks, deeds } => match kind {
            MessageKind::Hello => {
                if asks == 0 && deeds == 0 {
                    (Route::Busy, phase)
                } else {
                    (Route::Keep, phase)
                }
            }
            MessageKind::Ask => {
                if deeds == 0 {
                    place_ask(asks, deeds, room.asks)
                } else {
                    place_deed(asks, deeds, room.deeds)
                }
            }
            MessageKind::Deed => place_deed(asks, deeds, room.deeds),
        },
    }
}

// One more of which no deed comes.
fn place_ask(asks: u64, deeds: u64, has_room: bool) -> (Route, Phase)
    ensures { result ≡ spec.place_ask asks deeds has_room }
{
    if has_room && has_few(asks, deeds) {
        let asks = asks + 1;
        (Route::Goes(Way::Asks), Phase::Open { asks, deeds })
    } else {
        (Route::Keep, Phase::Open { asks, deeds })
    }
}

// One more on the way of deeds.
fn place_deed(asks: u64, deeds: u64, has_room: bool) -> (Route, Phase)
    ensures { result ≡ spec.place_deed asks deeds has_room }
{
    if has_room && has_few(asks, deeds) {
        let deeds = deeds + 1;
        (Route::Goes(Way::Deeds), Phase::Open { asks, deeds })
    } else {
        (Route::Keep, Phase::Open { asks, deeds })
    }
}

// Whether one more may go.
fn has_few(asks: u64, deeds: u64) -> bool
    ensures { result ≡ spec.has_few asks deeds }
{
    asks < MOST_ASKED && deeds < MOST_ASKED - asks
}
