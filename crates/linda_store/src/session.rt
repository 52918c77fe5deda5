//! One connection of a client: the pieces of its stream in, the replies out.

ghost use Rattle.std.specs.Prelude.{◌≡◌, ◌≢◌, ◌++◌, ◌∷◌, [], length, true, false, IfOk, OnOk};
ghost use Rattle.std.specs.Prelude.{IsErr, MatchResult};
ghost use Rattle.linda_wire.specs.Refusal.{refused};
ghost use Rattle.linda_wire.specs.declared.refusal.Refusal.TheVariants as refusals;
ghost use Rattle.linda_wire.specs.declared.fault.FrameFault.TheVariants.{Memory};
ghost use Rattle.linda_store.specs.declared.connection_state.ConnectionState.TheVariants as states;
ghost use Rattle.linda_store.specs.Conversation.{HasAnswered, detail_of};
ghost use Rattle.linda_store.specs.Session.{beginner, AnswersPiece, StaysSilent};
ghost use Rattle.linda_store.specs.Turn.{point_at};

use crate::connection_state::{ConnectionState, Taken};
use crate::node::Node;
use crate::turn::turn;
use linda_wire::{Feed, FrameFault, Refusal, Reply};
use std::alloc::{AllocError, Global};
use std::marker::Model;

/// A connection of a client to a node. How the client's bytes are cut into pieces does not matter.
#[derive(Debug)]
pub struct Session {
    feed: Feed,
    greeted: Option<u32>,
    stage: ConnectionState,
    // Whether memory ran out.
    spent: bool,
}

impl Drop for Session {
    fn drop(self) {
        let Session {
            feed: _,
            greeted: _,
            stage: _,
            spent: _,
        } = self;
    }
}

impl Model for Session {
    ghost use Rattle.linda_store.specs.Session as seen;

    ghost Value = { seen.Session };

    ghost view = { λ s. record {
      greeted = s.greeted;
      unread = s.feed;
      stage = s.stage;
      is_spent = s.spent;
    } };
}

impl Session {
    /// A connection of which nothing came yet.
    pub fn new(alloc: Global) -> Session
        ensures { result ≡ beginner }
    {
        Session {
            feed: Feed::new(alloc),
            greeted: None,
            stage: ConnectionState::Open,
            spent: false,
        }
    }

    /// The client that the node welcomed, if it did.
    pub fn greeted(&self) -> Option<u32>
        ensures { result ≡ self.now.greeted }
    {
        self.greeted
    }

    /// The state of the connection.
    pub fn stage(&self) -> ConnectionState
        ensures { result ≡ self.now.stage }
    {
        self.stage
    }

    /// How many bytes came that make no whole message yet.
    pub fn rest(&self) -> usize
        ensures { result ≡ length self.now.unread }
    {
        self.feed.rest()
    }

    /// Takes the next piece of the client's stream, of any length, and answers all messages that
    /// are whole now. A connection that has ended takes nothing, and has no replies.
    ///
    /// # Errors
    ///
    /// If memory runs out the session is spent: the node has taken some first messages of the
    /// piece, and each later call answers the same and changes nothing.
    pub fn take<N: Node>(
        &mut self,
        alloc: Global,
        node: &mut N,
        piece: &[u8],
    ) -> Result<Taken, AllocError>
        ensures open { self.old.is_spent ≡ false → self.old.stage ≡ states.Open
            → AnswersPiece self.old (N.shown node.old) piece.now result self.new
            (N.shown node.new) }
        ensures ended { self.old.is_spent ≡ false → self.old.stage ≢ states.Open
            → MatchResult result
            (λ taken. StaysSilent self.old (N.shown node.old) taken self.new (N.shown node.new))
            (λ _. ⊥) }
        ensures spent { self.old.is_spent ≡ true
            → IsErr result × ((self.new ≡ self.old) × (N.shown node.new ≡ N.shown node.old)) }
    {
        if self.spent {
            return Err(AllocError);
        }
        let mut replies = Vec::new(alloc);
        if !self.stage.is_open() {
            return Ok(Taken {
                replies,
                goes_on: false,
            });
        }
        let feed = &mut self.feed;
        match answer_piece(alloc, feed, &mut self.greeted, node, piece, &mut replies) {
            Ok(stage) => {
                self.stage = stage;
                Ok(Taken {
                    replies,
                    goes_on: stage.is_open(),
                })
            }
            Err(error) => {
                self.spent = true;
                Err(error)
            }
        }
    }
}

// Takes the next piece of a stream and answers all messages that are whole then.
fn answer_piece<N: Node>(
    alloc: Global,
    feed: &mut Feed,
    greeted: &mut Option<u32>,
    node: &mut N,
    piece: &[u8],
    replies: &mut Vec<Reply>,
) -> Result<ConnectionState, AllocError>
    ensures { HasAnswered (point_at (N.shown node.old) greeted.old true) (feed.old ++ piece.now)
        replies.old.items
        result feed.new replies.new.items (N.shown node.new) greeted.new }
{
    feed.feed(piece)?;
    answer_messages(alloc, feed, greeted, node, replies)
}

// Answers all messages that are whole.
fn answer_messages<N: Node>(
    alloc: Global,
    feed: &mut Feed,
    greeted: &mut Option<u32>,
    node: &mut N,
    replies: &mut Vec<Reply>,
) -> Result<ConnectionState, AllocError>
    ensures { HasAnswered (point_at (N.shown node.old) greeted.old true) feed.old replies.old.items
        result feed.new replies.new.items (N.shown node.new) greeted.new }
{
    loop {
        match feed.next(alloc) {
            Ok(found) => match found {
                Some(message) => {
                    if !turn(alloc, greeted, node, &message, replies)? {
                        return Ok(ConnectionState::Down);
                    }
                }
                None => return Ok(ConnectionState::Open),
            },
            Err(fault) => return refuse_frame(fault, replies),
        }
    }
}

// Refuses a frame that is no message, which ends the connection.
fn refuse_frame(fault: FrameFault, replies: &mut Vec<Reply>) -> Result<ConnectionState, AllocError>
    ensures broken { IfOk result (λ stage. (fault ≢ Memory)
        × (stage ≡ states.Malformed (detail_of fault))) }
    ensures told { OnOk result (replies.new.items
        ≡ replies.old.items ++ refused (refusals.Malformed (detail_of fault)) ∷ []) }
{
    let detail = detail_of(fault)?;
    replies.push(Refusal::Malformed(detail).reply())?;
    Ok(ConnectionState::Malformed(detail))
}

// The offset that is reported to the client for a fault of a frame; `Memory` is none.
fn detail_of(fault: FrameFault) -> Result<u32, AllocError>
    ensures { IfOk result (λ detail. (fault ≢ Memory) × (detail ≡ detail_of fault)) }
{
    match fault.offset() {
        Some(offset) => Ok(offset),
        None => Err(AllocError),
    }
}
