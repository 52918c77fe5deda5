//! Law of a server over all its calls, crashes and openings, stated by the contract of a function
//! that does nothing.

ghost use Rattle.std.specs.Prelude.{ℕ, List};
ghost use Rattle.linda_wire.specs.declared.reply.Reply.{Reply};
ghost use Rattle.linda_store_state.specs.declared.deed.Deed.{Deed};
ghost use Rattle.linda_server.specs.declared.durable.Durable.{Durable};
ghost use Rattle.linda_server.specs.Lives.{Life, Serving, Stopped, IsOpenedOn};
ghost use Rattle.linda_server.specs.Promises.{KeepsItsWord, AreReady, IsFreed};

use linda_disk::Disk;

/// A server on any two disks, as far as they are honest, over every list of calls, crashes of both
/// at any moment of a call, and openings. Every answered out and accept is there, in a list of
/// deeds that leads to its state and takes no tuple twice; the reply to it is kept until its client
/// does a later one, and a message that repeats the number gets that reply and does nothing else,
/// no matter what else it says. After a crash the deeds that were in hand are all there or none,
/// and the server can be opened again; every tuple that was held is free then.
pub fn servers_keep_their_word<D: Disk>()
    ensures word { (s : Durable D D.Disk) (ds : List Deed) (all : List (ℕ × Reply))
        → Life ds all (Serving s) → KeepsItsWord ds all s }
    ensures ready { (left right : D) (ds hand : List Deed) (all : List (ℕ × Reply))
        → Life {g = D.Disk} ds all (Stopped hand left right)
        → AreReady D.Disk ds hand all left right }
    ensures freed { (s : Durable D D.Disk) (left right : D) (ds hand : List Deed)
        (all : List (ℕ × Reply))
        → Life {g = D.Disk} ds all (Stopped hand left right) → IsOpenedOn left right s
        → IsFreed ds hand all s }
{}
