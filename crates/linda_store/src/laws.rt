//! Law of nodes, which follows from their contract, stated by the contract of a function that does
//! nothing.

ghost use Rattle.std.specs.Prelude.{ℕ, List, ◌++◌, Result};
ghost use Rattle.std.specs.Global.{Vec};
ghost use Rattle.linda_wire.specs.declared.reply.Reply.{Reply};
ghost use Rattle.linda_store_state.specs.declared.deed.Deed.{Deed};
ghost use Rattle.linda_store_step.specs.History.{Coming};
ghost use Rattle.linda_store.specs.declared.node.NodeFault.{NodeFault};
ghost use Rattle.linda_store.specs.Node.{Node, NodeAnswer, Sent, Works, Closes, Snaps, Stops};
ghost use Rattle.linda_store.specs.Sound.{IsSound, AreBacked, added};

/// A server whose deeds are a proper list stays so after all that comes to its node, after stops
/// and after going down: its state is the one after all of its deeds, and what it sends reports
/// only them.
pub fn a_server_stays_sound()
    ensures works { (ds es : List Deed) (old new : Node) (xs : List Coming) (answer : NodeAnswer)
        → IsSound ds old → Works old xs answer es new → IsSound (ds ++ es) new }
    ensures works_backed { (ds es : List Deed) (old new : Node) (xs : List Coming)
        (sends : List (ℕ × Reply))
        → IsSound ds old → Works old xs (Sent sends) es new → AreBacked (ds ++ es) sends }
    ensures closes { (ds : List Deed) (old new : Node) (c : ℕ) (answer : NodeAnswer)
        → IsSound ds old → Closes old c answer new → IsSound ds new }
    ensures closes_backed { (ds : List Deed) (old new : Node) (c : ℕ) (sends : List (ℕ × Reply))
        → IsSound ds old → Closes old c (Sent sends) new → AreBacked ds sends }
    ensures snaps { (ds : List Deed) (old new : Node) (answer : Result (Unit {0}) NodeFault)
        → IsSound ds old → Snaps old answer new → IsSound ds new }
    ensures stops { (ds : List Deed) (old new : Node) (xs : List Coming)
        (answer : Result (Vec Deed) NodeFault)
        → IsSound ds old → Stops old xs answer new → IsSound (ds ++ added answer) new }
{}
