//! Laws of whole lives of sessions.

ghost use Rattle.std.specs.List.{flat_map};
ghost use Rattle.linda_wire.specs.Frames.{reply_frame};
ghost use Rattle.linda_net_session.specs.Lawful.{HaveOneStory, IsPrefixOf};

use crate::session::Session;

/// If one session received the first bytes of what another did, and the other left no whole
/// message, the one took the first messages of the other: it does not matter into which pieces the
/// bytes were cut, nor what else happened meanwhile.
pub fn one_story(one: &Session, other: &Session)
    ensures { HaveOneStory one.now other.now }
{
    one.lawful();
    other.lawful();
}

/// The bytes that went out are the first ones of the frames of the replies that were queued, also
/// if the session broke.
pub fn goes_out_as_told(session: &Session)
    ensures { IsPrefixOf session.now.sent (flat_map reply_frame session.now.told) }
{
    session.lawful();
}
