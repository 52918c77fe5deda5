//! Laws of streams of messages and of replies, each stated by the contract of a function that does
//! nothing.

ghost use Rattle.linda_wire.specs.Frames as format;
ghost use Rattle.linda_wire.specs.Stream.{FaultsStay, HasOneReading};

/// A fault at the front of a stream stays there, whatever comes after it.
pub fn faults_stay()
    ensures { FaultsStay format.message }
{}

/// A stream is these messages and no others, up to a rest with no whole message at its front. So
/// it does not matter into which pieces it was cut, and no message's frame begins another's.
pub fn one_reading()
    ensures { HasOneReading format.message }
{}

/// A fault at the front of a stream of replies stays there, whatever comes after it.
pub fn reply_faults_stay()
    ensures { FaultsStay format.reply }
{}

/// A stream is these replies and no others, up to a rest with no whole reply at its front;
/// likewise.
pub fn one_reply_reading()
    ensures { HasOneReading format.reply }
{}
