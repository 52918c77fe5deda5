//! Bounds on connections that come in, however they are served.

ghost use Rattle.std.specs.Prelude.{◌≡◌};
ghost use Rattle.linda_net_marks.specs.Counting.{one_less};

/// How long nobody is let in if a connection could not be had, as if no file is left for it, in
/// milliseconds.
pub const ACCEPT_PAUSE: u64 = 10;

/// One connection fewer, if they are counted.
pub fn one_less(left: Option<u32>) -> Option<u32>
    ensures { result ≡ one_less left }
{
    match left {
        Some(left) => Some(left.saturating_sub(1)),
        None => None,
    }
}
