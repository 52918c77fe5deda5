//! Playing of runs that lines say.

use crate::course::Course;
use crate::lines::{How, read_line};
use crate::shrinking::shrink;
use crate::tally::Tally;
use std::alloc::{AllocError, Global};
use std::io;
use std::io::ErrorKind;

/// What plays runs of a kind.
pub trait Player {
    /// Plays a run, and keeps what it came to: what happened in it, and how it differs from what
    /// has to be, if it does.
    fn play(
        &mut self,
        alloc: Global,
        course: &Course,
    ) -> Result<(Tally, Option<&'static str>), AllocError>;

    /// Prints what is known of the run that was played last, which differs.
    fn print_last<R: Print>(&self, rt: &R) -> io::Result<()>;

    /// What may happen in a run, each under its number.
    fn things(&self) -> &'static [&'static str];

    /// How many of these things, from the first on, have to happen in some run.
    fn wanted(&self) -> usize;

    /// The word before a line that says a run of this kind, and a blank; or nothing.
    fn kind(&self) -> &'static str;
}

/// Plays the run of a line, and adds what happened to what happened in all. A line `all happened`
/// has to come after runs in which all happened that has to. Returns whether all is as it has to
/// be.
pub fn play_line<R: Print, P: Player>(
    rt: &R,
    alloc: Global,
    player: &mut P,
    all: &mut Tally,
    line: &str,
) -> io::Result<bool> {
    if line == "all happened" {
        return tell_missing(rt, player, all);
    }
    match read_line(alloc, line) {
        Ok(Some((how, course))) => play_course(rt, alloc, player, all, how, &course),
        Ok(None) => {
            println!(rt; "not understood")?;
            Ok(false)
        }
        Err(_) => Err(io::Error::from(ErrorKind::OutOfMemory)),
    }
}

// Says whether all happened that has to, or the first thing that did not.
fn tell_missing<R: Print, P: Player>(rt: &R, player: &P, all: &Tally) -> io::Result<bool> {
    let mut thing: usize = 0;
    for name in player.things() {
        if thing < player.wanted() && all.of(thing) == 0 {
            println!(rt; "no {}", name)?;
            return Ok(false);
        }
        thing = thing.saturating_add(1);
    }
    println!(rt; "all happened")?;
    Ok(true)
}

// Plays a run, and says whether it is as it has to be.
fn play_course<R: Print, P: Player>(
    rt: &R,
    alloc: Global,
    player: &mut P,
    all: &mut Tally,
    how: How,
    course: &Course,
) -> io::Result<bool> {
    let Ok((tally, fault)) = player.play(alloc, course) else {
        return Err(io::Error::from(ErrorKind::OutOfMemory));
    };
    all.add_all(&tally);
    print!(rt; "seed {}, {} events: ", course.seed, course.len())?;
    if let Some(fault) = fault {
        println!(rt; "differs")?;
        tell_difference(rt, alloc, player, how, course, &tally, fault)?;
        return Ok(false);
    }
    let is_same = how != How::Twice || is_again(alloc, player, course, &tally);
    println!(rt;
        "{}",
        if is_same {
            "no difference"
        } else {
            "another run, played again"
        }
    )?;
    if how == How::Tell {
        print_tally(rt, player.things(), &tally)?;
    }
    Ok(is_same)
}

// Says how a run differs that was played last, and shrinks it if that is asked for.
fn tell_difference<R: Print, P: Player>(
    rt: &R,
    alloc: Global,
    player: &mut P,
    how: How,
    course: &Course,
    tally: &Tally,
    fault: &str,
) -> io::Result<()> {
    if how == How::Tell {
        print_tally(rt, player.things(), tally)?;
    }
    println!(rt; "  DIFFERS after {} events: {}", tally.events, fault)?;
    player.print_last(rt)?;
    if how == How::Shrink {
        return print_shrunk(rt, alloc, player, course);
    }
    Ok(())
}

// Whether the run, which does not differ, comes to the same if it is played again.
fn is_again<P: Player>(alloc: Global, player: &mut P, course: &Course, tally: &Tally) -> bool {
    match player.play(alloc, course) {
        Ok((again, None)) => again == *tally,
        _ => false,
    }
}

// Prints what happened in a run.
fn print_tally<R: Print>(rt: &R, things: &[&str], tally: &Tally) -> io::Result<()> {
    print!(rt; "  {} events", tally.events)?;
    let mut thing: usize = 0;
    for name in things {
        print!(rt; ", {} {}", tally.of(thing), name)?;
        thing = thing.saturating_add(1);
    }
    println!(rt; "; sum {}", tally.sum())
}

// Prints a run of few events that differs, as a line that plays it.
fn print_shrunk<R: Print, P: Player>(
    rt: &R,
    alloc: Global,
    player: &mut P,
    course: &Course,
) -> io::Result<()> {
    match shrink(player, alloc, course) {
        Ok(Some(few)) => print_course(rt, player.kind(), &few),
        Ok(None) => Ok(()),
        Err(_) => Err(io::Error::from(ErrorKind::OutOfMemory)),
    }
}

fn print_course<R: Print>(rt: &R, kind: &str, course: &Course) -> io::Result<()> {
    let scarce = if course.is_scarce { "scarce " } else { "" };
    print!(rt; "{}tell {}{} only", kind, scarce, course.seed)?;
    for at in 0..course.len() {
        print!(rt; " {}", course.number(at))?;
    }
    println!(rt; "")
}
