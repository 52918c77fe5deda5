//! Steps of sessions in one thread, with what is to come of each.

use super::script::Sessions;
use linda_disk::{MemDisk, Torn};
use linda_test_script::WordsFault;
use linda_test_server::{Host, Kept, Scene, kept_after_crash};
use std::alloc::{AllocError, Global};
use std::process::Abort;
use std::sync::Wait;

/// What is done, all that comes of it, and what the server keeps after it.
pub(super) type Step = (&'static str, &'static str, Kept);

/// All comes as the steps say.
#[derive(Clone, Copy)]
pub(super) struct Strictly {
    pub(super) steps: &'static [Step],
}

/// All comes as the steps say, until an allocation is refused. Then a call says that memory ran
/// out, and done again it gives what it does else; or the server is down, and what it keeps on its
/// disks is what it kept before the step, or after it. A batch that goes one by one may be cut
/// short after its first message, which is kept: what it led to is beside `down` then, and nothing
/// else ever does. A snapshot in steps may be given up: from then on its steps are idle.
#[derive(Clone, Copy)]
pub(super) struct AsFarAsMemoryGoes {
    pub(super) limit: usize,
    pub(super) steps: &'static [Step],
    /// All that comes of the batch that was cut short, if one may be.
    pub(super) cut_short: Option<&'static str>,
}

/// How far a step went.
#[derive(Clone, Copy, PartialEq, Eq)]
enum Went {
    Whole,
    Down,
    CutShort,
}

impl<R: Wait + Abort> Scene<R> for Strictly {
    fn play<S: Drop, O: Drop, H: Host<S, O>>(
        &self,
        rt: &R,
        alloc: Global,
        host: H,
    ) -> Result<(), AllocError> {
        let mut sessions = Sessions::new(alloc, host);
        let last = done_as_said(rt, alloc, &mut sessions, self.steps)?;
        assert_eq!(rt; sessions.into_host().into_kept(), last);
        Ok(())
    }
}

/// Does the steps; all comes as they say. Gives what the server is to keep after them.
pub(super) fn done_as_said<S: Drop, O: Drop, H: Host<S, O>, R: Wait + Abort>(
    rt: &R,
    alloc: Global,
    sessions: &mut Sessions<S, O, H>,
    steps: &[Step],
) -> Result<Kept, AllocError> {
    let mut last = (1, 0, 0);
    for step in steps {
        let (said, told, after) = *step;
        comes(rt, alloc, sessions, said, told)?;
        last = after;
    }
    Ok(last)
}

impl<R: Wait + Abort> Scene<R> for AsFarAsMemoryGoes {
    fn play<S: Drop, O: Drop, H: Host<S, O>>(
        &self,
        rt: &R,
        alloc: Global,
        host: H,
    ) -> Result<(), AllocError> {
        let mut sessions = Sessions::new(alloc, host);
        let mut before = (1, 0, 0);
        for step in self.steps {
            let (_, _, after) = *step;
            let went = step_taken(rt, alloc, &mut sessions, *step, self.cut_short)?;
            if went != Went::Down {
                before = after;
            }
            if went != Went::Whole {
                let disks = sessions.into_host().into_disks();
                return opened(rt, alloc, disks, self.limit, [before, after]);
            }
        }
        assert_eq!(rt; sessions.into_host().into_kept(), before);
        Ok(())
    }
}

// On these disks a server opens, and keeps what it kept before the step, or after it.
fn opened<R: Wait + Abort>(
    rt: &R,
    alloc: Global,
    disks: (MemDisk, MemDisk),
    limit: usize,
    kept: [Kept; 2],
) -> Result<(), AllocError> {
    let now = kept_after_crash(alloc, disks, limit, Torn::Kept);
    assert!(rt; now == Some(kept[0]) || now == Some(kept[1]), "{now:?}");
    Ok(())
}

// Does a step, once more if memory ran out for it. If the server is down, it stays so.
fn step_taken<S: Drop, O: Drop, H: Host<S, O>, R: Wait + Abort>(
    rt: &R,
    alloc: Global,
    sessions: &mut Sessions<S, O, H>,
    step: Step,
    cut_short: Option<&str>,
) -> Result<Went, AllocError> {
    let (said, told, _) = step;
    let came = done(rt, alloc, sessions, said)?;
    if is(&came, told) || (said == "step" && is(&came, "> idle\n")) {
        return Ok(Went::Whole);
    }
    if is(&came, "> memory\n") {
        comes(rt, alloc, sessions, said, told)?;
        return Ok(Went::Whole);
    }
    let is_cut = cut_short == Some(came.as_str());
    assert!(rt; is_cut || is(&came, "> down\n"), "{said}: {came}");
    comes(rt, alloc, sessions, "snapshot", "> down\n")?;
    Ok(if is_cut { Went::CutShort } else { Went::Down })
}

/// Does what is said; this comes of it.
pub(super) fn comes<S: Drop, O: Drop, H: Host<S, O>, R: Wait + Abort>(
    rt: &R,
    alloc: Global,
    sessions: &mut Sessions<S, O, H>,
    said: &str,
    told: &str,
) -> Result<(), AllocError> {
    let came = done(rt, alloc, sessions, said)?;
    assert!(rt; is(&came, told), "{said}: {came}");
    Ok(())
}

fn is(came: &String, told: &str) -> bool {
    came.as_str() == told
}

// Does what is said, and gives what comes of it.
fn done<S: Drop, O: Drop, H: Host<S, O>, R: Wait + Abort>(
    rt: &R,
    alloc: Global,
    sessions: &mut Sessions<S, O, H>,
    said: &str,
) -> Result<String, AllocError> {
    let mut came = String::new(alloc);
    match sessions.play(rt, alloc, said, &mut came) {
        Ok(()) => Ok(came),
        Err(WordsFault::Memory) => Err(AllocError),
        Err(WordsFault::Unknown) => panic!(rt; "{said}"),
    }
}
