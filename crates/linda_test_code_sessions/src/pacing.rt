//! Snapshots that are due: by the records since the last one, and if it was put off by their bytes
//! too.

use super::script::Sessions;
use super::steps::comes;
use linda_test_server::{Host, ROOMY, Scene, play};
use std::alloc::{AllocError, Global};
use std::process::Abort;
use std::sync::Wait;

/// Lines of which some are puts of client 7, each a record of 32 bytes, and whether a snapshot is
/// due after them.
#[derive(Clone, Copy)]
struct Turn {
    line: &'static str,
    puts: u64,
    due: &'static str,
}

const DUE: &str = "> pays true\n";

const NOT_DUE: &str = "> pays false\n";

/// A new bank has 33 bytes before its last gate. It is due with 1,024 records; if it was put off,
/// with 1,024 more, or with so many bytes: 3 records have 96, and 4 have 128. It is not if its
/// records have fewer bytes than it had when it was new: 2,052 of them are 65,664, after 33.
const TURNS: &[Turn] = &[
    Turn {
        line: "",
        puts: 1_023,
        due: NOT_DUE,
    },
    Turn {
        line: "",
        puts: 1,
        due: DUE,
    },
    Turn {
        line: "off 100",
        puts: 3,
        due: NOT_DUE,
    },
    Turn {
        line: "",
        puts: 1,
        due: DUE,
    },
    Turn {
        line: "off 1000000",
        puts: 1_023,
        due: NOT_DUE,
    },
    Turn {
        line: "",
        puts: 1,
        due: DUE,
    },
    Turn {
        line: "from 32849",
        puts: 0,
        due: NOT_DUE,
    },
    Turn {
        line: "from 32848",
        puts: 0,
        due: DUE,
    },
];

#[derive(Clone, Copy)]
struct Pacing;

impl<R: Wait + Abort> Scene<R> for Pacing {
    fn play<S: Drop, O: Drop, H: Host<S, O>>(
        &self,
        rt: &R,
        alloc: Global,
        host: H,
    ) -> Result<(), AllocError> {
        let mut sessions = Sessions::new(alloc, host);
        comes(
            rt,
            alloc,
            &mut sessions,
            "greet hello 2 7 fresh",
            "> 7 welcome 0\n",
        )?;
        let mut last = 0;
        for turn in TURNS {
            if turn.line != "" {
                comes(rt, alloc, &mut sessions, turn.line, "")?;
            }
            puts(rt, alloc, &mut sessions, last, turn.puts)?;
            last = last.saturating_add(turn.puts);
            comes(rt, alloc, &mut sessions, "pays", turn.due)?;
        }
        Ok(())
    }
}

// Client 7 puts so many tuples, one by one, under the numbers after the last one.
fn puts<S: Drop, O: Drop, H: Host<S, O>, R: Wait + Abort>(
    rt: &R,
    alloc: Global,
    sessions: &mut Sessions<S, O, H>,
    last: u64,
    count: u64,
) -> Result<(), AllocError> {
    let end = last.saturating_add(count);
    for n in last.saturating_add(1)..=end {
        let said = format!(in alloc; "7 out {n} (\"a\", 3)")?;
        let told = format!(in alloc; "> 7 did {n}\n> 7 stored {n} {n}\n")?;
        comes(rt, alloc, sessions, said.as_str(), told.as_str())?;
    }
    Ok(())
}

#[test]
fn a_snapshot_is_due_by_records_and_by_bytes(rt: HostRuntime) -> Result<(), AllocError> {
    play(&rt, rt.alloc(), ROOMY, &Pacing)
}
