//! As many messages at once as may go are one record.

use super::batches::is_at;
use super::script::Sessions;
use linda_test_server::{Host, ROOMY, Scene, play};
use std::alloc::{AllocError, Global};
use std::process::Abort;
use std::sync::Wait;

/// As many messages as may go at once.
const MOST: u64 = 64;

// A line that puts as many tuples of client 7 at once.
fn many_puts(alloc: Global) -> Result<String, AllocError> {
    let mut line = String::from_str(alloc, "all 7 out 1 (\"a\", 1)")?;
    for n in 2..MOST + 1 {
        write!(line, "; 7 out {n} (\"a\", {n})")?;
    }
    Ok(line)
}

/// A put is 27 bytes of a record, so all of them are 1,728, which is 6 and 0xc0.
#[derive(Clone, Copy)]
struct Largest;

impl<R: Wait + Abort> Scene<R> for Largest {
    fn play<S: Drop, O: Drop, H: Host<S, O>>(
        &self,
        rt: &R,
        alloc: Global,
        host: H,
    ) -> Result<(), AllocError> {
        let mut sessions = Sessions::new(alloc, host);
        let mut came = String::new(alloc);
        let line = many_puts(alloc)?;
        for said in ["greet hello 2 7 fresh", line.as_str()] {
            assert!(rt; sessions.play(rt, alloc, said, &mut came).is_ok());
        }
        let (left, _) = sessions.into_host().into_disks();
        let bytes = left.bytes();
        assert_eq!(rt; bytes.len(), 1_767);
        assert!(rt; is_at(bytes, 33, 1) && is_at(bytes, 36, 6) && is_at(bytes, 37, 0xc0));
        Ok(())
    }
}

#[test]
fn a_batch_of_the_greatest_size_is_one_record(rt: HostRuntime) -> Result<(), AllocError> {
    play(&rt, rt.alloc(), ROOMY, &Largest)
}
