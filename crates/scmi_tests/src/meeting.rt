//! Two agents that wait for each other between the lines of their scripts.

use scmi_modes::{Gate, Kind, RunError, run_threads};
use std::alloc::Global;
use std::sync::Wait;
use std::sync::atomic::{AtomicU32, Ordering};
use std::test::Fail;
use std::thread::{Threads, yield_now};

/// How often an agent looks for the other.
const TURNS: u32 = 10_000_000;

const SCRIPTS: &[u8] = b"board V S 1 1
agent a
agent b
end
script 1
call 0x10 0
call 0x10 0
script 2
call 0x10 0
call 0x10 0
";

const LINES: &[u8] = b"1 got 0x00000000 0x00020000
1 got 0x00000000 0x00020000
2 got 0x00000000 0x00020000
2 got 0x00000000 0x00020000
";

/// Holds each agent before its line 2 until the other is there too.
#[derive(Drop)]
struct Meeting {
    first: AtomicU32,
    second: AtomicU32,
    met: AtomicU32,
}

impl Gate for Meeting {
    fn before<R: Wait>(&self, _rt: &R, agent: u32, line: u32) {
        if line != 2 {
            return;
        }
        if agent == 1 {
            self.wait_for(&self.first, &self.second);
        } else {
            self.wait_for(&self.second, &self.first);
        }
    }
}

impl Meeting {
    fn wait_for(&self, own: &AtomicU32, other: &AtomicU32) {
        own.store(1, Ordering::SeqCst);
        for _ in 0..TURNS {
            if other.load(Ordering::SeqCst) == 1 {
                self.met.fetch_add(1, Ordering::SeqCst);
                return;
            }
            yield_now();
        }
    }
}

/// How many agents have met over this kind of channel, and what was written.
fn meet<T: Threads + Wait + Sync>(
    rt: &T,
    alloc: Global,
    kind: Kind,
) -> Result<(u32, Vec<u8>), RunError> {
    let gate = Meeting {
        first: AtomicU32::new(0),
        second: AtomicU32::new(0),
        met: AtomicU32::new(0),
    };
    let mut output = Vec::new(alloc);
    run_threads(rt, alloc, &gate, &mut &*SCRIPTS, &mut output, kind)?;
    Ok((gate.met.load(Ordering::SeqCst), output))
}

#[test]
fn two_agents_meet(rt: HostRuntime) -> Result<(), Fail> {
    for kind in [Kind::Words, Kind::Rings] {
        let (met, output) = meet(&rt, rt.alloc(), kind)?;
        assert!(rt; met == 2 && output.as_slice() == LINES);
    }
    Ok(())
}
