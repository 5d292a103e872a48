//! What the program answers if it is asked for nothing.
ghost use Rattle.std.specs.Prelude.{◌≡◌, ◌≢◌, ◌-◌, ◌^◌, ◌<◌};
ghost use Rattle.std.specs.Io.KnownBytes.{Keeps};
ghost use Rattle.heap_layout.specs.Counted.{failures_of};

use commands::run;
use heap_layout::Counted;
use std::io::Write;
use std::rt;
use std::sync::Wait;
use std::thread::Threads;

/// Runs the program on no words. The status is never that of a run that did something, and the output is as it was if
/// it is that of words that ask for nothing.
pub fn run_no_words<R: rt::Files + AllocGlobal + Threads + Wait + Sync, O: Write, E: Write>(
    rt: &R,
    out: &mut O,
    err: &mut Counted<&mut E>,
) -> u8
    requires { failures_of err.old < 2 ^ 64 - 1 }
    ensures undone { result ≢ 0 }
    ensures kept { result ≡ 2 → Keeps (O.contents out.old) (O.contents out.new) }
{
    run(rt, Vec::new(rt.alloc()), out, err)
}
