//! Two scripts of `examples/`, with their transcripts, and one that is made.
ghost use Rattle.std.specs.Prelude.{◌<◌};

use std::alloc::{AllocError, Global};
use std::fmt::Write;

/// `examples/first`.
pub(crate) const FIRST: &str = "sem s 1\nask a s 2 7\nask b s 1 8\ndrop a\npoll b 9\n";

pub(crate) const FIRST_OUT: &str = "ok\npending\npending\nok\nwake 8\nready\n";

/// `examples/locks`.
pub(crate) const LOCKS: &str =
    "sem conn 2\nmutex log\nrw cfg\nask c1 conn 1 101\nask c2 conn 1 102\nask c3 conn 1 103\nlock g1 log 101\nlock g2 log 102\nread r1 cfg 101\nread r2 cfg 102\nwrite w1 cfg 103\ntryread r3 cfg\ndrop g1\npoll g2 102\ndrop w1\ntryread r3 cfg\ndrop c1\ndrop c3\nstatus conn\nstatus cfg\n";

pub(crate) const LOCKS_OUT: &str =
    "ok\nok\nok\nready\nready\npending\nready\npending\nready\nready\npending\nnone\nok\nwake 102\nready\nok\nok\nok\nwake 103\nok\navailable 1 free 1 waiting 0 granted 0 held 1\navailable 9223372036854775804 free 9223372036854775804 waiting 0 granted 0 held 3\n";

/// A script on which tasks wait and are woken at once, and its transcript.
#[derive(Drop)]
pub(crate) struct Burst {
    pub(crate) script: String,
    pub(crate) written: String,
}

/// `tasks` requests that wait, and a release for all of them and 2 more. With 65 it is `examples/burst`.
pub(crate) fn make_burst(alloc: Global, tasks: u64) -> Result<Burst, AllocError>
    requires { tasks < 1000 }
{
    let mut script = String::from_str(alloc, "sem s 0\n")?;
    let mut written = String::from_str(alloc, "ok\n")?;
    for i in 1..=tasks {
        writeln!(script, "ask r{i} s 1 {i}")?;
        written.push_str("pending\n")?;
    }
    writeln!(script, "release s {}", tasks + 2)?;
    script.push_str("status s\n")?;
    written.push_str("ok\n")?;
    for i in 1..=tasks {
        writeln!(written, "wake {i}")?;
    }
    writeln!(
        written,
        "available 2 free 2 waiting 0 granted {tasks} held 0"
    )?;
    Ok(Burst { script, written })
}
