//! The calls that the lines of a script stand for.
ghost use Rattle.std.specs.Prelude.{◌≡◌};

use crate::Name;

/// What a line asks for.
#[derive(Debug, Clone, Drop, PartialEq, Eq)]
pub enum Call {
    /// `sem S N`: makes a semaphore of `n` permits.
    Sem {
        made: Name,
        n: u64,
    },
    /// `mutex M`: makes a mutex.
    Mutex {
        made: Name,
    },
    /// `rw L`, `rw L N`: makes a reader-writer lock for at most `n` readers at a time, or for 2 to the 63rd less one.
    Rw {
        made: Name,
        n: Option<u64>,
    },
    /// `ask R S N W`: asks a semaphore for `n` permits, and polls once with a waker.
    Ask {
        made: Name,
        of: Name,
        n: u64,
        waker: u64,
    },
    /// `lock R M W`: asks for a mutex, and polls once with a waker.
    Lock {
        made: Name,
        of: Name,
        waker: u64,
    },
    /// `read R L W`: asks to read, and polls once with a waker.
    Read {
        made: Name,
        of: Name,
        waker: u64,
    },
    /// `write R L W`: asks to write, and polls once with a waker.
    Write {
        made: Name,
        of: Name,
        waker: u64,
    },
    /// `poll R W`: polls a request again.
    Poll {
        name: Name,
        waker: u64,
    },
    /// `drop X`: lets go of what has the name.
    Drop {
        name: Name,
    },
    /// `try P S N`: takes `n` permits of a semaphore without waiting.
    Try {
        made: Name,
        of: Name,
        n: u64,
    },
    /// `trylock G M`: locks a mutex without waiting.
    TryLock {
        made: Name,
        of: Name,
    },
    /// `tryread G L`: takes the right to read without waiting.
    TryRead {
        made: Name,
        of: Name,
    },
    /// `trywrite G L`: takes the right to write without waiting.
    TryWrite {
        made: Name,
        of: Name,
    },
    /// `release S N`: adds `n` permits to a semaphore.
    Release {
        of: Name,
        n: u64,
    },
    /// `reduce S N`: takes `n` permits away for good, into debt if need be.
    Reduce {
        of: Name,
        n: u64,
    },
    /// `drain S N`: takes away what is available, `n` at most.
    Drain {
        of: Name,
        n: u64,
    },
    /// `close S`: closes a semaphore.
    Close {
        of: Name,
    },
    /// `forget P`: ends a permit, and nothing comes back.
    Forget {
        name: Name,
    },
    /// `split P Q N`: moves `n` of a permit to a new one.
    Split {
        name: Name,
        made: Name,
        n: u64,
    },
    /// `merge P Q`: moves all of the second permit to the first.
    Merge {
        kept: Name,
        spent: Name,
    },
    /// `downgrade G`: makes the right to write one to read.
    Downgrade {
        name: Name,
    },
    /// `status O`: the figures of an object.
    Status {
        name: Name,
    },
}

impl Call {
    /// The same call again. It takes no memory.
    pub fn copy(&self) -> Call
        ensures { result ≡ self.now }
    {
        self.clone().unwrap()
    }
}
