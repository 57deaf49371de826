//! Wakers in the order in which they were pushed, of which the first need no memory.
ghost use Rattle.std.specs.Prelude.{◌≡◌, ◌<◌, ◌≤◌, ◌↔◌, [], ◌∷◌, ◌++◌, length, map, IsTrue, OnOk, OnErr, IsOk};
ghost use Rattle.band_line.specs.Wakers.{pushed_all, waker_of};

use arrayvec::ArrayVec;
use band_base::{WakeLine, Waker};
use std::alloc::{AllocError, Global};
use std::marker::Model;

/// Wakers in the order in which they were pushed. The first `STACK_SIZE` of them need no memory. Ports
/// `WakerBatch`.
#[derive(Drop)]
pub struct WakerBatch {
    /// The numbers of the first. An `ArrayVec` wants a default to be cleared, which a `Waker` doesn't have.
    inline: ArrayVec<u64, { WakerBatch::STACK_SIZE }>,
    /// The numbers of those that came when `inline` was full.
    spilled: Vec<u64>,
}

impl Model for WakerBatch {
    ghost use Rattle.std.specs.Prelude.{◌≡◌, ◌≢◌, [], List, ◌++◌, map, length};
    ghost use Rattle.band_base.specs.declared.waker.Waker.{Waker};
    ghost use Rattle.band_line.specs.Wakers.{waker_of};

    ghost Value = { List Waker };

    ghost view = { λ batch. map waker_of (batch.inline.items ++ batch.spilled.items) };

    ghost invariant = { λ batch. length batch.inline.items ≢ 32 → batch.spilled.items ≡ [] };
}

const _: () = prove!(WakerBatch::STACK_SIZE == 32);

impl WakerBatch {
    /// How many wakers need no memory.
    pub const STACK_SIZE: usize = 32;

    /// No waker. It takes no memory.
    pub fn new(alloc: Global) -> WakerBatch
        ensures { result ≡ [] }
    {
        WakerBatch {
            inline: ArrayVec::new(),
            spilled: Vec::new(alloc),
        }
    }

    /// Whether the next push may need memory.
    pub fn will_spill(&self) -> bool
        ensures { IsTrue result ↔ (WakerBatch.STACK_SIZE ≤ length self.now) }
    {
        self.inline.is_full()
    }

    /// Adds a waker at the end.
    pub fn push(&mut self, waker: Waker) -> Result<(), AllocError>
        ensures ok { OnOk result (self.new ≡ self.old ++ waker ∷ []) }
        ensures err { OnErr result (self.new ≡ self.old) }
        ensures inline { length self.old < WakerBatch.STACK_SIZE → IsOk result }
    {
        if self.inline.is_full() {
            self.spilled.push(waker.0)?;
        } else {
            self.inline.push(waker.0);
        }
        Ok(())
    }

    /// Adds all to the wakers to wake, in their order. The batch is empty. It keeps its memory, which is not
    /// promised.
    pub fn wake_all(&mut self, out: &mut WakeLine)
        requires { length self.old ≤ out.old.spare }
        ensures woken { out.new ≡ pushed_all self.old out.old }
        ensures empty { self.new ≡ [] }
    {
        wake_each(self.inline.as_slice(), out);
        wake_each(self.spilled.as_slice(), out);
        self.inline.clear();
        self.spilled.clear();
    }
}

fn wake_each(numbers: &[u64], out: &mut WakeLine)
    requires { length numbers.now ≤ out.old.spare }
    ensures { out.new ≡ pushed_all (map waker_of numbers.now) out.old }
{
    for number in numbers {
        out.push(Waker(*number));
    }
}
