//! A value that is made when it is first asked for.
ghost use Rattle.std.specs.Prelude.{◌≡◌, IsSome};
ghost use Rattle.band_sem.specs.Whole.{IsWhole};
ghost use Rattle.band_once.specs.Claims.{Nothing, KeepsCounted};
ghost use Rattle.band_once.specs.Lazy.{MayStart};

use band_base::{Polled, Steps, Waker};
use band_once::{LazyCell, OnceCell};
use std::sync::ledger::Ledger;

/// Asks once for the setting, and gives up where it would have to wait. No other call loses its place by that.
pub fn setting_now<P: Polled<Output = u64>, L: Ledger>(
    cell: &mut OnceCell<u64>,
    init: P,
    waker: Waker,
    steps: &mut Steps<L>,
) -> Option<u64>
    ensures value { result ≡ cell.new.value }
    ensures stays { IsSome cell.old.value → cell.new.value ≡ cell.old.value }
    ensures others { KeepsCounted Nothing Nothing cell.old.permit cell.new.permit }
    ensures whole { IsWhole 1 cell.new.permit }
{
    let mut call = cell.get_or_init(init);
    let _ = call.poll(cell, waker, steps);
    call.cancel(cell, steps);
    cell.get().copied()
}

/// The same of a lazy cell. What its attempt has come to stays with the cell, so the next who asks goes on from there.
pub fn forced_now<P: Polled<Output = u64>, F: FnOnce() -> P, L: Ledger>(
    cell: &mut LazyCell<u64, P, F>,
    waker: Waker,
    steps: &mut Steps<L>,
) -> Option<u64>
    requires { MayStart F.pre cell.old.attempt }
    ensures value { result ≡ cell.new.value }
    ensures callable { MayStart F.pre cell.new.attempt }
    ensures others { KeepsCounted Nothing Nothing cell.old.permit cell.new.permit }
    ensures whole { IsWhole 1 cell.new.permit }
{
    let mut call = cell.force();
    let _ = call.poll(cell, waker, steps);
    call.cancel(cell, steps);
    cell.get().copied()
}
