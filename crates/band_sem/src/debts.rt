//! What is owed stands in the line, and is paid before anybody is served: worked lives of a semaphore.
ghost use Rattle.std.specs.Prelude.{◌≡◌, ◌<◌};

use crate::lives::Call::{Ask, Cancel, Reduce, Refused, Release};
use crate::lives::lives;
use band_base::Steps;
use std::alloc::Global;
use std::marker::Brand;
use std::process::Abort;
use std::sync::ledger::{Blank, Ledger};

/// The debt that was made last is paid first, also in part. A debt that is paid leaves no node.
fn debts_are_paid<L: Ledger, R: Abort>(rt: &R, alloc: Global, steps: &mut Steps<L>) {
    let life = [
        (Reduce(3), -2, [0, 0, 0, 1]),
        (Reduce(4), -6, [0, 0, 0, 2]),
        (Release(3), -3, [0, 0, 0, 2]),
        (Release(1), -2, [0, 0, 0, 1]),
        (Reduce(1), -3, [0, 0, 0, 2]),
        (Release(4), 1, [1, 0, 0, 0]),
    ];
    lives(rt, alloc, 1, &life, &[], steps);
    let thrice = [
        (Reduce(1), -1, [0, 0, 0, 1]),
        (Release(1), 0, [0, 0, 0, 0]),
        (Reduce(1), -1, [0, 0, 0, 1]),
        (Release(1), 0, [0, 0, 0, 0]),
        (Reduce(1), -1, [0, 0, 0, 1]),
        (Release(1), 0, [0, 0, 0, 0]),
    ];
    lives(rt, alloc, 0, &thrice, &[], steps);
}

/// A debt is paid before the share of one that waits grows, and leaves that share alone. A cancel gives that back.
fn shares_stay<L: Ledger, R: Abort>(rt: &R, alloc: Global, steps: &mut Steps<L>) {
    let grows = [
        (Ask(3, 7), 1, [0, 1, 0, 1]),
        (Reduce(2), -1, [0, 1, 0, 2]),
        (Release(2), 1, [0, 1, 0, 1]),
        (Release(1), 2, [0, 1, 0, 1]),
        (Cancel, 2, [2, 0, 0, 0]),
    ];
    lives(rt, alloc, 1, &grows, &[], steps);
    let comes_back = [
        (Ask(3, 7), 1, [0, 1, 0, 1]),
        (Reduce(2), -1, [0, 1, 0, 2]),
        (Release(2), 1, [0, 1, 0, 1]),
        (Cancel, 1, [1, 0, 0, 0]),
    ];
    lives(rt, alloc, 1, &comes_back, &[], steps);
}

/// All that can be owed is owed under one that has a share, and is paid before it.
fn the_most_is_owed<L: Ledger, R: Abort>(rt: &R, alloc: Global, steps: &mut Steps<L>) {
    let life = [
        (Ask(5, 7), 2, [0, 1, 0, 1]),
        (Reduce(u64::MAX), -18_446_744_073_709_551_613, [0, 1, 0, 2]),
        (Refused(3), -18_446_744_073_709_551_613, [0, 1, 0, 2]),
        (Reduce(2), -18_446_744_073_709_551_615, [0, 1, 0, 3]),
        (Refused(1), -18_446_744_073_709_551_615, [0, 1, 0, 3]),
        (Release(3), -18_446_744_073_709_551_612, [0, 1, 0, 2]),
        (Release(u64::MAX - 1), 2, [0, 1, 0, 1]),
        (Release(3), 0, [0, 0, 5, 1]),
    ];
    lives(rt, alloc, 2, &life, &[7], steps);
}

/// The share of the first that waits pays what is owed, and then serves the next.
fn cancelled_shares_pay<L: Ledger, R: Abort>(rt: &R, alloc: Global, steps: &mut Steps<L>) {
    let enough = [
        (Ask(5, 1), 3, [0, 1, 0, 1]),
        (Ask(1, 2), 3, [0, 2, 0, 2]),
        (Reduce(2), 1, [0, 2, 0, 3]),
        (Cancel, 0, [0, 0, 1, 1]),
    ];
    lives(rt, alloc, 3, &enough, &[2], steps);
    let too_little = [
        (Ask(4, 1), 1, [0, 1, 0, 1]),
        (Ask(1, 2), 1, [0, 2, 0, 2]),
        (Reduce(3), -2, [0, 2, 0, 3]),
        (Cancel, -2, [0, 1, 0, 2]),
        (Release(2), 0, [0, 1, 0, 1]),
        (Release(1), 0, [0, 0, 1, 1]),
    ];
    lives(rt, alloc, 1, &too_little, &[2], steps);
    let several = [
        (Ask(9, 1), 6, [0, 1, 0, 1]),
        (Reduce(1), 5, [0, 1, 0, 2]),
        (Reduce(2), 3, [0, 1, 0, 3]),
        (Cancel, 3, [3, 0, 0, 0]),
    ];
    lives(rt, alloc, 6, &several, &[], steps);
}

/// What was granted to one that gives up pays what is owed, and then serves the next.
fn cancelled_grants_pay<L: Ledger, R: Abort>(rt: &R, alloc: Global, steps: &mut Steps<L>) {
    let life = [
        (Ask(4, 1), 0, [0, 1, 0, 1]),
        (Release(4), 0, [0, 0, 4, 1]),
        (Ask(1, 2), 0, [0, 1, 4, 2]),
        (Reduce(3), -3, [0, 1, 4, 3]),
        (Cancel, 0, [0, 0, 1, 1]),
    ];
    lives(rt, alloc, 0, &life, &[1, 2], steps);
}

/// One that asks for what is owed waits behind the debt.
fn who_asks_waits<L: Ledger, R: Abort>(rt: &R, alloc: Global, steps: &mut Steps<L>) {
    let life = [
        (Reduce(1), -1, [0, 0, 0, 1]),
        (Ask(1, 7), -1, [0, 1, 0, 2]),
        (Release(1), 0, [0, 1, 0, 1]),
        (Release(2), 1, [1, 0, 1, 1]),
    ];
    lives(rt, alloc, 0, &life, &[7], steps);
}

fn each<L: Ledger, R: Abort>(rt: &R, alloc: Global, blank: Blank)
    requires name { blank.name ≡ L.name }
    requires parts { blank.parts ≡ L.parts }
    requires some { 0 < blank.parts }
{
    let mut steps: Steps<L> = Steps::new(blank);
    debts_are_paid(rt, alloc, &mut steps);
    shares_stay(rt, alloc, &mut steps);
    the_most_is_owed(rt, alloc, &mut steps);
    cancelled_shares_pay(rt, alloc, &mut steps);
    cancelled_grants_pay(rt, alloc, &mut steps);
    who_asks_waits(rt, alloc, &mut steps);
}

#[test]
fn debts_stand_first(rt: HostRuntime) {
    each::<Brand, HostRuntime>(&rt, rt.alloc(), Blank::new(1));
}
