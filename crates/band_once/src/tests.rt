//! What no clause says: that calls succeed, in small lives of each cell.
ghost use Rattle.std.specs.Prelude.{◌≡◌, ◌<◌};
ghost use Rattle.band_once.specs.Claims.{Nothing};
ghost use Rattle.band_once.specs.Lazy.{MayStart};

use crate::callers::{Call, Cell, cancels, over, polls, wakes};
use crate::plan::Plan;
use crate::{CellInitMut, CellTryInitMut, ForceMut, LazyCell, Once, OnceCell, ValueCell};
use band_base::{Poll, PollError, Steps, Waker};
use std::alloc::Global;
use std::marker::Brand;
use std::process::Abort;
use std::sync::ledger::{Blank, Ledger};

/// The permit is free: the next call has it, and its state gives the value at once.
fn the_next_fills_it<C: Cell, K: Call<C>, L: Ledger, R: Abort>(
    rt: &R,
    cell: &mut C,
    next: K,
    steps: &mut Steps<L>,
)
    requires new { K.claim next ≡ Nothing }
    requires may { C.may cell.old }
{
    let mut next = next;
    assert!(rt; !cell.is_filled());
    assert_eq!(rt; next.polls(cell, 8, steps), Some(true));
    assert_eq!(rt; next.polls(cell, 8, steps), None);
    next.cancels(cell, steps);
    assert!(rt; cell.is_filled());
    assert_eq!(rt; cell.wakes(), None);
}

/// A call is cancelled before its first poll.
fn before_its_first_poll<C: Cell, K: Call<C>, N: Call<C>, L: Ledger, R: Abort>(
    rt: &R,
    cell: &mut C,
    call: K,
    next: N,
    steps: &mut Steps<L>,
)
    requires call { K.claim call ≡ Nothing }
    requires next { N.claim next ≡ Nothing }
    requires may { C.may cell.old }
{
    call.cancels(cell, steps);
    the_next_fills_it(rt, cell, next, steps);
}

/// A call is cancelled while its state is polled.
fn while_it_drives<C: Cell, K: Call<C>, N: Call<C>, L: Ledger, R: Abort>(
    rt: &R,
    cell: &mut C,
    call: K,
    next: N,
    steps: &mut Steps<L>,
)
    requires call { K.claim call ≡ Nothing }
    requires next { N.claim next ≡ Nothing }
    requires may { C.may cell.old }
{
    let mut call = call;
    assert_eq!(rt; call.polls(cell, 1, steps), Some(false));
    call.cancels(cell, steps);
    the_next_fills_it(rt, cell, next, steps);
}

/// A call is cancelled while it waits for the permit, which another has.
fn while_it_waits<C: Cell, H: Call<C>, K: Call<C>, N: Call<C>, L: Ledger, R: Abort>(
    rt: &R,
    cell: &mut C,
    holder: H,
    call: K,
    next: N,
    steps: &mut Steps<L>,
)
    requires holder { H.claim holder ≡ Nothing }
    requires call { K.claim call ≡ Nothing }
    requires next { N.claim next ≡ Nothing }
    requires may { C.may cell.old }
{
    let mut holder = holder;
    let mut call = call;
    assert_eq!(rt; polls(cell, &mut holder, &call, 1, steps), Some(false));
    assert_eq!(rt; polls(cell, &mut call, &holder, 2, steps), Some(false));
    cancels(cell, call, &holder, steps);
    assert_eq!(rt; wakes(cell, &holder), None);
    holder.cancels(cell, steps);
    the_next_fills_it(rt, cell, next, steps);
}

/// A call is cancelled once it was granted the permit, which another gave back.
fn after_the_grant<C: Cell, H: Call<C>, K: Call<C>, N: Call<C>, L: Ledger, R: Abort>(
    rt: &R,
    cell: &mut C,
    holder: H,
    call: K,
    next: N,
    steps: &mut Steps<L>,
)
    requires holder { H.claim holder ≡ Nothing }
    requires call { K.claim call ≡ Nothing }
    requires next { N.claim next ≡ Nothing }
    requires may { C.may cell.old }
{
    let mut holder = holder;
    let mut call = call;
    assert_eq!(rt; polls(cell, &mut holder, &call, 1, steps), Some(false));
    assert_eq!(rt; polls(cell, &mut call, &holder, 2, steps), Some(false));
    cancels(cell, holder, &call, steps);
    assert_eq!(rt; wakes(cell, &call), Some(2));
    call.cancels(cell, steps);
    the_next_fills_it(rt, cell, next, steps);
}

/// Calls of a once are cancelled at each moment. After the value `the_next_fills_it` cancels one.
fn once_calls<L: Ledger, R: Abort>(rt: &R, alloc: Global, steps: &mut Steps<L>) {
    let mut once = Once::new(alloc, 5);
    let (call, next) = (
        once.call_once(Plan::Never),
        once.call_once(Plan::After(0, ())),
    );
    before_its_first_poll(rt, &mut once, call, next, steps);
    let mut once = Once::new(alloc, 5);
    let (call, next) = (
        once.call_once(Plan::Never),
        once.call_once(Plan::After(0, ())),
    );
    while_it_drives(rt, &mut once, call, next, steps);
    let mut once = Once::new(alloc, 5);
    let (holder, call) = (once.call_once(Plan::Never), once.call_once(Plan::Never));
    let next = once.call_once(Plan::After(0, ()));
    while_it_waits(rt, &mut once, holder, call, next, steps);
    let mut once = Once::new(alloc, 5);
    let (holder, call) = (once.call_once(Plan::Never), once.call_once(Plan::Never));
    let next = once.call_once(Plan::After(0, ()));
    after_the_grant(rt, &mut once, holder, call, next, steps);
}

/// The same of a once cell.
fn inits<L: Ledger, R: Abort>(rt: &R, alloc: Global, steps: &mut Steps<L>) {
    let mut cell = OnceCell::new(alloc, 5);
    let (call, next) = (
        cell.get_or_init(Plan::Never),
        cell.get_or_init(Plan::After(0, 7)),
    );
    before_its_first_poll(rt, &mut cell, call, next, steps);
    let mut cell = OnceCell::new(alloc, 5);
    let (call, next) = (
        cell.get_or_init(Plan::Never),
        cell.get_or_init(Plan::After(0, 7)),
    );
    while_it_drives(rt, &mut cell, call, next, steps);
    let mut cell = OnceCell::new(alloc, 5);
    let (holder, call) = (cell.get_or_init(Plan::Never), cell.get_or_init(Plan::Never));
    let next = cell.get_or_init(Plan::After(0, 7));
    while_it_waits(rt, &mut cell, holder, call, next, steps);
    let mut cell = OnceCell::new(alloc, 5);
    let (holder, call) = (cell.get_or_init(Plan::Never), cell.get_or_init(Plan::Never));
    let next = cell.get_or_init(Plan::After(0, 7));
    after_the_grant(rt, &mut cell, holder, call, next, steps);
}

/// The same with an initializer that may give an error.
fn try_inits<L: Ledger, R: Abort>(rt: &R, alloc: Global, steps: &mut Steps<L>) {
    let mut cell = OnceCell::new(alloc, 5);
    let (call, next) = (
        cell.get_or_try_init(Plan::Never),
        cell.get_or_try_init(Plan::After(0, Ok(7))),
    );
    before_its_first_poll(rt, &mut cell, call, next, steps);
    let mut cell = OnceCell::new(alloc, 5);
    let (call, next) = (
        cell.get_or_try_init(Plan::Never),
        cell.get_or_try_init(Plan::After(0, Ok(7))),
    );
    while_it_drives(rt, &mut cell, call, next, steps);
    let mut cell = OnceCell::new(alloc, 5);
    let (holder, call) = (
        cell.get_or_init(Plan::Never),
        cell.get_or_try_init(Plan::Never),
    );
    let next = cell.get_or_try_init(Plan::After(0, Ok(7)));
    while_it_waits(rt, &mut cell, holder, call, next, steps);
    let mut cell = OnceCell::new(alloc, 5);
    let (holder, call) = (
        cell.get_or_init(Plan::Never),
        cell.get_or_try_init(Plan::Never),
    );
    let next = cell.get_or_try_init(Plan::After(0, Ok(7)));
    after_the_grant(rt, &mut cell, holder, call, next, steps);
}

/// The same of a value that is put in, which is never polled for.
fn inserts<L: Ledger, R: Abort>(rt: &R, alloc: Global, steps: &mut Steps<L>) {
    let mut cell = OnceCell::new(alloc, 5);
    let (call, next) = (cell.try_insert(6), cell.try_insert(7));
    before_its_first_poll(rt, &mut cell, call, next, steps);
    let mut late = cell.try_insert(6);
    assert!(rt;
        matches!(
            late.poll(&mut cell, Waker(1), steps),
            Ok(Poll::Ready(Err(6)))
        )
    );
    late.lose();
    assert_eq!(rt; cell.get().copied(), Some(7));
    let mut cell = OnceCell::new(alloc, 5);
    let (holder, call) = (cell.get_or_init(Plan::Never), cell.try_insert(6));
    let next = cell.set(7);
    while_it_waits(rt, &mut cell, holder, call, next, steps);
    let mut cell = OnceCell::new(alloc, 5);
    let (holder, call) = (cell.get_or_init(Plan::Never), cell.try_insert(6));
    let next = cell.set(7);
    after_the_grant(rt, &mut cell, holder, call, next, steps);
}

/// The same of a lazy cell, whose attempt goes on after each.
fn forces<L: Ledger, R: Abort>(rt: &R, alloc: Global, steps: &mut Steps<L>) {
    let mut cell = LazyCell::new(alloc, 5, || Plan::After(0, 9));
    let (call, next) = (cell.force(), cell.force());
    before_its_first_poll(rt, &mut cell, call, next, steps);
    let mut cell = LazyCell::new(alloc, 5, || Plan::After(1, 9));
    let (call, next) = (cell.force(), cell.force());
    while_it_drives(rt, &mut cell, call, next, steps);
    assert_eq!(rt; cell.get().copied(), Some(9));
    let mut cell = LazyCell::new(alloc, 5, || Plan::After(1, 9));
    let (holder, call, next) = (cell.force(), cell.force(), cell.force());
    while_it_waits(rt, &mut cell, holder, call, next, steps);
    let mut cell = LazyCell::new(alloc, 5, || Plan::After(1, 9));
    let (holder, call, next) = (cell.force(), cell.force(), cell.force());
    after_the_grant(rt, &mut cell, holder, call, next, steps);
    let mut cell: LazyCell<u64, Plan<u64>, fn() -> Plan<u64>> = LazyCell::from_future(
        alloc,
        5,
        Plan::After(1, 9),
    );
    let (call, next) = (cell.force(), cell.force());
    while_it_drives(rt, &mut cell, call, next, steps);
    assert_eq!(rt; cell.get().copied(), Some(9));
}

/// The value of a lazy cell is there from the start: a call is over at its first poll, and makes no attempt.
fn a_value_from_the_start<L: Ledger, R: Abort>(rt: &R, alloc: Global, steps: &mut Steps<L>) {
    let mut cell: LazyCell<u64, Plan<u64>, fn() -> Plan<u64>> = LazyCell::from_value(alloc, 5, 9);
    let mut late = cell.force();
    assert_eq!(rt; late.polls(&mut cell, 1, steps), Some(true));
    late.lose();
    assert_eq!(rt; cell.get().copied(), Some(9));
}

/// The leader of a once is dropped while it drives, and the next does it. The wait hears of that alone.
fn a_dropped_leader<L: Ledger, R: Abort>(rt: &R, alloc: Global, steps: &mut Steps<L>) {
    let mut once = Once::new(alloc, 5);
    let mut leader = once.call_once(Plan::After(1, ()));
    let mut second = once.call_once(Plan::After(0, ()));
    let mut wait = once.wait();
    assert_eq!(rt;
        polls(&mut once, &mut leader, &second, 1, steps),
        Some(false)
    );
    assert_eq!(rt;
        polls(&mut once, &mut second, &leader, 2, steps),
        Some(false)
    );
    assert_eq!(rt; over(wait.poll(&mut once, Waker(3), steps)), Some(false));
    wait.lose();
    cancels(&mut once, leader, &second, steps);
    assert_eq!(rt; wakes(&mut once, &second), Some(2));
    assert_eq!(rt; second.polls(&mut once, 4, steps), Some(true));
    second.lose();
    assert_eq!(rt; once.wakes(), Some(3));
    assert_eq!(rt; once.wakes(), None);
    assert!(rt; once.is_completed());
}

/// A wait of a once is cancelled before its first poll, while it waits, and after it was ready.
fn waits_give_up<L: Ledger, R: Abort>(rt: &R, alloc: Global, steps: &mut Steps<L>) {
    let mut once = Once::new(alloc, 5);
    let fresh = once.wait();
    fresh.cancel(&mut once, steps);
    let mut waiting = once.wait();
    assert_eq!(rt; over(waiting.poll(&mut once, Waker(3), steps)), Some(false));
    waiting.cancel(&mut once, steps);
    let mut call = once.call_once(Plan::After(0, ()));
    assert_eq!(rt; call.polls(&mut once, 1, steps), Some(true));
    call.lose();
    let mut late = once.wait();
    assert_eq!(rt; over(late.poll(&mut once, Waker(4), steps)), Some(true));
    late.cancel(&mut once, steps);
    assert_eq!(rt; once.wakes(), None);
}

/// An error leaves the cell empty, and the next call fills it. One that comes too late has its value back.
fn a_failed_attempt<L: Ledger, R: Abort>(rt: &R, alloc: Global, steps: &mut Steps<L>) {
    let mut cell: OnceCell<u64> = OnceCell::new(alloc, 5);
    let mut fails = cell.get_or_try_init(Plan::After(0, Err(4u64)));
    assert!(rt;
        matches!(
            fails.poll(&mut cell, Waker(1), steps),
            Ok(Poll::Ready(Err(4)))
        )
    );
    fails.lose();
    assert!(rt; cell.get().is_none());
    let mut fills = cell.get_or_init(Plan::After(0, 5));
    assert_eq!(rt; fills.polls(&mut cell, 1, steps), Some(true));
    fills.lose();
    let mut late = cell.set(6);
    assert!(rt;
        matches!(
            late.poll(&mut cell, Waker(1), steps),
            Ok(Poll::Ready(Err(6)))
        )
    );
    late.lose();
    assert_eq!(rt; cell.get().copied(), Some(5));
    match cell.try_clone(6) {
        Ok(copy) => assert!(rt; copy == cell),
        Err(_) => panic!(rt; "out of memory"),
    }
}

/// A state that fails is not done with: its call keeps it, and another may fill the cell once that is cancelled.
fn a_fault<L: Ledger, R: Abort>(rt: &R, alloc: Global, steps: &mut Steps<L>) {
    let mut cell = OnceCell::new(alloc, 5);
    let mut call = cell.get_or_init(Plan::Faulty);
    assert!(rt;
        matches!(
            call.poll(&mut cell, Waker(1), steps),
            Err(PollError::Driven)
        )
    );
    assert!(rt;
        matches!(
            call.poll(&mut cell, Waker(1), steps),
            Err(PollError::Driven)
        )
    );
    call.cancel(&mut cell, steps);
    let mut next = cell.get_or_init(Plan::After(0, 5));
    assert_eq!(rt; next.polls(&mut cell, 1, steps), Some(true));
    next.lose();
    if cell.is_idle() {
        assert_eq!(rt; cell.take(), Some(5));
    }
    assert!(rt; cell.get().is_none());
}

/// A poll of a call of an idle cell; none where it fails.
fn polls_idle<L: Ledger>(
    cell: &mut OnceCell<u64>,
    call: &mut CellInitMut<Plan<u64>>,
    steps: &mut Steps<L>,
) -> Option<bool> {
    if !cell.is_idle() {
        return None;
    }
    over(call.poll(cell, Waker(1), steps))
}

/// The same with an initializer that may give an error, and all of the answer.
fn tries_idle<L: Ledger>(
    cell: &mut OnceCell<u64>,
    call: &mut CellTryInitMut<Plan<Result<u64, u64>>>,
    steps: &mut Steps<L>,
) -> Option<Poll<Result<(), u64>>> {
    if !cell.is_idle() {
        return None;
    }
    call.poll(cell, Waker(1), steps).ok()
}

/// Calls that need no permit are cancelled at each moment, and one fills the cell. The next is over at once.
fn calls_of_an_idle_cell<L: Ledger, R: Abort>(rt: &R, alloc: Global, steps: &mut Steps<L>) {
    let mut cell: OnceCell<u64> = OnceCell::new(alloc, 5);
    cell.get_mut_or_init(Plan::Never).cancel(&mut cell, steps);
    let mut drives = cell.get_mut_or_init(Plan::Never);
    assert_eq!(rt; polls_idle(&mut cell, &mut drives, steps), Some(false));
    drives.cancel(&mut cell, steps);
    let mut fails = cell.get_mut_or_try_init(Plan::After(1, Err(4)));
    assert!(rt;
        matches!(
            tries_idle(&mut cell, &mut fails, steps),
            Some(Poll::Pending)
        )
    );
    assert!(rt;
        matches!(
            tries_idle(&mut cell, &mut fails, steps),
            Some(Poll::Ready(Err(4)))
        )
    );
    assert!(rt; tries_idle(&mut cell, &mut fails, steps).is_none());
    fails.cancel(&mut cell, steps);
    assert!(rt; cell.get().is_none());
    let mut fills = cell.get_mut_or_init(Plan::After(0, 7));
    assert_eq!(rt; polls_idle(&mut cell, &mut fills, steps), Some(true));
    fills.lose();
    assert_eq!(rt; cell.get().copied(), Some(7));
    let mut late = cell.get_mut_or_try_init(Plan::Never);
    assert!(rt;
        matches!(
            tries_idle(&mut cell, &mut late, steps),
            Some(Poll::Ready(Ok(())))
        )
    );
    late.lose();
    if let Some(value) = cell.get_mut() {
        *value = 8;
    }
    assert!(rt; cell == OnceCell::from_value(alloc, 6, 8));
    if cell.is_idle() {
        assert_eq!(rt; cell.into_inner(), Some(8));
    }
}

/// A poll of a call of an idle lazy cell; none where it fails.
fn forces_idle<F: FnOnce() -> Plan<u64>, L: Ledger>(
    cell: &mut LazyCell<u64, Plan<u64>, F>,
    call: &mut ForceMut,
    steps: &mut Steps<L>,
) -> Option<bool>
    requires { MayStart F.pre cell.old.attempt }
    ensures { MayStart F.pre cell.new.attempt }
{
    if !cell.is_idle() {
        return None;
    }
    over(call.poll(cell, Waker(1), steps))
}

/// The attempt of a lazy cell outlives the call that began it.
fn one_attempt<L: Ledger, R: Abort>(rt: &R, alloc: Global, steps: &mut Steps<L>) {
    let mut cell = LazyCell::new(alloc, 5, || Plan::After(2, 9));
    let mut first = cell.force_mut();
    assert_eq!(rt; forces_idle(&mut cell, &mut first, steps), Some(false));
    first.cancel(&mut cell, steps);
    let mut second = cell.force();
    assert_eq!(rt; second.polls(&mut cell, 1, steps), Some(false));
    second.cancels(&mut cell, steps);
    let mut third = cell.force_mut();
    assert_eq!(rt; forces_idle(&mut cell, &mut third, steps), Some(true));
    assert_eq!(rt; forces_idle(&mut cell, &mut third, steps), None);
    third.lose();
    assert_eq!(rt; cell.get().copied(), Some(9));
    if let Some(value) = cell.get_mut() {
        *value = 10;
    }
    assert_eq!(rt; cell.get().copied(), Some(10));
}

#[test]
fn a_value_cell_has_one(rt: HostRuntime) {
    let mut cell = ValueCell::new();
    assert!(rt; !cell.is_initialized());
    assert_eq!(rt; *cell.set(3u64), 3);
    if let Some(value) = cell.get_mut() {
        *value = 4;
    }
    assert_eq!(rt; cell.get().copied(), Some(4));
    assert_eq!(rt; cell.take(), Some(4));
    assert_eq!(rt; ValueCell::from_value(5u64).into_inner(), Some(5));
}

fn each_moment<L: Ledger, R: Abort>(rt: &R, alloc: Global, blank: Blank)
    requires name { blank.name ≡ L.name }
    requires parts { blank.parts ≡ L.parts }
    requires some { 0 < blank.parts }
{
    let mut steps: Steps<L> = Steps::new(blank);
    once_calls(rt, alloc, &mut steps);
    inits(rt, alloc, &mut steps);
    try_inits(rt, alloc, &mut steps);
    inserts(rt, alloc, &mut steps);
    forces(rt, alloc, &mut steps);
    waits_give_up(rt, alloc, &mut steps);
}

#[test]
fn calls_end_at_each_moment(rt: HostRuntime) {
    each_moment::<Brand, HostRuntime>(&rt, rt.alloc(), Blank::new(1));
}

fn each_life<L: Ledger, R: Abort>(rt: &R, alloc: Global, blank: Blank)
    requires name { blank.name ≡ L.name }
    requires parts { blank.parts ≡ L.parts }
    requires some { 0 < blank.parts }
{
    let mut steps: Steps<L> = Steps::new(blank);
    a_dropped_leader(rt, alloc, &mut steps);
    a_failed_attempt(rt, alloc, &mut steps);
    a_fault(rt, alloc, &mut steps);
    a_value_from_the_start(rt, alloc, &mut steps);
    calls_of_an_idle_cell(rt, alloc, &mut steps);
    one_attempt(rt, alloc, &mut steps);
}

#[test]
fn cells_live(rt: HostRuntime) {
    each_life::<Brand, HostRuntime>(&rt, rt.alloc(), Blank::new(1));
}
