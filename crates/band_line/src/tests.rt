//! What no clause says: that calls succeed where memory is left, and that the words mean what is done to
//! plain vectors.
ghost use Rattle.std.specs.Prelude.{◌≡◌, ◌+◌, ◌<◌, length, IsSome, IfSome, OnOk};
ghost use Rattle.band_line.specs.WaitList.{waiter_at};

use crate::{Arena, SlotId, WaitList, WaiterId, WakerBatch, WakerSet, WakerToken, register_waker};
use band_base::{Steps, WakeLine, Waker};
use std::alloc::{AllocError, Global};
use std::marker::Brand;
use std::mem;
use std::process::Abort;
use std::sync::ledger::{Blank, Ledger};
use std::test::Fail;

/// A node is asked in vain.
fn stays<L: Ledger>(list: &mut WaitList<u64>, id: WaiterId, steps: &mut Steps<L>) -> bool
    requires { IsSome (waiter_at id list.old) }
    ensures { list.new ≡ list.old }
{
    match list.unlink_waiter(id, |_| false, steps) {
        Some(_) => false,
        None => true,
    }
}

/// The first is asked in vain, if anybody waits.
fn first_stays<L: Ledger>(list: &mut WaitList<u64>, steps: &mut Steps<L>) -> bool {
    match list.unlink_first_waiter(|_| false, steps) {
        Some(_) => false,
        None => true,
    }
}

/// A node leaves the line and the list. Its value is what the unlink lends and what the removal answers.
fn leaves<L: Ledger>(list: &mut WaitList<u64>, id: WaiterId, steps: &mut Steps<L>) -> (u64, u64)
    requires { IsSome (waiter_at id list.old) }
{
    match list.unlink_waiter(id, |_| true, steps) {
        Some(value) => {
            let lent = *value;
            (lent, list.remove_unlinked_waiter(id, steps))
        }
        None => unreachable!(),
    }
}

/// The first leaves, if anybody waits, and its value is the answer.
fn first_leaves<L: Ledger>(list: &mut WaitList<u64>, steps: &mut Steps<L>) -> Option<u64> {
    let first = list.first()?;
    match list.unlink_first_waiter(|_| true, steps) {
        Some(_) => Some(list.remove_unlinked_waiter(first, steps)),
        None => unreachable!(),
    }
}

/// Ids are copied and compared.
fn ids_are_told_apart<I: Copy + Eq, R: Abort>(rt: &R, id: I, other: I) {
    let copy = id;
    assert!(rt; id == copy && id != other);
}

/// Room begins at one and grows twofold, and there are no more slots than numbers for them.
fn room_grows_twofold<L: Ledger, R: Abort>(
    rt: &R,
    alloc: Global,
    steps: &mut Steps<L>,
) -> Result<(), Fail> {
    let mut arena = Arena::new(alloc);
    for spare in [1, 1, 2, 1, 4] {
        arena.reserve(1)?;
        assert_eq!(rt; arena.spare(), spare);
        arena.insert(spare, steps);
    }
    assert!(rt; arena.reserve(u64::MAX).is_err());
    assert!(rt; arena.reserve(SlotId::LIMIT - 4).is_err());
    assert!(rt; Arena::<u64>::with_capacity(alloc, SlotId::LIMIT + 1).is_err());
    Ok(())
}

/// Slots are given again, the one vacated last first, and from the first on once all values were taken.
fn slots_are_given_again<L: Ledger, R: Abort>(
    rt: &R,
    alloc: Global,
    steps: &mut Steps<L>,
) -> Result<(), Fail> {
    let mut arena = Arena::with_capacity(alloc, 3)?;
    let first = arena.insert(1, steps);
    let second = arena.insert(2, steps);
    let third = arena.insert(3, steps);
    ids_are_told_apart(rt, first, third);
    assert_eq!(rt; arena.remove(second, steps), 2);
    assert_eq!(rt; arena.get(second, steps), None);
    let mut values = arena.take_all();
    assert_eq!(rt;
        (values.next(), values.next(), values.next()),
        (Some(1), Some(3), None)
    );
    assert_eq!(rt; (arena.len(), arena.spare()), (0, 0));
    assert!(rt; arena.is_empty());
    arena.reserve(3)?;
    let again = [
        arena.insert(4, steps),
        arena.insert(5, steps),
        arena.insert(6, steps),
    ];
    assert!(rt; again == [first, second, third]);
    arena.remove(first, steps);
    assert!(rt; arena.insert(7, steps) == first);
    if let Some(value) = arena.get_mut(third, steps) {
        *value += 10;
    }
    assert_eq!(rt;
        arena.into_iter().collect::<Vec<u64>>(alloc)?.as_slice(),
        [7, 5, 16].as_slice()
    );
    Ok(())
}

/// Who joins in front is first.
fn front_is_first<L: Ledger, R: Abort>(
    rt: &R,
    alloc: Global,
    steps: &mut Steps<L>,
) -> Result<(), Fail> {
    let mut list = WaitList::new(alloc);
    list.reserve(3)?;
    assert_eq!(rt; (list.occupied_len(), list.spare()), (0, 3));
    let second = list.push_back(2, steps);
    let first = list.push_front(1, steps);
    ids_are_told_apart(rt, first, second);
    list.push_back(3, steps);
    for value in [1, 2, 3] {
        assert_eq!(rt; first_leaves(&mut list, steps), Some(value));
    }
    assert!(rt; list.is_empty());
    assert_eq!(rt; list.occupied_len(), 0);
    Ok(())
}

/// The middle one of three is asked in vain, and then leaves. The others stay in their order.
fn middle_leaves<L: Ledger, R: Abort>(
    rt: &R,
    alloc: Global,
    steps: &mut Steps<L>,
) -> Result<(), Fail> {
    let mut list = WaitList::new(alloc);
    list.reserve(3)?;
    list.push_back(1, steps);
    let middle = list.push_back(2, steps);
    list.push_back(3, steps);
    assert!(rt; stays(&mut list, middle, steps));
    assert!(rt; first_stays(&mut list, steps));
    assert_eq!(rt; list.waiter(middle, steps).copied(), Some(2));
    assert_eq!(rt; leaves(&mut list, middle, steps), (2, 2));
    list.reserve(1)?;
    list.push_back(4, steps);
    for value in [1, 3, 4] {
        assert_eq!(rt; first_leaves(&mut list, steps), Some(value));
    }
    assert_eq!(rt; first_leaves(&mut list, steps), None);
    assert!(rt; first_stays(&mut list, steps));
    Ok(())
}

/// The first is detached, and stays. The answer is also the value that the unlink lends.
fn first_detaches<L: Ledger>(
    list: &mut WaitList<u64>,
    steps: &mut Steps<L>,
) -> Option<(WaiterId, u64)>
    ensures { IfSome result (λ found. IsSome (waiter_at found.0 list.new)) }
{
    let first = list.first()?;
    match list.unlink_first_waiter(|_| true, steps) {
        Some(value) => Some((first, *value)),
        None => unreachable!(),
    }
}

/// A node is asked by a closure that adds to its value, and leaves.
fn leaves_with<L: Ledger>(
    list: &mut WaitList<u64>,
    id: WaiterId,
    more: u64,
    steps: &mut Steps<L>,
) -> (u64, u64)
    requires { IsSome (waiter_at id list.old) }
{
    let grows = |value: &mut u64| {
        *value = value.wrapping_add(more);
        true
    };
    match list.unlink_waiter(id, grows, steps) {
        Some(value) => {
            let lent = *value;
            (lent, list.remove_unlinked_waiter(id, steps))
        }
        None => unreachable!(),
    }
}

/// A node that is detached is read, asked again and removed.
fn detached_stays_readable<L: Ledger, R: Abort>(
    rt: &R,
    alloc: Global,
    steps: &mut Steps<L>,
) -> Result<(), Fail> {
    let mut list = WaitList::new(alloc);
    list.reserve(2)?;
    list.push_back(1, steps);
    list.push_back(2, steps);
    match first_detaches(&mut list, steps) {
        Some((first, lent)) => {
            assert_eq!(rt; lent, 1);
            assert_eq!(rt; *list.waiter_mut(first, steps), 1);
            assert_eq!(rt; list.occupied_len(), 2);
            assert!(rt; list.has(first) && stays(&mut list, first, steps));
            assert!(rt; list.has(first));
            assert_eq!(rt; leaves_with(&mut list, first, 10, steps), (11, 11));
        }
        None => panic!(rt; "somebody waits"),
    }
    assert_eq!(rt; first_leaves(&mut list, steps), Some(2));
    Ok(())
}

/// A waker takes the place of another, which is the answer, and not of itself.
fn wakers_take_places<R: Abort>(rt: &R) {
    let mut slot = None;
    for (waker, answer) in [(7, None), (7, None), (9, Some(7)), (7, Some(9))] {
        assert_eq!(rt;
            register_waker(&mut slot, Waker(waker)).map(|waker| waker.0),
            answer
        );
        assert!(rt; slot == Some(Waker(waker)));
    }
}

/// Adds the wakers below a number to a batch.
fn pushes(batch: &mut WakerBatch, count: u64) -> Result<(), AllocError>
    ensures { OnOk result (length batch.new ≡ length batch.old + count) }
{
    for number in 0..count {
        batch.push(Waker(number))?;
    }
    Ok(())
}

/// A batch wakes in the order of the pushes, those that it has memory for and the others.
fn batches_wake_in_order<R: Abort>(rt: &R, alloc: Global) -> Result<(), Fail> {
    for (count, full) in [
        (0, false),
        (1, false),
        (31, false),
        (32, true),
        (33, true),
        (65, true),
    ] {
        let mut out = WakeLine::new(alloc);
        out.reserve(count)?;
        let mut batch = WakerBatch::new(alloc);
        pushes(&mut batch, count)?;
        assert_eq!(rt; batch.will_spill(), full);
        batch.wake_all(&mut out);
        assert!(rt; !batch.will_spill());
        for number in 0..count {
            assert!(rt; out.take_wake() == Some(Waker(number)));
        }
        assert!(rt; out.take_wake() == None);
    }
    Ok(())
}

/// A set wakes by its slots, and a waker that takes the place of another keeps the slot.
fn sets_wake_by_slots<L: Ledger, R: Abort>(
    rt: &R,
    alloc: Global,
    steps: &mut Steps<L>,
) -> Result<(), Fail> {
    let mut out = WakeLine::new(alloc);
    out.reserve(3)?;
    let mut set = WakerSet::with_capacity(alloc, 2)?;
    let (mut first, mut second) = (None, None);
    assert!(rt; set.register(&mut first, Waker(7), steps)? == None);
    assert!(rt; set.register(&mut second, Waker(8), steps)? == None);
    assert!(rt; set.register(&mut first, Waker(9), steps)? == Some(Waker(7)));
    assert_eq!(rt; set.len(), 2);
    set.take_all(&mut out);
    assert_eq!(rt; set.len(), 0);
    let mut third = None;
    assert!(rt; set.register(&mut third, Waker(5), steps)? == None);
    assert!(rt; set.unregister(&mut third, steps) == Some(Waker(5)));
    assert!(rt; set.unregister(&mut third, steps) == None);
    let mut last = WakerSet::new(alloc);
    assert!(rt; last.register(&mut third, Waker(6), steps)? == None);
    last.wake_all(&mut out);
    for number in [9, 8, 6] {
        assert!(rt; out.take_wake() == Some(Waker(number)));
    }
    assert!(rt; out.take_wake() == None);
    Ok(())
}

/// Who gets a slot that was vacated is woken by that slot, before those who were registered earlier.
fn order_is_of_slots<L: Ledger, R: Abort>(
    rt: &R,
    alloc: Global,
    steps: &mut Steps<L>,
) -> Result<(), Fail> {
    let mut out = WakeLine::new(alloc);
    out.reserve(3)?;
    let mut set = WakerSet::with_capacity(alloc, 6)?;
    let (mut first, mut second, mut third, mut fourth) = (None, None, None, None);
    assert!(rt; set.register(&mut first, Waker(1), steps)? == None);
    assert!(rt; set.register(&mut second, Waker(2), steps)? == None);
    assert!(rt; set.register(&mut third, Waker(3), steps)? == None);
    assert!(rt; set.unregister(&mut first, steps) == Some(Waker(1)));
    assert!(rt; set.register(&mut fourth, Waker(4), steps)? == None);
    set.take_all(&mut out);
    for number in [4, 2, 3] {
        assert!(rt; out.take_wake() == Some(Waker(number)));
    }
    assert!(rt; out.take_wake() == None);
    Ok(())
}

/// The next of a row of numbers that look drawn, below `n`.
fn draws(row: &mut u64, n: usize) -> usize
    requires { 0 < n }
    ensures { result < n }
{
    *row = row
        .wrapping_mul(6364136223846793005)
        .wrapping_add(1442695040888963407);
    (*row >> 33) as usize % n
}

/// A value goes into the slot that was vacated last, or else into a new one.
fn inserts<L: Ledger, R: Abort>(
    rt: &R,
    arena: &mut Arena<u64>,
    slots: &mut Vec<(SlotId, Option<u64>)>,
    vacated: &mut Vec<usize>,
    value: u64,
    steps: &mut Steps<L>,
) -> Result<(), Fail> {
    arena.reserve(1)?;
    let id = arena.insert(value, steps);
    let slot = vacated.pop().unwrap_or(slots.len());
    assert_eq!(rt; id.index(), slot);
    match slots.get_mut(slot) {
        Some((_, found)) => *found = Some(value),
        None => slots.push((id, Some(value)))?,
    }
    Ok(())
}

/// All values are taken, by their slots, and the arena is as new.
fn takes_all<R: Abort>(
    rt: &R,
    arena: &mut Arena<u64>,
    slots: &mut Vec<(SlotId, Option<u64>)>,
    vacated: &mut Vec<usize>,
) {
    let mut values = arena.take_all();
    for (_, value) in slots.iter() {
        if value.is_some() {
            assert!(rt; values.next() == *value);
        }
    }
    assert!(rt; values.next() == None);
    assert_eq!(rt; (arena.len(), arena.spare()), (0, 0));
    slots.clear();
    vacated.clear();
}

/// The value in a slot is another now, if there is one. The answer is what it was.
fn rewrites<L: Ledger>(
    arena: &mut Arena<u64>,
    id: SlotId,
    value: u64,
    steps: &mut Steps<L>,
) -> Option<u64> {
    match arena.get_mut(id, steps) {
        Some(found) => Some(mem::replace(found, value)),
        None => None,
    }
}

/// One call on an arena, and the same on a vector of what each slot has and one of the vacated slots.
fn arena_turn<L: Ledger, R: Abort>(
    rt: &R,
    arena: &mut Arena<u64>,
    slots: &mut Vec<(SlotId, Option<u64>)>,
    vacated: &mut Vec<usize>,
    row: &mut u64,
    steps: &mut Steps<L>,
) -> Result<(), Fail> {
    let turn = draws(row, 100);
    if turn == 0 {
        takes_all(rt, arena, slots, vacated);
        return Ok(());
    }
    if turn < 60 || slots.is_empty() {
        return inserts(rt, arena, slots, vacated, *row, steps);
    }
    let slot = draws(row, slots.len());
    let (id, value) = slots[slot];
    assert!(rt; arena.get(id, steps).copied() == value);
    assert!(rt; rewrites(arena, id, *row, steps) == value);
    if !arena.has(id) {
        return Ok(());
    }
    if turn < 80 {
        slots[slot] = (id, Some(*row));
    } else {
        assert_eq!(rt; arena.remove(id, steps), *row);
        slots[slot] = (id, None);
        vacated.push(slot)?;
    }
    Ok(())
}

/// Some hundred calls make of an arena what they make of plain vectors.
fn arena_is_its_slots<L: Ledger, R: Abort>(
    rt: &R,
    alloc: Global,
    steps: &mut Steps<L>,
) -> Result<(), Fail> {
    let mut arena = Arena::new(alloc);
    let mut slots = Vec::new(alloc);
    let mut vacated = Vec::new(alloc);
    let mut row = 1;
    for _ in 0..400 {
        arena_turn(rt, &mut arena, &mut slots, &mut vacated, &mut row, steps)?;
        assert_eq!(rt; arena.len() as usize + vacated.len(), slots.len());
    }
    takes_all(rt, &mut arena, &mut slots, &mut vacated);
    Ok(())
}

/// A node is detached by a closure that adds 1, and has the value that is the answer.
fn detaches<L: Ledger>(list: &mut WaitList<u64>, id: WaiterId, steps: &mut Steps<L>) -> u64
    requires { IsSome (waiter_at id list.old) }
{
    let grows = |value: &mut u64| {
        *value = value.wrapping_add(1);
        true
    };
    match list.unlink_waiter(id, grows, steps) {
        Some(value) => *value,
        None => unreachable!(),
    }
}

/// One call on a list, and the same on a vector of who is linked and one of who is detached.
fn list_turn<L: Ledger, R: Abort>(
    rt: &R,
    list: &mut WaitList<u64>,
    linked: &mut Vec<(WaiterId, u64)>,
    detached: &mut Vec<(WaiterId, u64)>,
    row: &mut u64,
    steps: &mut Steps<L>,
) -> Result<(), Fail> {
    list.reserve(1)?;
    match draws(row, 7) {
        0 => linked.insert(0, (list.push_front(*row, steps), *row))?,
        1 | 2 => linked.push((list.push_back(*row, steps), *row))?,
        3 => {
            if let Some((id, lent)) = first_detaches(list, steps) {
                assert!(rt; !linked.is_empty());
                let (first, value) = linked.remove(0);
                assert!(rt; id == first && lent == value);
                detached.push((id, value))?;
            }
        }
        4 if !linked.is_empty() => {
            let place = draws(row, linked.len());
            let (id, value) = linked[place];
            assert!(rt; list.has(id));
            assert_eq!(rt; mem::replace(list.waiter_mut(id, steps), *row), value);
            linked[place] = (id, *row);
        }
        5 if !linked.is_empty() => {
            let (id, value) = linked.remove(draws(row, linked.len()));
            assert!(rt; list.has(id));
            assert!(rt; stays(list, id, steps));
            assert_eq!(rt; detaches(list, id, steps), value.wrapping_add(1));
            detached.push((id, value.wrapping_add(1)))?;
        }
        _ if !detached.is_empty() => {
            let (id, value) = detached.swap_remove(draws(row, detached.len()));
            assert!(rt; list.has(id));
            assert_eq!(rt; leaves(list, id, steps), (value, value));
        }
        _ => {}
    }
    Ok(())
}

/// Some hundred calls make of a list what they make of plain vectors.
fn list_is_its_line<L: Ledger, R: Abort>(
    rt: &R,
    alloc: Global,
    steps: &mut Steps<L>,
) -> Result<(), Fail> {
    let mut list = WaitList::new(alloc);
    let mut linked = Vec::new(alloc);
    let mut detached = Vec::new(alloc);
    let mut row = 1;
    for _ in 0..600 {
        list_turn(rt, &mut list, &mut linked, &mut detached, &mut row, steps)?;
        assert_eq!(rt; list.is_empty(), linked.is_empty());
        assert_eq!(rt; list.occupied_len() as usize, linked.len() + detached.len());
    }
    for (_, value) in linked {
        assert!(rt; first_leaves(&mut list, steps) == Some(value));
    }
    assert!(rt; list.is_empty());
    Ok(())
}

/// What is told of arenas.
fn arenas_keep<L: Ledger, R: Abort>(rt: &R, alloc: Global, blank: Blank) -> Result<(), Fail>
    requires name { blank.name ≡ L.name }
    requires parts { blank.parts ≡ L.parts }
    requires some { 0 < blank.parts }
{
    let mut steps: Steps<L> = Steps::new(blank);
    slots_are_given_again(rt, alloc, &mut steps)?;
    room_grows_twofold(rt, alloc, &mut steps)?;
    arena_is_its_slots(rt, alloc, &mut steps)?;
    Ok(())
}

#[test]
fn arenas_keep_values(rt: HostRuntime) -> Result<(), Fail> {
    arenas_keep::<Brand, HostRuntime>(&rt, rt.alloc(), Blank::new(1))
}

/// What is told of wait lists.
fn lists_keep<L: Ledger, R: Abort>(rt: &R, alloc: Global, blank: Blank) -> Result<(), Fail>
    requires name { blank.name ≡ L.name }
    requires parts { blank.parts ≡ L.parts }
    requires some { 0 < blank.parts }
{
    let mut steps: Steps<L> = Steps::new(blank);
    front_is_first(rt, alloc, &mut steps)?;
    middle_leaves(rt, alloc, &mut steps)?;
    detached_stays_readable(rt, alloc, &mut steps)?;
    list_is_its_line(rt, alloc, &mut steps)?;
    Ok(())
}

#[test]
fn lists_keep_the_order(rt: HostRuntime) -> Result<(), Fail> {
    lists_keep::<Brand, HostRuntime>(&rt, rt.alloc(), Blank::new(1))
}

/// What is told of waker sets.
fn sets_wake<L: Ledger, R: Abort>(rt: &R, alloc: Global, blank: Blank) -> Result<(), Fail>
    requires name { blank.name ≡ L.name }
    requires parts { blank.parts ≡ L.parts }
    requires some { 0 < blank.parts }
{
    let mut steps: Steps<L> = Steps::new(blank);
    sets_wake_by_slots(rt, alloc, &mut steps)?;
    order_is_of_slots(rt, alloc, &mut steps)?;
    Ok(())
}

#[test]
fn sets_wake_all(rt: HostRuntime) -> Result<(), Fail> {
    sets_wake::<Brand, HostRuntime>(&rt, rt.alloc(), Blank::new(1))
}

#[test]
fn wakers_keep_the_order(rt: HostRuntime) -> Result<(), Fail> {
    wakers_take_places(&rt);
    batches_wake_in_order(&rt, rt.alloc())
}
