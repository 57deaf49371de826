//! What no clause says: that there is room where memory is left, the texts of the errors, and the defaults.

use super::*;
use std::alloc::Global;
use std::test::Fail;

/// Three idle objects, made at moments 1, 2 and 3.
fn three(alloc: Global) -> Result<PoolState<u64>, CountedError> {
    let mut pool = PoolState::new(alloc);
    for number in [1, 2, 3] {
        pool.reserve()?;
        pool.add_idle(ObjectState::new(number, number));
    }
    Ok(pool)
}

fn next(pool: &mut PoolState<u64>, strategy: QueueStrategy) -> Option<u64> {
    pool.pop(strategy).map(|object| object.o)
}

#[test]
fn objects_come_and_go(rt: HostRuntime) -> Result<(), Fail> {
    let mut pool = three(rt.alloc())?;
    if let Some(oldest) = pool.pop(QueueStrategy::default()) {
        assert_eq!(rt; oldest.o, 1);
        assert!(rt; pool.current_size() == 3 && pool.idle_count() == 2);
        pool.return_idle(oldest);
    }
    if let Some(newest) = pool.pop(QueueStrategy::Lifo) {
        assert_eq!(rt; newest.o, 1);
        pool.detach();
    }
    assert!(rt; pool.current_size() == 2 && pool.idle_count() == 2);
    assert_eq!(rt; next(&mut pool, QueueStrategy::Fifo), Some(2));
    assert_eq!(rt; next(&mut pool, QueueStrategy::Lifo), Some(3));
    assert_eq!(rt; next(&mut pool, QueueStrategy::Lifo), None);
    pool.reserve_for(2)?;
    pool.add_active();
    assert_eq!(rt; pool.current_size(), 3);
    Ok(())
}

#[test]
fn odd_ones_are_retained(rt: HostRuntime) -> Result<(), Fail> {
    let mut pool = three(rt.alloc())?;
    let sorted = pool.retain(|object: &mut u64, _status| *object % 2 == 1)?;
    assert_eq!(rt; sorted.retained, 2);
    assert!(rt; sorted.removed.as_slice() == [2].as_slice());
    assert_eq!(rt; next(&mut pool, QueueStrategy::Fifo), Some(1));
    Ok(())
}

#[test]
fn a_status_tells_of_its_object(rt: HostRuntime) {
    let mut status = ObjectStatus::new(5);
    assert!(rt; status.created() == 5 && status.last_used() == 5 && status.recycle_count() == 0);
    status.mark_recycled();
    status.mark_returned(9);
    assert!(rt; status.created() == 5 && status.last_used() == 9 && status.recycle_count() == 1);
}

#[test]
fn an_object_is_detached_by_default(rt: HostRuntime) {
    assert!(rt; RecycleCancelledStrategy::default() == RecycleCancelledStrategy::Detach);
}

#[test]
fn errors_have_texts(rt: HostRuntime) -> Result<(), Fail> {
    let memory = CountedError::NoMemory.to_string(rt.alloc())?;
    assert_eq!(rt; memory.as_str(), "out of memory");
    let full = CountedError::CountFull.to_string(rt.alloc())?;
    assert_eq!(rt; full.as_str(), "a count is full");
    Ok(())
}
