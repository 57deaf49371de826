//! What no clause says: that calls succeed, in small lives of a mutex and of a reader-writer lock.
ghost use Rattle.std.specs.Prelude.{◌≡◌, ◌<◌, [], OnSome};
ghost use Rattle.band_base.specs.declared.poll.Poll.TheVariants as poll;
ghost use Rattle.band_lock.specs.ReaderWriter.{IsWholeLock};

use crate::{MutexState, RwLockState, WriteAccess};
use band_base::{Poll, PollError, Steps, Waker};
use band_sem::Semaphore;
use std::alloc::Global;
use std::marker::Brand;
use std::process::Abort;
use std::sync::ledger::{Blank, Ledger};

/// What a poll gives that is served.
fn ready<T, R: Abort>(rt: &R, polled: Result<Poll<T>, PollError>) -> T
    ensures { polled ≡ Ok (poll.Ready result) }
{
    match polled {
        Ok(Poll::Ready(token)) => token,
        Ok(Poll::Pending) => panic!(rt; "it was to be served"),
        Err(error) => panic!(rt; "{error}"),
    }
}

/// A poll that leaves its request waiting.
fn pending<T, R: Abort>(rt: &R, polled: Result<Poll<T>, PollError>)
    ensures { polled ≡ Ok poll.Pending }
{
    match polled {
        Ok(Poll::Pending) => {}
        Ok(Poll::Ready(_token)) => panic!(rt; "it was not to be served"),
        Err(error) => panic!(rt; "{error}"),
    }
}

/// What a try gives that is served.
fn served<T, R: Abort>(rt: &R, tried: Option<T>) -> T
    ensures { tried ≡ Some result }
{
    match tried {
        Some(token) => token,
        None => panic!(rt; "it was to be served"),
    }
}

/// A try that is not served.
fn unserved<T, R: Abort>(rt: &R, tried: Option<T>)
    ensures { tried ≡ None }
{
    match tried {
        None => {}
        Some(_token) => panic!(rt; "it was not to be served"),
    }
}

/// What can be had, how many requests wait, what is granted, and what is held.
fn figures(shares: &Semaphore) -> [u64; 4] {
    [
        shares.available_permits(),
        shares.waiting_count(),
        shares.granted_permits(),
        shares.held_permits(),
    ]
}

/// The second who locks waits, and is woken and has the mutex once the first unlocks.
fn the_second_waits<L: Ledger, R: Abort>(rt: &R, alloc: Global, steps: &mut Steps<L>) {
    let mut mutex = MutexState::new(alloc, 5);
    let mut first = mutex.lock();
    let mut second = mutex.lock();
    let guard = ready(rt, first.poll_once(&mut mutex, Waker(1), steps));
    pending(rt, second.poll_once(&mut mutex, Waker(2), steps));
    assert_eq!(rt; figures(mutex.semaphore()), [0, 1, 0, 1]);
    assert!(rt; !second.is_granted(&mutex, steps));
    mutex.drop_guard(guard, steps);
    assert!(rt; second.is_granted(&mutex, steps) && !first.is_granted(&mutex, steps));
    assert_eq!(rt; mutex.take_wake().map(|waker| waker.0), Some(2));
    assert!(rt; mutex.take_wake().is_none());
    assert_eq!(rt; figures(mutex.semaphore()), [0, 0, 1, 0]);
    let guard = ready(rt, second.poll_once(&mut mutex, Waker(3), steps));
    mutex.drop_guard(guard, steps);
    first.lose();
    second.cancel(&mut mutex, steps);
    assert_eq!(rt; figures(mutex.semaphore()), [1, 0, 0, 0]);
}

/// A try has the mutex where it is free.
fn it_is_tried<L: Ledger, R: Abort>(rt: &R, alloc: Global, steps: &mut Steps<L>) {
    let mut mutex = MutexState::new(alloc, 5);
    let guard = served(rt, mutex.try_lock());
    unserved(rt, mutex.try_lock());
    assert_eq!(rt; figures(mutex.semaphore()), [0, 0, 0, 1]);
    mutex.drop_guard(guard, steps);
    served(rt, mutex.try_lock()).lose();
    assert_eq!(rt; figures(mutex.semaphore()), [0, 0, 0, 1]);
}

/// One gives up while it waits, and one after it was granted.
fn both_give_up<L: Ledger, R: Abort>(rt: &R, alloc: Global, steps: &mut Steps<L>) {
    let mut mutex = MutexState::new(alloc, 5);
    let guard = served(rt, mutex.try_lock());
    let mut first = mutex.lock();
    let mut second = mutex.lock();
    pending(rt, first.poll_once(&mut mutex, Waker(1), steps));
    pending(rt, second.poll_once(&mut mutex, Waker(2), steps));
    first.cancel(&mut mutex, steps);
    assert!(rt; mutex.take_wake().is_none());
    mutex.drop_guard(guard, steps);
    assert_eq!(rt; mutex.take_wake().map(|waker| waker.0), Some(2));
    unserved(rt, mutex.try_lock());
    second.cancel(&mut mutex, steps);
    assert_eq!(rt; figures(mutex.semaphore()), [1, 0, 0, 0]);
}

fn each_mutex<L: Ledger, R: Abort>(rt: &R, alloc: Global, blank: Blank)
    requires name { blank.name ≡ L.name }
    requires parts { blank.parts ≡ L.parts }
    requires some { 0 < blank.parts }
{
    let mut steps: Steps<L> = Steps::new(blank);
    the_second_waits(rt, alloc, &mut steps);
    it_is_tried(rt, alloc, &mut steps);
    both_give_up(rt, alloc, &mut steps);
}

#[test]
fn mutexes_live(rt: HostRuntime) {
    each_mutex::<Brand, HostRuntime>(&rt, rt.alloc(), Blank::new(1));
}

#[test]
fn a_new_lock_is_free(rt: HostRuntime) {
    let most = 9_223_372_036_854_775_807;
    let lock = RwLockState::new(rt.alloc(), 6);
    assert_eq!(rt; lock.max_readers(), most);
    assert_eq!(rt; figures(lock.semaphore()), [most, 0, 0, 0]);
    let lock = RwLockState::with_max_readers(rt.alloc(), 6, 3);
    assert_eq!(rt; lock.max_readers(), 3);
    assert_eq!(rt; figures(lock.semaphore()), [3, 0, 0, 0]);
}

/// A writer waits behind a reader, and the next reader behind the writer. Each has its turn, and the writer makes room early.
fn each_has_its_turn<L: Ledger, R: Abort>(rt: &R, alloc: Global, steps: &mut Steps<L>) {
    let mut lock = RwLockState::with_max_readers(alloc, 6, 3);
    let mut first = lock.read();
    let mut writer = lock.write();
    let mut second = lock.read();
    let reads = ready(rt, first.poll_once(&mut lock, Waker(1), steps));
    pending(rt, writer.poll_once(&mut lock, Waker(2), steps));
    pending(rt, second.poll_once(&mut lock, Waker(3), steps));
    unserved(rt, lock.try_read());
    assert_eq!(rt; figures(lock.semaphore()), [0, 2, 0, 1]);
    lock.drop_read(reads, steps);
    assert_eq!(rt; lock.take_wake().map(|waker| waker.0), Some(2));
    assert!(rt; lock.take_wake().is_none());
    let writes = ready(rt, writer.poll_once(&mut lock, Waker(4), steps));
    assert_eq!(rt; figures(lock.semaphore()), [0, 1, 0, 3]);
    let reads = lock.downgrade(writes, steps);
    assert_eq!(rt; lock.take_wake().map(|waker| waker.0), Some(3));
    assert_eq!(rt; figures(lock.semaphore()), [1, 0, 1, 1]);
    ready(rt, second.poll_once(&mut lock, Waker(5), steps)).lose();
    assert_eq!(rt; figures(lock.semaphore()), [1, 0, 0, 2]);
    reads.lose();
    first.lose();
    writer.lose();
    second.lose();
}

/// Tries to read and to write, while others read and write.
fn both_are_tried<L: Ledger, R: Abort>(rt: &R, alloc: Global, steps: &mut Steps<L>) {
    let mut lock = RwLockState::with_max_readers(alloc, 6, 2);
    let first = served(rt, lock.try_read());
    unserved(rt, lock.try_write());
    let second = served(rt, lock.try_read());
    unserved(rt, lock.try_read());
    assert_eq!(rt; figures(lock.semaphore()), [0, 0, 0, 2]);
    lock.drop_read(first, steps);
    lock.drop_read(second, steps);
    let writes = served(rt, lock.try_write());
    unserved(rt, lock.try_read());
    assert_eq!(rt; figures(lock.semaphore()), [0, 0, 0, 2]);
    lock.drop_write(writes, steps);
    assert_eq!(rt; figures(lock.semaphore()), [2, 0, 0, 0]);
    served(rt, lock.try_write()).lose();
}

/// A writer gives up while it waits, which lets the reader behind it read, and that reader gives up, too.
fn a_waiting_writer_gives_up<L: Ledger, R: Abort>(rt: &R, alloc: Global, steps: &mut Steps<L>) {
    let mut lock = RwLockState::with_max_readers(alloc, 6, 3);
    let reads = served(rt, lock.try_read());
    let mut writer = lock.write();
    let mut reader = lock.read();
    pending(rt, writer.poll_once(&mut lock, Waker(1), steps));
    pending(rt, reader.poll_once(&mut lock, Waker(2), steps));
    writer.cancel(&mut lock, steps);
    assert_eq!(rt; lock.take_wake().map(|waker| waker.0), Some(2));
    assert_eq!(rt; figures(lock.semaphore()), [1, 0, 1, 1]);
    reader.cancel(&mut lock, steps);
    assert_eq!(rt; figures(lock.semaphore()), [2, 0, 0, 1]);
    reads.lose();
}

/// A writer gives up after it was granted, and all shares are free again.
fn a_granted_writer_gives_up<L: Ledger, R: Abort>(rt: &R, alloc: Global, steps: &mut Steps<L>) {
    let mut lock = RwLockState::with_max_readers(alloc, 6, 3);
    let reads = served(rt, lock.try_read());
    let mut writer = lock.write();
    pending(rt, writer.poll_once(&mut lock, Waker(1), steps));
    lock.drop_read(reads, steps);
    assert_eq!(rt; lock.take_wake().map(|waker| waker.0), Some(1));
    assert_eq!(rt; figures(lock.semaphore()), [0, 0, 3, 0]);
    writer.cancel(&mut lock, steps);
    assert_eq!(rt; figures(lock.semaphore()), [3, 0, 0, 0]);
}

/// Asks to write, and gives up where it would have to wait. Who writes is alone.
fn writes<L: Ledger>(
    lock: &mut RwLockState,
    waker: Waker,
    steps: &mut Steps<L>,
) -> Option<WriteAccess>
    ensures held { OnSome result (lock.new.shares.held ≡ lock.new.max) }
    ensures alone { OnSome result (lock.new.shares.line.granted ≡ []) }
    ensures whole { IsWholeLock lock.new }
{
    let mut request = lock.write();
    match request.poll_once(lock, waker, steps) {
        Ok(Poll::Ready(access)) => {
            request.lose();
            Some(access)
        }
        Ok(Poll::Pending) => {
            request.cancel(lock, steps);
            None
        }
        Err(_) => {
            request.cancel(lock, steps);
            None
        }
    }
}

/// The first writes, and the second gives up.
fn one_writes<L: Ledger, R: Abort>(rt: &R, alloc: Global, steps: &mut Steps<L>) {
    let mut lock = RwLockState::with_max_readers(alloc, 6, 3);
    served(rt, writes(&mut lock, Waker(1), steps)).lose();
    unserved(rt, writes(&mut lock, Waker(2), steps));
    assert_eq!(rt; figures(lock.semaphore()), [0, 0, 0, 3]);
}

/// Where there is one reader at a time, a writer that becomes a reader makes room for nobody.
fn one_reads_at_a_time<L: Ledger, R: Abort>(rt: &R, alloc: Global, steps: &mut Steps<L>) {
    let mut lock = RwLockState::with_max_readers(alloc, 6, 1);
    let writes = served(rt, lock.try_write());
    let mut reader = lock.read();
    pending(rt, reader.poll_once(&mut lock, Waker(1), steps));
    let reads = lock.downgrade(writes, steps);
    assert!(rt; lock.take_wake().is_none());
    assert_eq!(rt; figures(lock.semaphore()), [0, 1, 0, 1]);
    lock.drop_read(reads, steps);
    assert_eq!(rt; lock.take_wake().map(|waker| waker.0), Some(1));
    reader.cancel(&mut lock, steps);
    assert_eq!(rt; figures(lock.semaphore()), [1, 0, 0, 0]);
}

fn each_lock<L: Ledger, R: Abort>(rt: &R, alloc: Global, blank: Blank)
    requires name { blank.name ≡ L.name }
    requires parts { blank.parts ≡ L.parts }
    requires some { 0 < blank.parts }
{
    let mut steps: Steps<L> = Steps::new(blank);
    each_has_its_turn(rt, alloc, &mut steps);
    both_are_tried(rt, alloc, &mut steps);
    a_waiting_writer_gives_up(rt, alloc, &mut steps);
    a_granted_writer_gives_up(rt, alloc, &mut steps);
    one_writes(rt, alloc, &mut steps);
    one_reads_at_a_time(rt, alloc, &mut steps);
}

#[test]
fn locks_live(rt: HostRuntime) {
    each_lock::<Brand, HostRuntime>(&rt, rt.alloc(), Blank::new(1));
}
