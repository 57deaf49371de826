//! The idle objects of a pool, and the count of all.
ghost use Rattle.std.specs.Prelude.{◌≡◌, ◌+◌, ◌-◌, ◌<◌, ◌≤◌, ◌↔◌, [], ◌∷◌, ◌++◌, length, IsOk, IsErrOf, OnOk, OnErr, IfOk, vec_len, vec_capacity};
ghost use Rattle.std.specs.Fn.{CalledWithState};
ghost use Rattle.band_objects.specs.Kept.{AsksFirst};
ghost use Rattle.band_objects.specs.Store.{Store, Sorting, SortsAll, Pops, new_store, size_of};

use crate::{ObjectState, ObjectStatus, QueueStrategy, RetainResult};
use std::alloc::{AllocError, Global};
use std::collections::VecDeque;
use std::marker::Model;
use thiserror::Error;

/// Why no room was made for one more object. Nothing changed.
#[derive(Debug, Drop, Error)]
pub enum CountedError {
    /// There was no memory for it.
    #[error("out of memory")]
    NoMemory,
    /// The count of objects stands at its last value, or would pass it.
    #[error("a count is full")]
    CountFull,
}

/// The idle objects of a pool, and how many it has in all. There is room for each to come back. Ports `PoolState`.
#[derive(Drop)]
pub struct PoolState<T> {
    idle: VecDeque<ObjectState<T>>,
    current_size: u64,
    room: u64,
    alloc: Global,
}

impl<T> Model for PoolState<T> {
    ghost use Rattle.std.specs.Prelude.{◌+◌, ◌-◌, ◌≤◌, length};
    ghost use Rattle.std.specs.VecDeque.{deque_capacity};
    ghost use Rattle.band_objects.specs.Store.{Store};

    ghost Value = { Store T };

    ghost view = { λ s. record { idle = s.idle.items; away = s.current_size - length s.idle.items; room = s.room } };

    ghost invariant = { λ s. (length s.idle.items ≤ s.current_size) × (s.current_size + s.room ≤ deque_capacity s.idle) };
}

impl<T> PoolState<T> {
    /// No object, and no room.
    pub fn new(alloc: Global) -> PoolState<T>
        ensures { result ≡ new_store }
    {
        PoolState {
            idle: VecDeque::new(alloc),
            current_size: 0,
            room: 0,
            alloc,
        }
    }

    /// How many objects there are: idle, checked and out.
    pub fn current_size(&self) -> u64
        ensures { result ≡ size_of self.now }
    {
        self.current_size
    }

    /// How many objects are idle.
    pub fn idle_count(&self) -> u64
        ensures { result ≡ length self.now.idle }
    {
        self.idle.len() as u64
    }

    /// Takes out the next idle object, if there is one.
    pub fn pop(&mut self, strategy: QueueStrategy) -> Option<ObjectState<T>>
        ensures { Pops strategy self.old result self.new }
    {
        match strategy {
            QueueStrategy::Fifo => self.idle.pop_front(),
            QueueStrategy::Lifo => self.idle.pop_back(),
        }
    }

    /// Makes room for one more object, if there is none.
    pub fn reserve(&mut self) -> Result<(), CountedError>
        ensures full { IsErrOf result CountedError.CountFull ↔ (size_of self.old ≡ u64.MAX) }
        ensures objects { self.new ≡ record self.old { room = self.new.room } }
        ensures room { OnOk result (0 < self.new.room) }
        ensures no_less { self.old.room ≤ self.new.room }
        ensures err { OnErr result (self.new ≡ self.old) }
        ensures enough { 0 < self.old.room → IsOk result }
    {
        let _ = &self.current_size;
        self.reserve_for(1)
    }

    /// Makes room for `n` more objects, if there is less.
    pub fn reserve_for(&mut self, n: u64) -> Result<(), CountedError>
        ensures full { IsErrOf result CountedError.CountFull ↔ (u64.MAX < size_of self.old + n) }
        ensures objects { self.new ≡ record self.old { room = self.new.room } }
        ensures room { OnOk result (n ≤ self.new.room) }
        ensures no_less { self.old.room ≤ self.new.room }
        ensures err { OnErr result (self.new ≡ self.old) }
        ensures enough { n ≤ self.old.room → IsOk result }
    {
        if self.current_size > u64::MAX - n {
            return Err(CountedError::CountFull);
        }
        if self.room < n {
            let wanted = self.current_size + n - self.idle.len() as u64;
            if self.idle.reserve(wanted as usize).is_err() {
                return Err(CountedError::NoMemory);
            }
            self.room = n;
        }
        Ok(())
    }

    /// A new object is idle, in room that was reserved.
    pub fn add_idle(&mut self, s: ObjectState<T>)
        requires { 0 < self.old.room }
        ensures { self.new ≡ record self.old { idle = self.old.idle ++ s ∷ []; room = self.old.room - 1 } }
    {
        self.idle.push_back_reserved(s);
        self.current_size += 1;
        self.room -= 1;
    }

    /// A new object is out, in room that was reserved.
    pub fn add_active(&mut self)
        requires { 0 < self.old.room }
        ensures { self.new ≡ record self.old { away = self.old.away + 1; room = self.old.room - 1 } }
    {
        self.current_size += 1;
        self.room -= 1;
    }

    /// An object that was checked or out is idle again.
    pub fn return_idle(&mut self, s: ObjectState<T>)
        requires { 0 < self.old.away }
        ensures { self.new ≡ record self.old { idle = self.old.idle ++ s ∷ []; away = self.old.away - 1 } }
    {
        self.idle.push_back_reserved(s);
    }

    /// An object that was checked or out is one of the pool no more. Its room is there for another.
    pub fn detach(&mut self)
        requires { 0 < self.old.away }
        ensures { self.new ≡ record self.old { away = self.old.away - 1; room = self.old.room + 1 } }
    {
        self.current_size -= 1;
        self.room += 1;
    }
    /// Asks `f` of each idle object once, from the front on. Those of which it answers `false` leave. It may run out of
    /// memory before the first is asked about.
    pub fn retain<F: FnMut(&mut T, ObjectStatus) -> bool>(
        &mut self,
        mut f: F,
    ) -> Result<RetainResult<T>, AllocError>
        requires callable { F.IsAlwaysCallable f }
        ensures sorted { IfOk result (λ r. (after : Sorting F T)
            × SortsAll (CalledWithState F.FnMut) f self.old.idle after
            × (self.new.idle ≡ after.kept) × (r.retained ≡ length after.kept) × (r.removed.items ≡ after.removed)) }
        ensures away { self.new.away ≡ self.old.away }
        ensures err { OnErr result (self.new ≡ self.old) }
    {
        let count = self.idle.len();
        let mut removed = Vec::with_capacity(self.alloc, count)?;
        for _ in 0..count {
            self.ask_first(&mut f, &mut removed);
        }
        Ok(RetainResult {
            retained: self.idle.len() as u64,
            removed,
        })
    }

    /// Asks `f` of the first idle object, which goes behind the others, or leaves.
    fn ask_first<F: FnMut(&mut T, ObjectStatus) -> bool>(&mut self, f: &mut F, removed: &mut Vec<T>)
        requires callable { F.IsAlwaysCallable f.old }
        requires there { 0 < length self.old.idle }
        requires room { vec_len removed.old < vec_capacity removed.old }
        ensures callable { F.IsAlwaysCallable f.new }
        ensures asks { AsksFirst (CalledWithState F.FnMut) self.old.idle f.old removed.old.items
            (record { test = f.new; kept = self.new.idle; removed = removed.new.items }) }
        ensures away { self.new.away ≡ self.old.away }
        ensures no_more { vec_len removed.new ≤ vec_len removed.old + 1 }
        ensures capacity { vec_capacity removed.new ≡ vec_capacity removed.old }
    {
        let Some(mut object) = self.idle.pop_front() else {
            unreachable!();
        };
        if f(&mut object.o, object.status) {
            self.idle.push_back_reserved(object);
        } else {
            self.current_size -= 1;
            self.room += 1;
            removed.push_reserved(object.o);
        }
    }
}
