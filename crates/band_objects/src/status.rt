//! What is known of an object.
ghost use Rattle.std.specs.Prelude.{◌≡◌};
ghost use Rattle.band_objects.specs.Status.{Status, new_status, last_used, recycled, returned_at};

use std::marker::Model;

/// The life of an object so far, by moments that callers hand in. Ports `ObjectStatus`.
#[derive(Clone, Copy)]
pub struct ObjectStatus {
    created: u64,
    last_returned: Option<u64>,
    recycle_count: u64,
}

impl Model for ObjectStatus {
    ghost use Rattle.band_objects.specs.Status.{Status};

    ghost Value = { Status };

    ghost view = { λ s. record { created = s.created; returned = s.last_returned; recycles = s.recycle_count } };

    ghost inverse = { λ s. record { created = s.created; last_returned = s.returned; recycle_count = s.recycles } };
}

impl ObjectStatus {
    /// Of an object that is made at `now`.
    pub fn new(now: u64) -> ObjectStatus
        ensures { result ≡ new_status now }
    {
        ObjectStatus {
            created: now,
            last_returned: None,
            recycle_count: 0,
        }
    }

    /// When it was made.
    pub fn created(&self) -> u64
        ensures { result ≡ self.now.created }
    {
        self.created
    }

    /// When it last came back to its pool, or else was made.
    pub fn last_used(&self) -> u64
        ensures { result ≡ last_used self.now }
    {
        self.last_returned.unwrap_or(self.created)
    }

    /// How often it was taken out of the idle objects, up to the largest count.
    pub fn recycle_count(&self) -> u64
        ensures { result ≡ self.now.recycles }
    {
        self.recycle_count
    }

    /// It is taken out of the idle objects.
    pub fn mark_recycled(&mut self)
        ensures { self.new ≡ recycled self.old }
    {
        self.recycle_count = self.recycle_count.saturating_add(1);
    }

    /// It comes back to its pool at `now`.
    pub fn mark_returned(&mut self, now: u64)
        ensures { self.new ≡ returned_at now self.old }
    {
        self.last_returned = Some(now);
    }
}
