//! The attempt of a lazy cell.
ghost use Rattle.std.specs.Prelude.{◌≡◌, ◌≢◌};
ghost use Rattle.band_once.specs.Lazy.{MayStart, Starts};

use std::mem;

/// The one attempt at the value of a lazy cell.
#[derive(Drop)]
pub enum Attempt<F, P> {
    /// What makes it.
    NotMade(F),
    /// It was made, and is polled.
    Running(P),
    /// It gave the value, or there is none to be made.
    Done,
}

impl<F, P> Attempt<F, P> {
    /// Stores the attempt where it was taken out.
    pub(crate) fn put(&mut self, init: P)
        requires { self.old ≡ Attempt.Done }
        ensures { self.new ≡ Attempt.Running init }
    {
        match mem::replace(self, Attempt::Running(init)) {
            Attempt::Done => {}
            _ => unreachable!(),
        }
    }
}

impl<P, F: FnOnce() -> P> Attempt<F, P> {
    /// Takes the attempt out, and makes it if it was not made.
    pub(crate) fn start(&mut self) -> P
        requires callable { MayStart F.pre self.old }
        requires there { self.old ≢ Attempt.Done }
        ensures starts { Starts F.post self.old result }
        ensures left { self.new ≡ Attempt.Done }
    {
        match mem::replace(self, Attempt::Done) {
            Attempt::NotMade(make) => make(),
            Attempt::Running(init) => init,
            Attempt::Done => unreachable!(),
        }
    }
}
