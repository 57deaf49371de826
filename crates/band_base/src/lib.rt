//! What every other crate stands on: what a poll answers, wakers as numbers, the line of wakers to wake, the counter
//! of visits, and the devices that bytes come from and go to.
#![tactic(auto)]

mod clock;
mod failures;
mod poll;
mod polled;
mod refusal;
mod sink;
mod source;
mod steps;
#[cfg(test)]
mod tests;
mod wake_line;
mod waker;

pub use clock::{Clock, ListClock, RealClock};
pub use poll::{Poll, PollError};
pub use polled::Polled;
pub use refusal::Refusal;
pub use sink::{BytesOut, FailingOut, Sink, SinkError, StdErr, StdOut, WriterSink, write_all};
pub use source::{BytesIn, FailingIn, ReaderSource, Source, SourceFailed, StdIn};
pub use steps::Steps;
pub use wake_line::WakeLine;
pub use waker::Waker;
