//! What no clause says: that calls succeed, the texts of the errors, and the standard streams.
ghost use Rattle.std.specs.Prelude.{◌≡◌, ◌<◌, ◌≤◌, IfOk};

use super::*;
use std::io;
use std::io::{Read, Write};
use std::marker::Brand;
use std::sync::ledger::{Blank, Ledger};
use std::test::Fail;

fn two_steps<L: Ledger>(blank: Blank)
    requires name { blank.name ≡ L.name }
    requires parts { blank.parts ≡ L.parts }
    requires some { 0 < blank.parts }
{
    let mut steps = Steps::<L>::new(blank);
    steps.tick();
    steps.tick();
}

#[test]
fn counts_visits() {
    two_steps::<Brand>(Blank::new(1));
}

#[test]
fn wakes_the_oldest_first(rt: HostRuntime) -> Result<(), Fail> {
    let mut line = WakeLine::new(rt.alloc());
    line.reserve(2)?;
    line.push(Waker(5));
    line.push(Waker(6));
    assert_eq!(rt; line.spare(), 0);
    assert_eq!(rt; line.take_wake().map(|waker| waker.0), Some(5));
    assert_eq!(rt; line.take_wake().map(|waker| waker.0), Some(6));
    assert_eq!(rt; line.take_wake().map(|waker| waker.0), None);
    Ok(())
}

#[test]
fn same_number_same_waker(rt: HostRuntime) {
    assert!(rt; Waker(3).will_wake(&Waker(3)));
    assert!(rt; !Waker(3).will_wake(&Waker(4)));
    assert!(rt; Waker(3) == Waker(3) && Waker(3) != Waker(4));
}

#[test]
fn a_poll_has_its_value(rt: HostRuntime) {
    let value = match Poll::Ready(7u8) {
        Poll::Ready(value) => Some(value),
        Poll::Pending => None,
    };
    assert_eq!(rt; value, Some(7));
}

fn read_through<S: Source>(source: &mut S, buf: &mut [u8]) -> Result<usize, SourceFailed> {
    source.read(buf)
}

fn write_through<S: Sink>(sink: &mut S, piece: &[u8]) -> Result<usize, SinkError> {
    sink.write(piece)
}

#[test]
fn bytes_come_in_order(rt: HostRuntime) -> Result<(), Fail> {
    let mut source = BytesIn::new(&[1, 2, 3]);
    let mut buf = [0; 2];
    for (count, wanted) in [(2, [1, 2]), (1, [3, 2]), (0, [3, 2])] {
        assert_eq!(rt; read_through(&mut source, &mut buf)?, count);
        assert_eq!(rt; buf, wanted);
    }
    Ok(())
}

#[test]
fn bytes_go_out_in_order(rt: HostRuntime) -> Result<(), Fail> {
    let mut sink = BytesOut::new(rt.alloc());
    assert_eq!(rt; write_through(&mut sink, b"ab")?, 2);
    assert_eq!(rt; write_through(&mut sink, b"c")?, 1);
    assert_eq!(rt; sink.bytes(), b"abc".as_slice());
    Ok(())
}

#[test]
fn a_source_fails_at_its_calls(rt: HostRuntime) -> Result<(), Fail> {
    let mut source = FailingIn::new(&[1, 2, 3], 2, &[2, 4]);
    let mut buf = [0; 9];
    assert_eq!(rt; read_through(&mut source, &mut buf)?, 2);
    assert!(rt; read_through(&mut source, &mut buf).is_err());
    assert_eq!(rt; read_through(&mut source, &mut buf)?, 1);
    assert_eq!(rt; buf, [3, 2, 0, 0, 0, 0, 0, 0, 0]);
    assert!(rt; read_through(&mut source, &mut buf).is_err());
    assert_eq!(rt; read_through(&mut source, &mut buf)?, 0);
    Ok(())
}

#[test]
fn a_sink_fails_at_its_calls(rt: HostRuntime) -> Result<(), Fail> {
    let mut sink = FailingOut::new(rt.alloc(), 2, &[2]);
    assert_eq!(rt; write_through(&mut sink, b"abc")?, 2);
    assert!(rt; matches!(write_through(&mut sink, b"c"), Err(SinkError::Failed)));
    assert_eq!(rt; write_through(&mut sink, b"c")?, 1);
    assert_eq!(rt; sink.bytes(), b"abc".as_slice());
    Ok(())
}

/// A reader or a writer that fails at its first call and each second one after it, and else gives or takes a byte.
#[derive(Drop)]
struct FailsByTurns {
    calls: u8,
}

impl FailsByTurns {
    fn moves_one(&mut self, room: usize) -> io::Result<usize>
        ensures { IfOk result (λ n. n ≤ room) }
    {
        self.calls = self.calls.saturating_add(1);
        match self.calls {
            1 => Err(io::Error::from(io::ErrorKind::Interrupted)),
            3 => Err(io::Error::from(io::ErrorKind::Other)),
            _ => Ok(room.min(1)),
        }
    }
}

impl Read for FailsByTurns {
    fn read(&mut self, buf: &mut [u8]) -> io::Result<usize> {
        self.moves_one(buf.len())
    }
}

impl Write for FailsByTurns {
    fn write(&mut self, buf: &[u8]) -> io::Result<usize> {
        self.moves_one(buf.len())
    }

    fn flush(&mut self) -> io::Result<()> {
        Ok(())
    }
}

#[test]
fn a_read_that_failed_is_a_fault_and_not_tried_again(rt: HostRuntime) -> Result<(), Fail> {
    let mut source = ReaderSource::new(FailsByTurns { calls: 0 });
    for faults in 1..=2 {
        assert!(rt; read_through(&mut source, &mut [0; 4]).is_err());
        assert_eq!(rt; source.faults(), faults);
        assert_eq!(rt; read_through(&mut source, &mut [0; 4])?, 1);
        assert_eq!(rt; source.faults(), faults);
    }
    Ok(())
}

#[test]
fn a_write_that_failed_is_a_fault_and_not_tried_again(rt: HostRuntime) -> Result<(), Fail> {
    let mut sink = WriterSink::new(FailsByTurns { calls: 0 });
    for faults in 1..=2 {
        assert!(rt; matches!(write_through(&mut sink, b"ab"), Err(SinkError::Failed)));
        assert_eq!(rt; sink.faults(), faults);
        assert_eq!(rt; write_through(&mut sink, b"ab")?, 1);
        assert_eq!(rt; sink.faults(), faults);
    }
    Ok(())
}

#[test]
fn a_reader_gives_as_much_as_it_has(rt: HostRuntime) -> Result<(), Fail> {
    let mut source = ReaderSource::new([1u8, 2, 3].as_slice());
    let mut buf = [0; 4];
    assert_eq!(rt; read_through(&mut source, &mut buf)?, 3);
    assert_eq!(rt; buf, [1, 2, 3, 0]);
    assert_eq!(rt; read_through(&mut source, &mut buf)?, 0);
    Ok(())
}

#[test]
fn a_writer_takes_as_much_as_it_can_and_then_is_at_fault(rt: HostRuntime) -> Result<(), Fail> {
    let mut room = [0u8; 3];
    let mut sink = WriterSink::new(room.as_mut_slice());
    assert_eq!(rt; write_through(&mut sink, b"abcd")?, 3);
    assert!(rt; matches!(write_through(&mut sink, b"d"), Err(SinkError::Failed)));
    assert_eq!(rt; sink.faults(), 1);
    Ok(())
}

#[test]
fn a_whole_text_is_written_in_parts(rt: HostRuntime) -> Result<(), Fail> {
    let mut sink = FailingOut::new(rt.alloc(), 2, &[3]);
    write_all(&mut sink, b"abc")?;
    assert!(rt; matches!(write_all(&mut sink, b"de"), Err(SinkError::Failed)));
    assert_eq!(rt; sink.bytes(), b"abc".as_slice());
    Ok(())
}

#[test]
fn standard_input_answers(rt: HostRuntime) -> Result<(), Fail> {
    let mut source = StdIn::new(rt.stdin());
    assert!(rt; read_through(&mut source, &mut [0; 4])? <= 4);
    Ok(())
}

#[test]
fn standard_output_answers(rt: HostRuntime) -> Result<(), Fail> {
    let mut sink = StdOut::new(rt.stdout());
    assert_eq!(rt; write_through(&mut sink, b"")?, 0);
    assert_eq!(rt; write_through(&mut sink, b"\n")?, 1);
    Ok(())
}

#[test]
fn standard_error_answers(rt: HostRuntime) -> Result<(), Fail> {
    let mut sink = StdErr::new(rt.stderr());
    assert_eq!(rt; write_through(&mut sink, b"")?, 0);
    assert_eq!(rt; write_through(&mut sink, b"\n")?, 1);
    Ok(())
}

#[test]
fn errors_have_texts(rt: HostRuntime) -> Result<(), Fail> {
    let polls = [
        (PollError::NoMemory, "out of memory"),
        (PollError::Finished, "polled after it was ready"),
        (PollError::CountFull, "a count is full"),
        (PollError::Unknown, "the number is not live"),
        (PollError::Driven, "a driven state failed"),
    ];
    for (error, text) in polls {
        assert_eq!(rt; error.to_string(rt.alloc())?.as_str(), text);
    }
    let sinks = [
        (SinkError::Failed, "the sink failed"),
        (SinkError::NoMemory, "out of memory"),
    ];
    for (error, text) in sinks {
        assert_eq!(rt; error.to_string(rt.alloc())?.as_str(), text);
    }
    assert_eq!(rt;
        SourceFailed.to_string(rt.alloc())?.as_str(),
        "the source failed"
    );
    Ok(())
}

fn moment_of<C: Clock>(clock: &mut C) -> u64 {
    clock.now()
}

#[test]
fn moments_come_in_order(rt: HostRuntime) {
    let mut clock = ListClock::new(&[3, 9, 4]);
    for wanted in [3, 9, 4, 4, 4] {
        assert_eq!(rt; moment_of(&mut clock), wanted);
    }
}

#[test]
fn the_system_tells_the_moment(rt: HostRuntime) {
    let mut clock = RealClock::new(&rt);
    let first = moment_of(&mut clock);
    assert!(rt; first > 0);
    assert!(rt; moment_of(&mut clock) >= first);
}
