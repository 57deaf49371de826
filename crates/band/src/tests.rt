//! The words of the program.
use super::words_of;
use std::io;

#[test]
fn words_are_read_or_not(rt: HostRuntime) {
    let none = words_of(Err(io::Error::from(io::ErrorKind::OutOfMemory)), rt.alloc());
    assert_eq!(rt; none.err(), Some(7));
    let unreadable = words_of(
        Err(io::Error::from(io::ErrorKind::InvalidInput)),
        rt.alloc(),
    );
    assert!(rt; unreadable.is_ok_and(|words| words.is_empty()));
}
