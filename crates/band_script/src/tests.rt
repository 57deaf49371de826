//! What is printed of calls, and names as the keys of a map.

use crate::{Call, Name, parse_line};
use std::collections::BTreeMap;
use std::test::Fail;

#[test]
fn shows_calls(rt: HostRuntime) -> Result<(), Fail> {
    let table = [
        ("sem sem 0", "Some(Sem { made: \"sem\", n: 0 })"),
        ("rw l", "Some(Rw { made: \"l\", n: None })"),
        ("rw l 3", "Some(Rw { made: \"l\", n: Some(3) })"),
        (
            "ask a s_1 2 18446744073709551615",
            "Some(Ask { made: \"a\", of: \"s_1\", n: 2, waker: 18446744073709551615 })",
        ),
        (
            "split aaaaaaaabbbbbbbbccccccccdddddddd z 10",
            "Some(Split { name: \"aaaaaaaabbbbbbbbccccccccdddddddd\", made: \"z\", n: 10 })",
        ),
        ("close s", "Some(Close { of: \"s\" })"),
        ("downgrade g", "Some(Downgrade { name: \"g\" })"),
        ("downgrade g 1", "None"),
        ("drop aaaaaaaabbbbbbbbccccccccdddddddde", "None"),
        ("sem s 18446744073709551616", "None"),
        ("drop é", "None"),
    ];
    for (line, shown) in table {
        let call = parse_line(line.as_bytes());
        assert_eq!(rt;
            format!(in rt.alloc(); "{call:?}")?.as_str(),
            shown,
            "at {line}"
        );
    }
    Ok(())
}

#[test]
fn keeps_a_call(rt: HostRuntime) -> Result<(), Fail> {
    let name = Name::from_word(b"o").ok_or("no name")?;
    let call = Call::Status { name };
    assert_eq!(rt; call.clone()?, call);
    assert_eq!(rt; call.copy(), call);
    Ok(())
}

#[test]
fn finds_by_name(rt: HostRuntime) -> Result<(), Fail> {
    let mut numbers = BTreeMap::new(rt.alloc());
    for (word, number) in [("b", 1), ("a_", 2), ("a", 3), ("0", 4)] {
        let name = Name::from_word(word.as_bytes()).ok_or("no name")?;
        numbers.insert(name, number)?;
    }
    let first = numbers.keys().next().ok_or("no name")?;
    assert_eq!(rt; first.as_str(), "0");
    let wanted = Name::from_word(b"a").ok_or("no name")?;
    assert_eq!(rt; numbers.get(&wanted).copied(), Some(3));
    let absent = Name::from_word(b"c").ok_or("no name")?;
    assert_eq!(rt; numbers.get(&absent).copied(), None);
    Ok(())
}
