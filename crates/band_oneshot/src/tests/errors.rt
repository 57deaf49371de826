//! The errors.

use crate::*;
use std::test::Fail;

#[test]
fn errors_have_texts_and_are_compared(rt: HostRuntime) -> Result<(), Fail> {
    let alloc = rt.alloc();
    let (sender, receiver) = channel::<u32>(alloc)?;
    drop(receiver);
    let (answer, _spent) = sender.send(1);
    match answer {
        Ok(_wake) => panic!(rt; "nobody was there"),
        Err(error) => {
            assert_eq!(rt;
                error.to_string(alloc)?.as_str(),
                "sending on a disconnected channel"
            );
            assert!(rt; *error.as_inner() == 1);
        }
    }
    let rows = [
        (TryRecvError::Empty, "receiving on an empty channel"),
        (
            TryRecvError::Disconnected,
            "receiving on a disconnected channel",
        ),
    ];
    for (error, text) in rows {
        assert_eq!(rt; error.to_string(alloc)?.as_str(), text);
        assert!(rt; error.clone()? == error);
    }
    assert!(rt; TryRecvError::Empty != TryRecvError::Disconnected);
    let error = RecvError::Disconnected;
    assert_eq!(rt;
        error.to_string(alloc)?.as_str(),
        "receiving on a disconnected channel"
    );
    assert!(rt; error.clone()? == error);
    Ok(())
}
