//! A new channel.
ghost use Rattle.std.specs.Prelude.{◌≡◌, IfOk};
ghost use Rattle.band_oneshot.specs.Ends.{new_sender, new_receiver};

use crate::end::{EMPTY, End};
use crate::receiver::Receiver;
use crate::recv::Recv;
use crate::rule::{Ends, Law, Prepare};
use crate::sender::Sender;
use crate::spent::Spent;
use crate::view::{Held, View};
use atomic_table::Table;
use std::alloc::{AllocError, Global};
use std::mem::size_of;
use std::sync::Arc;

// An end takes the room of one pointer, and what is left of it none.
const _: () = prove!(size_of::<Sender<u64>>() == 8);

const _: () = prove!(size_of::<Receiver<u64>>() == 8);

const _: () = prove!(size_of::<Recv<u64>>() == 8);

const _: () = prove!(size_of::<Spent<u64>>() == 0);

/// A new channel for one message. Ports `channel`.
pub fn channel<T: Drop>(alloc: Global) -> Result<(Sender<T>, Receiver<T>), AllocError>
    ensures sender { IfOk result (λ ends. ends.0 ≡ new_sender) }
    ensures receiver { IfOk result (λ ends. ends.1 ≡ new_receiver) }
{
    let (table, mut seat) = Table::<Option<Held<T>>, View<T>, (), Law, Global>::vacant(
        alloc,
        &[EMPTY],
        2,
        &(),
    )?;
    let channel = Arc::new(alloc, table)?;
    let _ = channel.shared.load::<Prepare>(&mut seat, 0);
    let other = channel.shared.split_seat::<Ends>(&mut seat);
    let sender = Sender {
        end: End {
            channel: Arc::try_clone(&channel)?,
            seat,
        },
    };
    let receiver = Receiver {
        end: End {
            channel,
            seat: other,
        },
    };
    Ok((sender, receiver))
}
