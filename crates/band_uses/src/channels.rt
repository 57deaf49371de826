//! A message that is taken where it is known to be there, one that is kept where nobody takes it, and a wait that is given up.
ghost use Rattle.std.specs.Prelude.{◌≡◌, ◌≢◌, Some, IsSome, IfSome, IsNone, IsErr, IfErr};
ghost use Rattle.band_oneshot.specs.declared.word.TheConstants.{DISCONNECTED};
ghost use Rattle.band_oneshot.specs.Ends.{receiver_looked};

use band_base::Waker;
use band_oneshot::{MESSAGE, Receiver, Recv, RecvPoll, Sender};

/// Takes the message if it is there. After a true `has_message` it is, whatever the sender does meanwhile.
pub fn take_ready<T: Drop>(receiver: &mut Receiver<T>) -> Option<T>
    ensures taken { IfSome result (λ message. receiver.new.message ≡ Some message) }
    ensures none { IsNone result → receiver.new ≡ receiver_looked receiver.new.word receiver.old }
    ensures not_there { IsNone result → receiver.new.word ≢ MESSAGE }
{
    if !receiver.has_message() {
        return None;
    }
    let Ok(message) = receiver.try_recv() else {
        unreachable!()
    };
    Some(message)
}

/// Sends the message, and hands it back where nobody is there.
pub fn send_or_keep(sender: Sender<u64>, message: u64) -> Result<Option<Waker>, u64>
    ensures kept { IfErr result (λ back. back ≡ message) }
    ensures known { sender.word ≡ DISCONNECTED → IsErr result }
{
    let (answer, _spent) = sender.send(message);
    match answer {
        Ok(wake) => Ok(wake),
        Err(error) => Err(error.into_inner()),
    }
}

/// Polls once, and gives up where the message is not there yet. One that comes meanwhile is handed over.
pub fn receive_or_give_up<T: Drop>(wait: Recv<T>, waker: Waker) -> Option<T>
    ensures message { wait.word ≡ MESSAGE → IsSome result }
    ensures end { wait.word ≡ DISCONNECTED → IsNone result }
{
    let mut wait = wait;
    match wait.poll(waker) {
        RecvPoll::Ready(Ok(message)) => Some(message),
        RecvPoll::Ready(Err(_)) => None,
        RecvPoll::Pending | RecvPoll::Again(_) => {
            let (message, _spent) = wait.cancel();
            message
        }
    }
}
