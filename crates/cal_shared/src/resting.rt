//! A pair at rest: both ports come together, and what went over their channel is counted.
ghost use Rattle.std.specs.Prelude.{◌≡◌, ◌+◌, ◌≤◌, length, take};
ghost use Rattle.cal_queue.specs.Partition.{IsPartition};
ghost use Rattle.cal_shared.specs.Port.{IsOnePair};
ghost use Rattle.cal_shared.specs.Rest.{CountsChannel, IsOneSchedule, bounds_of, overflowed_at, received_at, reclaimed_at, released_at, sent_at};

use crate::receiving_end::ReceivingEnd;
use crate::sending_end::SendingEnd;
use crate::shared_port::SharedPort;
use crate::shared_receiver::SharedReceiver;
use crate::shared_sender::SharedSender;
use cal_queue::completion_ring::rest_completion;
use cal_queue::submission_ring;

/// What went over a channel. What was sent is the sum of what was received, returned and left.
#[derive(Clone, Copy, PartialEq, Eq, Debug)]
pub struct PortRest {
    /// How many offsets were sent.
    pub sent: usize,
    /// How many of them the receiver received.
    pub received: usize,
    /// How many of them overflowed, and so came back to the sender.
    pub returned: usize,
    /// How many of them are still queued.
    pub left: usize,
    /// How many offsets the receiver released: at most as many as it received.
    pub released: usize,
    /// How many of those the sender took back.
    pub reclaimed: usize,
}

/// Takes both ends of a channel, and counts what went over it.
fn rest_of_channel(sending: SendingEnd, receiving: ReceivingEnd) -> PortRest
    requires rings { sending.rings ≡ receiving.rings }
    ensures counted { CountsChannel sending receiving result }
{
    let SendingEnd {
        submission: send,
        completion: get,
        segments: _,
    } = sending;
    let ReceivingEnd {
        submission: take,
        completion: put,
        borrow_count: _,
    } = receiving;
    let submitted = submission_ring::rest(send, take);
    let completed = rest_completion(put, get);
    PortRest {
        sent: submitted.sent,
        received: submitted.received,
        returned: submitted.returned,
        left: submitted.left,
        released: completed.put,
        reclaimed: completed.got,
    }
}

/// Takes both ports of a pair with one channel, and counts what went over it.
pub fn rest(sender: SharedSender, receiver: SharedReceiver) -> PortRest
    requires pair { IsOnePair sender receiver }
    requires one_channel { sender.settings.number_of_channels ≡ 1 }
    ensures sent { result.sent ≡ length (sent_at sender 0) }
    ensures received { result.received ≡ length (received_at receiver 0) }
    ensures returned { result.returned ≡ length (overflowed_at sender 0) }
    ensures released { result.released ≡ length (released_at receiver 0) }
    ensures reclaimed { result.reclaimed ≡ length (reclaimed_at sender 0) }

    ensures adds_up { result.sent ≡ result.received + result.returned + result.left }
    ensures within { result.left ≤ sender.settings.buffer_size }
    ensures released_after_received { result.released ≤ result.received }
    ensures reclaimed_after_released { result.reclaimed ≤ result.released }

    ensures partition { IsPartition (sent_at sender 0) (received_at receiver 0) (overflowed_at sender 0) }
    ensures reclaimed_first { reclaimed_at sender 0 ≡ take result.reclaimed (released_at receiver 0) }
    ensures one_schedule { IsOneSchedule (bounds_of sender.settings) (sent_at sender 0) (overflowed_at sender 0)
        (received_at receiver 0) (released_at receiver 0) result.reclaimed }
{
    let SharedPort {
        channels: mut sending,
        ..
    } = sender;
    let SharedPort {
        channels: mut receiving,
        ..
    } = receiver;
    let Some(sending) = sending.pop() else {
        unreachable!();
    };
    let Some(receiving) = receiving.pop() else {
        unreachable!();
    };
    rest_of_channel(sending, receiving)
}
