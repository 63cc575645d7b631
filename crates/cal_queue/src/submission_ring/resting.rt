//! A ring at rest: both ends come together, and what became of the values is counted.
ghost use Rattle.std.specs.Prelude.{◌≡◌, ◌+◌, ◌≤◌, length};
ghost use Rattle.cal_queue.specs.Partition.{IsPartition};
ghost use Rattle.cal_queue.specs.SubmissionCalls.{IsOneRing, IsScheduled, send_pass, take_pass};

use super::plays::Settles;
use super::rule::Meeting;
use super::send_seat::SendSeat;
use super::take_seat::TakeSeat;
use crate::ring_words::READ_POSITION;

/// What became of the values that were sent into a ring: `sent` is the sum of the other three counts.
#[derive(Clone, Copy, PartialEq, Eq, Debug)]
pub struct RingRest {
    /// How many values were sent.
    pub sent: usize,
    /// How many the taking end received.
    pub received: usize,
    /// How many overflowed, and so came back to the sender.
    pub returned: usize,
    /// How many are still in the ring: at most as many as its buffer holds.
    pub left: usize,
}

/// Takes both ends of a ring, and counts what became of the values.
pub fn rest(send: SendSeat, take: TakeSeat) -> RingRest
    requires one_ring { IsOneRing send take }
    ensures sent { result.sent ≡ length (send_pass send).sent }
    ensures received { result.received ≡ length (take_pass take).received }
    ensures returned { result.returned ≡ length (send_pass send).overflowed }
    ensures adds_up { result.sent ≡ result.received + result.returned + result.left }
    ensures within { result.left ≤ (send_pass send).buffer }
    ensures partition { IsPartition (send_pass send).sent (take_pass take).received (send_pass send).overflowed }
    ensures scheduled { IsScheduled (send_pass send) (take_pass take) }
{
    let SendSeat {
        table,
        mut seat,
        buffer: _,
        written,
        overflowed,
        index: _,
        copy: _,
    } = send;
    let TakeSeat {
        table: _,
        seat: other,
        buffer: _,
        received,
        next: _,
        index: _,
    } = take;
    table.shared.join_seat::<Meeting>(&mut seat, other);
    let read = table.shared.load::<Settles>(&mut seat, READ_POSITION);
    RingRest {
        sent: written as usize,
        received: received as usize,
        returned: overflowed as usize,
        left: (written - read) as usize,
    }
}
