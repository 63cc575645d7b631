//! A ring at rest: both ends come together, and what became of the values is counted.
ghost use Rattle.std.specs.Prelude.{◌≡◌, ◌+◌, ◌≤◌, length, take};
ghost use Rattle.cal_queue.specs.CompletionCalls.{IsOneRing, get_pass, put_pass};
ghost use Rattle.cal_queue.specs.RingState.{IsCompleted};

use super::get_seat::GetSeat;
use super::plays::Settles;
use super::put_seat::PutSeat;
use super::rule::Meeting;
use crate::ring_words::READ_POSITION;

/// What became of the values that were put into a ring: `put` is the sum of the other two counts.
#[derive(Clone, Copy, PartialEq, Eq, Debug)]
pub struct CompletionRest {
    /// How many values were put.
    pub put: usize,
    /// How many of them were got: they are the first ones.
    pub got: usize,
    /// How many are still in the ring: at most its capacity.
    pub left: usize,
}

/// Takes both ends of a ring, and counts what became of the values.
pub fn rest_completion(put: PutSeat, get: GetSeat) -> CompletionRest
    requires one_ring { IsOneRing put get }
    ensures put { result.put ≡ length (put_pass put).put }
    ensures got { result.got ≡ length (get_pass get).got }
    ensures adds_up { result.put ≡ result.got + result.left }
    ensures within { result.left ≤ (put_pass put).capacity }
    ensures got_first { (get_pass get).got ≡ take result.got (put_pass put).put }
    ensures completed { IsCompleted (put_pass put).capacity (put_pass put).put result.got }
{
    let PutSeat {
        table,
        mut seat,
        written,
        ..
    } = put;
    let GetSeat {
        seat: other,
        read,
        ..
    } = get;
    table.shared.join_seat::<Meeting>(&mut seat, other);
    table.shared.load::<Settles>(&mut seat, READ_POSITION);
    CompletionRest {
        put: written as usize,
        got: read as usize,
        left: (written - read) as usize,
    }
}
