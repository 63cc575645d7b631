//! The queue of a channel for two threads, in place of the original's `safely_overflowing_index_queue` (`spsc` of
//! iceoryx2-bb-lock-free). One end sends and the other takes, each from a thread of its own and without a lock: a
//! sender never waits, and with overflow the oldest value of a full ring comes back instead of a refusal. The layer
//! above may rely on each value sent being received or overflowing at most once, in the order of sending, and on
//! `rest`, which joins both ends and says that nothing was lost.
ghost use Rattle.std.specs.Prelude.{◌≡◌, ◌+◌, ◌^◌, ◌<◌, ◌≤◌, replicate, IfOk};
ghost use Rattle.cal_queue.specs.SubmissionPass.{new_send_pass, new_take_pass};
ghost use Rattle.cal_queue.specs.SubmissionCalls.{send_pass, take_pass, IsOneRing};

mod interleavings;
mod pass;
mod plays;
mod resting;
mod rule;
mod send_seat;
mod send_steps;
mod sending;
mod take_seat;
mod take_steps;
mod taking;
#[cfg(test)]
mod tests;

use crate::ring_words::FIRST_SLOT;
use crate::sided::Parting;
pub use interleavings::every_interleaving_is_a_schedule;
pub use pass::{SendPass, TakePass};
pub use resting::{RingRest, rest};
use rule::RingTable;
pub use send_seat::SendSeat;
use std::alloc::{AllocError, Global};
use std::sync::Arc;
pub use take_seat::TakeSeat;

/// The maker of a ring's two ends. No value of it is needed.
#[derive(Clone, Copy, Debug)]
pub struct SubmissionRing;

fn zeros(alloc: Global, count: usize) -> Result<Vec<u64>, AllocError>
    ensures { IfOk result (λ row. row.items ≡ replicate count 0) }
{
    vec![in alloc; 0; count]
}

impl SubmissionRing {
    /// The two ends of a ring in which at most `buffer` values wait between two calls. All the memory that they ever
    /// need is taken here; the error is out of memory, and nothing is left of the ring then.
    pub fn new(alloc: Global, buffer: usize) -> Result<(SendSeat, TakeSeat), AllocError>
        requires some { 1 ≤ buffer }
        requires most { buffer < 2 ^ 32 }
        ensures one_ring { IfOk result (λ ends. IsOneRing ends.0 ends.1) }
        ensures nothing_sent { IfOk result (λ ends. send_pass ends.0 ≡ new_send_pass buffer) }
        ensures nothing_received { IfOk result (λ ends. take_pass ends.1 ≡ new_take_pass buffer) }
    {
        let copy = zeros(alloc, buffer + 1)?;
        let words = zeros(alloc, FIRST_SLOT + buffer + 1)?;
        let buffer = buffer as u64;
        let (table, mut seat) = RingTable::of_words(alloc, words.as_slice(), &buffer)?;
        let other = table.shared.split_seat::<Parting>(&mut seat);
        let table = Arc::new(alloc, table)?;
        let shared = Arc::try_clone(&table)?;
        let send = SendSeat {
            table,
            seat,
            buffer,
            written: 0,
            overflowed: 0,
            index: 0,
            copy,
        };
        let take = TakeSeat {
            table: shared,
            seat: other,
            buffer,
            received: 0,
            next: 0,
            index: 0,
        };
        Ok((send, take))
    }
}
