//! The ring by which a receiver gives chunks back to their sender, in place of the original's `index_queue` (`spsc` of
//! iceoryx2-bb-lock-free). One end puts and the other gets, each from a thread of its own and without a lock. The layer
//! above may rely on values being got in the order in which they were put, each once, on no call waiting for the other
//! side, and on `rest_completion`, which joins both ends and says that what was got is the beginning of what was put.
ghost use Rattle.std.specs.Prelude.{◌≡◌, ◌^◌, ◌<◌, ◌≤◌, IfOk};
ghost use Rattle.cal_queue.specs.CompletionCalls.{IsOneRing, get_pass, put_pass};
ghost use Rattle.cal_queue.specs.CompletionPass.{new_get_pass, new_put_pass};

mod get_seat;
mod get_steps;
mod getting;
mod interleavings;
mod pass;
mod plays;
mod put_seat;
mod put_steps;
mod putting;
mod resting;
mod rule;

use crate::sided::Parting;
pub use get_seat::GetSeat;
pub use interleavings::every_interleaving_is_a_schedule;
pub use pass::{GetPass, PutPass};
pub use put_seat::PutSeat;
pub use resting::{CompletionRest, rest_completion};
use rule::RingTable;
use std::alloc::{AllocError, Global};
use std::sync::Arc;

/// The maker of a ring's two ends. No value of it is needed.
#[derive(Clone, Copy, Debug)]
pub struct CompletionRing;

impl CompletionRing {
    /// The two ends of a ring in which at most `capacity` values wait. All the memory that they ever need is taken
    /// here; the error is out of memory, and nothing is left of the ring then.
    pub fn new(alloc: Global, capacity: usize) -> Result<(PutSeat, GetSeat), AllocError>
        requires some { 1 ≤ capacity }
        requires most { capacity < 2 ^ 32 }
        ensures one_ring { IfOk result (λ ends. IsOneRing ends.0 ends.1) }
        ensures nothing_put { IfOk result (λ ends. put_pass ends.0 ≡ new_put_pass capacity) }
        ensures nothing_got { IfOk result (λ ends. get_pass ends.1 ≡ new_get_pass capacity) }
    {
        let words = vec![in alloc; 0; capacity + 2]?;
        let capacity = capacity as u64;
        let (table, mut seat) = RingTable::of_words(alloc, words.as_slice(), &capacity)?;
        let other = table.shared.split_seat::<Parting>(&mut seat);
        let table = Arc::new(alloc, table)?;
        let shared = Arc::try_clone(&table)?;
        let put = PutSeat {
            table,
            seat,
            capacity,
            written: 0,
            index: 0,
        };
        let get = GetSeat {
            table: shared,
            seat: other,
            capacity,
            read: 0,
            index: 0,
        };
        Ok((put, get))
    }
}

#[cfg(test)]
mod tests {
    use super::*;
    use crate::push_refusal::PushRefusal;
    use std::test::Fail;

    #[test]
    fn a_full_ring_refuses_a_value(rt: HostRuntime) -> Result<(), Fail> {
        let (mut put, mut get) = CompletionRing::new(rt.alloc(), 1)?;
        assert_eq!(rt; put.push(7), Ok(()));
        assert_eq!(rt; put.push(8), Err(PushRefusal::Full));
        assert_eq!(rt; get.pop(), Some(7));
        assert_eq!(rt; get.pop(), None);
        let rest = rest_completion(put, get);
        assert_eq!(rt; (rest.put, rest.got, rest.left), (1, 1, 0));
        Ok(())
    }

    #[test]
    fn the_oldest_value_comes_first(rt: HostRuntime) -> Result<(), Fail> {
        let (mut put, mut get) = CompletionRing::new(rt.alloc(), 3)?;
        assert_eq!(rt; put.push(1), Ok(()));
        assert_eq!(rt; put.push(2), Ok(()));
        assert_eq!(rt; get.pop(), Some(1));
        assert_eq!(rt; put.push(3), Ok(()));
        assert_eq!(rt; put.push(4), Ok(()));
        assert_eq!(rt; put.push(5), Err(PushRefusal::Full));
        assert_eq!(rt; get.pop(), Some(2));
        assert_eq!(rt; get.pop(), Some(3));
        let rest = rest_completion(put, get);
        assert_eq!(rt; (rest.put, rest.got, rest.left), (4, 3, 1));
        Ok(())
    }
}
