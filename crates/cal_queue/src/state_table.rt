//! The words that the two sides of a connection share, for two threads: one that says which sides are there, and one
//! for each channel. The original keeps them in the shared management data of `zero_copy_connection/common.rs`. Each
//! side changes them in single steps through a seat of its own. The layer above may rely on each answer carrying a word
//! that a step of that call saw, and on a seat's pass, which contracts see: the list of all steps that the seat took.
ghost use Rattle.std.specs.Prelude.{◌≡◌, ◌≤◌, ◌^◌, ◌<◌, IfOk};
ghost use Rattle.cal_queue.specs.StateTable.{opening_words, new_pass_of};
ghost use Rattle.cal_queue.specs.StateSeats.{pass, ShareTable};

mod calls;
mod law;
mod pass;
mod rule;
mod seat;
mod steps;
mod tries;

pub use law::state_table_law;
pub use pass::{OpeningWords, StatePass, StateStep};
use rule::StateWords;
pub use seat::StateSeat;
use std::alloc::{AllocError, Global};
use std::sync::Arc;

/// The makers of seats at a new table of words. No value of it is needed.
#[derive(Clone, Copy, Debug)]
pub struct StateTable;

impl StateTable {
    /// A table whose port word is `port` and whose `channels` other words are `initial`, with a seat for each side. The
    /// error is out of memory, and nothing is left of the table then.
    pub fn new(
        alloc: Global,
        channels: usize,
        port: u8,
        initial: u64,
    ) -> Result<(StateSeat, StateSeat), AllocError>
        requires port { port ≤ 3 }
        ensures first { IfOk result (λ seats. pass seats.0 ≡ new_pass_of port channels initial) }
        ensures second { IfOk result (λ seats. pass seats.1 ≡ new_pass_of port channels initial) }
        ensures shared { IfOk result (λ seats. ShareTable seats.0 seats.1) }
    {
        let opening = OpeningWords {
            port: u64::from(port),
            initial,
            channels: channels as u64,
        };
        let words = opening_row(alloc, channels, opening.port, initial)?;
        let (table, mut seat) = StateWords::of_words(alloc, words.as_slice(), &opening)?;
        let other = steps::split(&table, &mut seat);
        let table = Arc::new(alloc, table)?;
        let shared = Arc::try_clone(&table)?;
        Ok((
            StateSeat { table, seat },
            StateSeat {
                table: shared,
                seat: other,
            },
        ))
    }
}

// The words in their order: the port word, and then one for each channel.
fn opening_row(alloc: Global, channels: usize, port: u64, each: u64) -> Result<Vec<u64>, AllocError>
    ensures { IfOk result
        (λ words. words.items ≡ opening_words (record { port = port; initial = each; channels = channels })) }
{
    let mut words = Vec::new(alloc);
    words.push(port)?;
    for _ in 0..channels {
        words.push(each)?;
    }
    Ok(words)
}

#[cfg(test)]
mod tests {
    use super::*;
    use crate::reserve_refusal::ReserveRefusal;
    use std::test::Fail;

    #[test]
    fn a_side_joins_once_and_the_last_to_leave_marks(rt: HostRuntime) -> Result<(), Fail> {
        let (mut first, mut second) = StateTable::new(rt.alloc(), 1, 0, 0)?;
        assert_eq!(rt; first.reserve(&rt, 1), Ok(()));
        assert_eq!(rt;
            first.reserve(&rt, 1),
            Err(ReserveRefusal::AlreadyConnected { seen: 1 })
        );
        assert!(rt; first.leave(&rt, 1));
        assert_eq!(rt;
            second.reserve(&rt, 2),
            Err(ReserveRefusal::BeingCleanedUp { seen: 128 })
        );
        assert!(rt; !second.leave(&rt, 2));
        assert_eq!(rt; first.load_port(), 128);
        Ok(())
    }

    #[test]
    fn a_side_that_leaves_the_other_takes_its_own_bit(rt: HostRuntime) -> Result<(), Fail> {
        let (mut first, mut second) = StateTable::new(rt.alloc(), 0, 3, 0)?;
        assert!(rt; !second.leave(&rt, 2));
        assert_eq!(rt; first.load_port(), 1);
        Ok(())
    }

    #[test]
    fn an_exchange_answers_the_word_that_it_found(rt: HostRuntime) -> Result<(), Fail> {
        let (mut first, mut second) = StateTable::new(rt.alloc(), 2, 1, 7)?;
        assert_eq!(rt; first.load_port(), 1);
        assert_eq!(rt; first.load_channel(0), 7);
        assert_eq!(rt; first.load_channel(1), 7);
        assert_eq!(rt; first.exchange_channel(1, 7, 8), Ok(7));
        assert_eq!(rt; second.exchange_channel(1, 7, 9), Err(8));
        assert_eq!(rt; second.load_channel(1), 8);
        assert_eq!(rt; second.load_channel(0), 7);
        Ok(())
    }
}
