//! The words of a connection between two threads: each side joins and leaves, and both add to a channel's word.
ghost use Rattle.std.specs.Prelude.{◌≡◌, ◌<◌, ◌⊎◌, [], All, IfErr, IfOk};
ghost use Rattle.std.specs.Bool.{OnFalse, OnTrue};
ghost use Rattle.cal_queue.specs.StateAnswers.{Refused};
ghost use Rattle.cal_queue.specs.StateSeats.{pass};
ghost use Rattle.cal_queue.specs.StateTable.{IsPortBit, IsPortWord, mark, port_index, write_step};
ghost use Rattle.cal_tests.specs.Writes.{AddsOne, EndsIn, FindsBitGone, LeavesOtherBehind, writes};

use cal_queue::reserve_refusal::ReserveRefusal;
use cal_queue::state_table::{StateSeat, StateTable};
use std::alloc::{AllocError, Global};
use std::sync::Wait;
use std::thread::{Threads, join};

/// A side joins and leaves again. The answer is whether it left the mark, or why it did not join. Where it left none,
/// it found the other side there, or its own bit taken by another seat.
fn visit<R: Wait>(rt: &R, mut seat: StateSeat, bit: u8) -> (StateSeat, Result<bool, ReserveRefusal>)
    requires bit { IsPortBit bit }
    ensures marked { IfOk result.1
        (λ marked. OnTrue marked (EndsIn (pass result.0).steps (write_step port_index bit mark))) }
    ensures unmarked { IfOk result.1 (λ marked. OnFalse marked
        (LeavesOtherBehind bit (pass result.0).steps ⊎ FindsBitGone bit (pass result.0).steps)) }
    ensures refused { IfErr result.1 (λ refusal. Refused bit refusal (pass seat) (pass result.0)) }
{
    if let Err(refusal) = seat.reserve(rt, bit) {
        return (seat, Err(refusal));
    }
    let marked = seat.leave(rt, bit);
    (seat, Ok(marked))
}

/// Two sides join and leave, each in a thread of its own. The answers are theirs, and the port word that is left.
pub fn visit_from_two_threads<R: Threads + Wait + Sync>(
    rt: &R,
    alloc: Global,
) -> Result<
    (
        Result<bool, ReserveRefusal>,
        Result<bool, ReserveRefusal>,
        u64,
    ),
    AllocError,
>
    ensures port { IfOk result (λ r. IsPortWord r.2) }
{
    let (first, second) = StateTable::new(alloc, 0, 0, 0)?;
    let (one, two) = join(rt, || visit(rt, first, 1), || visit(rt, second, 2));
    let (mut seat, one) = one;
    let (_, two) = two;
    Ok((one, two, seat.load_port()))
}

/// Adds 1 to the word of a channel as often as was asked, and tries again where the other side was faster.
fn add_ones<R: Wait>(rt: &R, mut seat: StateSeat, times: u64) -> StateSeat
    requires channel { 0 < (pass seat).opening.channels }
    requires unused { (pass seat).steps ≡ [] }
    ensures writes { writes (pass result).steps ≡ times }
    ensures adds { All (AddsOne 0) (pass result).steps }
    ensures channel { 0 < (pass result).opening.channels }
{
    let mut seen = seat.load_channel(0);
    let mut done = 0;
    for _ in rt.forever() {
        if done >= times {
            break;
        }
        match seat.exchange_channel(0, seen, seen.wrapping_add(1)) {
            Ok(found) => {
                seen = found.wrapping_add(1);
                done += 1;
            }
            Err(found) => seen = found,
        }
    }
    seat
}

/// Two sides add to the word of one channel, each in a thread of its own. The answers are their seats, and the word
/// that is left.
pub fn add_from_two_threads<R: Threads + Wait + Sync>(
    rt: &R,
    alloc: Global,
    times: u64,
) -> Result<(StateSeat, StateSeat, u64), AllocError>
    ensures first { IfOk result (λ r. writes (pass r.0).steps ≡ times) }
    ensures first_adds { IfOk result (λ r. All (AddsOne 0) (pass r.0).steps) }
    ensures second { IfOk result (λ r. writes (pass r.1).steps ≡ times) }
    ensures second_adds { IfOk result (λ r. All (AddsOne 0) (pass r.1).steps) }
{
    let (first, second) = StateTable::new(alloc, 1, 0, 0)?;
    let (first, mut second) = join(
        rt,
        || -> StateSeat
            requires unused { (0 < (pass first).opening.channels) × ((pass first).steps ≡ []) }
            ensures adds { (writes (pass result).steps ≡ times) × All (AddsOne 0) (pass result).steps }
        { add_ones(rt, first, times) },
        || -> StateSeat
            requires unused { (0 < (pass second).opening.channels) × ((pass second).steps ≡ []) }
            ensures adds { (writes (pass result).steps ≡ times) × All (AddsOne 0) (pass result).steps
                × (0 < (pass result).opening.channels) }
        { add_ones(rt, second, times) },
    );
    let word = second.load_channel(0);
    Ok((first, second, word))
}

#[cfg(test)]
mod tests {
    use super::*;
    use std::test::Fail;

    #[test]
    fn the_last_of_two_sides_leaves_the_mark(rt: HostRuntime) -> Result<(), Fail> {
        for _ in 0..100 {
            let (first, second, word) = visit_from_two_threads(&rt, rt.alloc())?;
            assert_eq!(rt; word, 128);
            assert!(rt; (first == Ok(true)) != (second == Ok(true)));
        }
        Ok(())
    }

    #[test]
    fn two_sides_lose_no_step_at_one_word(rt: HostRuntime) -> Result<(), Fail> {
        let (_first, _second, word) = add_from_two_threads(&rt, rt.alloc(), 10_000)?;
        assert_eq!(rt; word, 20_000);
        Ok(())
    }
}
