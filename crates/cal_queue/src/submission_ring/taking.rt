//! The calls of the taking end. Each turn of a pop is three loads and an exchange, and takes no memory.
ghost use Rattle.std.specs.Prelude.{◌≡◌, ◌+◌, ◌%◌, ◌<◌, ◌≤◌, ◌↔◌, [], ◌∷◌, ◌++◌, length, IsTrue, IsFalse, IfSome, IfNone, Some, None};

use super::take_seat::TakeSeat;
use super::take_steps::{load_positions, take};
use crate::ring_words::{FIRST_SLOT, next_index};
use std::sync::Wait;

impl TakeSeat {
    ghost use Rattle.cal_queue.specs.SubmissionPass.{after_read_look, after_write_look, after_slot_look};
    ghost use Rattle.cal_queue.specs.SubmissionPass.{after_take, after_miss};
    ghost use Rattle.cal_queue.specs.SubmissionCalls.{IsPop, LooksOnce, SameTakeEnd, take_pass};

    // Loads the read position, and then the write position.
    fn look(&mut self) -> (u64, u64)
        ensures same_end { SameTakeEnd self.old self.new }
        ensures looked { take_pass self.new
            ≡ after_write_look result.1 (after_read_look result.0 (take_pass self.old)) }
        ensures within { result.0 ≤ result.1 }
    {
        load_positions(&self.table, &mut self.seat)
    }

    // The index of a position's slot, without a division where no value overflowed since the last one was taken.
    fn index_of(&self, position: u64) -> usize
        ensures { result ≡ position % ((take_pass self.now).buffer + 1) }
    {
        if position == self.next {
            self.index
        } else {
            (position % (self.buffer + 1)) as usize
        }
    }

    // Takes the value at the position that the last look showed, unless the sender was faster.
    fn try_take(&mut self, read: u64, written: u64) -> Option<u64>
        requires looked { (read ≡ (take_pass self.old).seen_read) × ((take_pass self.old).seen_write ≡ Some written) }
        requires queued_count { read < written }
        ensures same_end { SameTakeEnd self.old self.new }
        ensures taken { IfSome result
            (λ value. take_pass self.new ≡ after_take (after_slot_look value (take_pass self.old))) }
        ensures lost { IfNone result (take_pass self.new ≡ after_miss (take_pass self.old)) }
    {
        let index = self.index_of(read);
        let value = take(
            &self.table,
            &mut self.seat,
            FIRST_SLOT + index,
            read,
            written,
        )?;
        self.received += 1;
        self.next = read + 1;
        self.index = next_index(index, self.buffer + 1);
        Some(value)
    }

    /// Takes the oldest value, if one waits. It tries again where the sender took that value back meanwhile.
    pub fn pop<R: Wait>(&mut self, rt: &R) -> Option<u64>
        ensures same_end { SameTakeEnd self.old self.new }
        ensures is_pop { IsPop result (take_pass self.old) (take_pass self.new) }
        ensures received { IfSome result (λ value. (take_pass self.new).received
            ≡ (take_pass self.old).received ++ ((take_pass self.new).seen_read, value) ∷ []) }
        ensures none_received { IfNone result ((take_pass self.new).received ≡ (take_pass self.old).received) }
    {
        for _ in rt.forever() {
            let (read, written) = self.look();
            if read == written {
                return None;
            }
            if let Some(value) = self.try_take(read, written) {
                return Some(value);
            }
        }
        unreachable!()
    }

    /// Whether a value waits, by one look.
    pub fn has_value(&mut self) -> bool
        ensures same_end { SameTakeEnd self.old self.new }
        ensures one_look { LooksOnce (take_pass self.old) (take_pass self.new) }
        ensures empty { IsFalse result ↔ ((take_pass self.new).seen_write ≡ Some (take_pass self.new).seen_read) }
    {
        let (read, written) = self.look();
        read != written
    }
}
