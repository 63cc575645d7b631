//! The calls of the sending end. A push is a load, two stores and at most one exchange; it takes no memory and waits
//! for nobody.
ghost use Rattle.std.specs.Prelude.{◌≡◌, ◌+◌, ◌-◌, ◌%◌, ◌^◌, ◌<◌, ◌≤◌, ◌↔◌, ◌⊎◌, [], ◌∷◌, ◌++◌, length, IsTrue, IsFalse, IfSome, IfNone, IfOk, IsOk, OnOk, OnErr, slice_get, Some, None, Ok, Err};

use super::send_seat::SendSeat;
use super::send_steps::{append, exchange_read, load_read};
use crate::positions::is_used_up;
use crate::push_refusal::PushRefusal;
use crate::ring_words::{FIRST_SLOT, next_index};

impl SendSeat {
    ghost use Rattle.cal_queue.specs.SubmissionPass.{after_lost_exchange, after_won_exchange};
    ghost use Rattle.cal_queue.specs.SubmissionPass.{after_read_load, after_stores};
    ghost use Rattle.cal_queue.specs.SubmissionCalls.{IsPush, LoadsOnce, SameLists, SameSendEnd, send_pass};
    ghost use Rattle.cal_queue.specs.declared.push_refusal.PushRefusal.TheVariants.{PositionsUsedUp};

    // Loads the read position.
    fn look(&mut self) -> u64
        ensures same_end { SameSendEnd self.old self.new }
        ensures one_load { send_pass self.new ≡ after_read_load result (send_pass self.old) }
        ensures within { result ≤ length (send_pass self.old).sent }
        ensures room { length (send_pass self.old).sent ≤ result + (send_pass self.old).buffer }
    {
        load_read(&self.table, &mut self.seat)
    }

    // Sends a value where the last look showed room.
    fn send(&mut self, value: u64)
        requires room { length (send_pass self.old).sent
            < (send_pass self.old).seen_read + (send_pass self.old).buffer }
        requires counts { length (send_pass self.old).sent < 2 ^ 64 - 1 }
        ensures same_end { SameSendEnd self.old self.new }
        ensures sent { send_pass self.new ≡ after_stores value (send_pass self.old) }
    {
        append(
            &self.table,
            &mut self.seat,
            FIRST_SLOT + self.index,
            self.written,
            value,
        );
        self.copy[self.index] = value;
        self.index = next_index(self.index, self.buffer + 1);
        self.written += 1;
    }

    // Sends a value where the last look showed none, and tries to take the oldest one back.
    fn send_with_overflow(&mut self, value: u64) -> Option<u64>
        requires full { length (send_pass self.old).sent
            ≡ (send_pass self.old).seen_read + (send_pass self.old).buffer }
        requires counts { length (send_pass self.old).sent < 2 ^ 64 - 1 }
        ensures same_end { SameSendEnd self.old self.new }
        ensures sent { (send_pass self.new).sent ≡ (send_pass self.old).sent ++ value ∷ [] }
        ensures back { IfSome result
            (λ oldest. send_pass self.new ≡ after_won_exchange (after_stores value (send_pass self.old))) }
        ensures overflowed { IfSome result (λ oldest.
            ((send_pass self.new).overflowed
            ≡ (send_pass self.old).overflowed ++ ((send_pass self.old).seen_read, oldest) ∷ [])
            × (slice_get (send_pass self.new).sent (send_pass self.old).seen_read ≡ Some oldest)) }
        ensures lost { IfNone result (send_pass self.new
            ≡ after_lost_exchange (after_stores value (send_pass self.old))) }
    {
        let read = self.written - self.buffer;
        append(
            &self.table,
            &mut self.seat,
            FIRST_SLOT + self.index,
            self.written,
            value,
        );
        self.copy[self.index] = value;
        self.index = next_index(self.index, self.buffer + 1);
        self.written += 1;
        if !exchange_read(&self.table, &mut self.seat, read) {
            return None;
        }
        self.overflowed += 1;
        Some(self.copy[self.index])
    }

    /// Sends a value after all others. With `overflow` a full ring takes it too, and its oldest value overflows: it
    /// comes back, unless it is received meanwhile. Without it a ring that a look showed full is `Full`. Once 2^64 - 1
    /// values were sent the refusal is `PositionsUsedUp`, without a look. Either refusal leaves the ring as it was.
    pub fn push(&mut self, value: u64, overflow: bool) -> Result<Option<u64>, PushRefusal>
        ensures same_end { SameSendEnd self.old self.new }
        ensures is_push { IsPush overflow value result (send_pass self.old) (send_pass self.new) }
        ensures appended { OnOk result ((send_pass self.new).sent ≡ (send_pass self.old).sent ++ value ∷ []) }
        ensures none_overflowed { IfOk result
            (λ back. IfNone back ((send_pass self.new).overflowed ≡ (send_pass self.old).overflowed)) }
        ensures refused { OnErr result (SameLists (send_pass self.old) (send_pass self.new)) }
        ensures taken_with_overflow { IsTrue overflow → length (send_pass self.old).sent < 2 ^ 64 - 1 → IsOk result }
        ensures used_up { (result ≡ Err PositionsUsedUp) ↔ (length (send_pass self.old).sent ≡ 2 ^ 64 - 1) }
    {
        if is_used_up(self.written) {
            return Err(PushRefusal::PositionsUsedUp);
        }
        let read = self.look();
        if self.written - read < self.buffer {
            self.send(value);
            return Ok(None);
        }
        if !overflow {
            return Err(PushRefusal::Full);
        }
        Ok(self.send_with_overflow(value))
    }

    /// Whether fewer values wait than may, by one look. Only this end adds values, so the answer `true` stays right
    /// until its next push.
    pub fn has_room(&mut self) -> bool
        ensures same_end { SameSendEnd self.old self.new }
        ensures one_look { LoadsOnce (send_pass self.old) (send_pass self.new) }
        ensures full { IsFalse result
            ↔ (length (send_pass self.old).sent ≡ (send_pass self.new).seen_read + (send_pass self.new).buffer) }
    {
        let read = self.look();
        self.written - read < self.buffer
    }
}
