//! The call of the putting end: one load and two stores, which take no memory and wait for nobody.
ghost use Rattle.std.specs.Prelude.{◌≡◌, ◌+◌, ◌-◌, ◌^◌, ◌<◌, ◌≤◌, ◌↔◌, [], ◌∷◌, ◌++◌, length, OnErr, OnOk, Err};

use super::put_seat::PutSeat;
use super::put_steps::{append, load_read};
use crate::positions::is_used_up;
use crate::push_refusal::PushRefusal;
use crate::ring_words::{FIRST_SLOT, next_index};

impl PutSeat {
    ghost use Rattle.cal_queue.specs.CompletionPass.{after_read_load, after_slot_store, after_write_store};
    ghost use Rattle.cal_queue.specs.CompletionCalls.{IsPush, SamePutEnd, put_pass};
    ghost use Rattle.cal_queue.specs.declared.push_refusal.PushRefusal.TheVariants.{PositionsUsedUp};

    // Loads the read position.
    fn look(&mut self) -> u64
        ensures same_end { SamePutEnd self.old self.new }
        ensures one_load { put_pass self.new ≡ after_read_load result (put_pass self.old) }
        ensures within { result ≤ length (put_pass self.old).put }
        ensures room { length (put_pass self.old).put ≤ result + (put_pass self.old).capacity }
    {
        load_read(&self.table, &mut self.seat)
    }

    // Puts a value where the last look showed room.
    fn put(&mut self, value: u64)
        requires room { length (put_pass self.old).put < (put_pass self.old).seen_read + (put_pass self.old).capacity }
        requires counts { length (put_pass self.old).put < 2 ^ 64 - 1 }
        ensures same_end { SamePutEnd self.old self.new }
        ensures put { put_pass self.new ≡ after_write_store (after_slot_store value (put_pass self.old)) }
    {
        let slot = FIRST_SLOT + self.index;
        append(&self.table, &mut self.seat, slot, self.written, value);
        self.index = next_index(self.index, self.capacity);
        self.written += 1;
    }

    /// Puts a value after all others. A ring that a look showed full is `Full`. Once 2^64 - 1 values were put the
    /// refusal is `PositionsUsedUp`, without a look. Either refusal leaves the ring as it was.
    pub fn push(&mut self, value: u64) -> Result<(), PushRefusal>
        ensures same_end { SamePutEnd self.old self.new }
        ensures is_push { IsPush value result (put_pass self.old) (put_pass self.new) }
        ensures appended { OnOk result ((put_pass self.new).put ≡ (put_pass self.old).put ++ value ∷ []) }
        ensures refused { OnErr result ((put_pass self.new).put ≡ (put_pass self.old).put) }
        ensures used_up { (result ≡ Err PositionsUsedUp) ↔ (length (put_pass self.old).put ≡ 2 ^ 64 - 1) }
    {
        if is_used_up(self.written) {
            return Err(PushRefusal::PositionsUsedUp);
        }
        let read = self.look();
        if self.written - read == self.capacity {
            return Err(PushRefusal::Full);
        }
        self.put(value);
        Ok(())
    }
}
