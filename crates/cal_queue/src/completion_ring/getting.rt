//! The call of the getting end: two loads and a store, which take no memory and wait for nobody.
ghost use Rattle.std.specs.Prelude.{◌≡◌, ◌+◌, ◌-◌, ◌^◌, ◌<◌, ◌≤◌, [], ◌∷◌, ◌++◌, length, IfSome, IfNone};

use super::get_seat::GetSeat;
use super::get_steps::{load_write, take};
use crate::ring_words::{FIRST_SLOT, next_index};

impl GetSeat {
    ghost use Rattle.cal_queue.specs.CompletionPass.{after_slot_look, after_write_look, after_read_store};
    ghost use Rattle.cal_queue.specs.CompletionCalls.{IsPop, SameGetEnd, get_pass};

    // Loads the write position.
    fn look(&mut self) -> u64
        ensures same_end { SameGetEnd self.old self.new }
        ensures one_load { get_pass self.new ≡ after_write_look result (get_pass self.old) }
        ensures within { length (get_pass self.old).got ≤ result }
    {
        load_write(&self.table, &mut self.seat)
    }

    // Gets the oldest value where the last look showed that one waits.
    fn get(&mut self) -> u64
        requires waits { length (get_pass self.old).got < (get_pass self.old).seen_write }
        requires counts { length (get_pass self.old).got < 2 ^ 64 - 1 }
        ensures same_end { SameGetEnd self.old self.new }
        ensures got { get_pass self.new ≡ after_read_store (after_slot_look result (get_pass self.old)) }
    {
        let slot = FIRST_SLOT + self.index;
        let value = take(&self.table, &mut self.seat, slot, self.read);
        self.index = next_index(self.index, self.capacity);
        self.read += 1;
        value
    }

    /// Gets the oldest value, if a look shows that one waits.
    pub fn pop(&mut self) -> Option<u64>
        ensures same_end { SameGetEnd self.old self.new }
        ensures is_pop { IsPop result (get_pass self.old) (get_pass self.new) }
        ensures got { IfSome result (λ value. (get_pass self.new).got ≡ (get_pass self.old).got ++ value ∷ []) }
        ensures none_got { IfNone result ((get_pass self.new).got ≡ (get_pass self.old).got) }
    {
        let written = self.look();
        if written == self.read {
            return None;
        }
        Some(self.get())
    }
}
