//! One try of a side that joins or leaves. The calls try again where another step came between.
ghost use Rattle.std.specs.Prelude.{◌≡◌, ℕ, ◌⊎◌, IfErr, IfNone, IfOk, IfSome, OnOk};
ghost use Rattle.std.specs.Bool.{MatchBool, OnFalse, OnTrue};
ghost use Rattle.cal_queue.specs.StateAnswers.{LeftMark, LeftOther, OnlyLooked, Refused, Reserved, WasAbsent};
ghost use Rattle.cal_queue.specs.StateTable.{IsPortBit, IsPortWord, IsWitnessed, MayChange, has_bit, load_step, port_index, after_step, write_step};

use super::{StateSeat, steps};
use crate::reserve_refusal::ReserveRefusal;

// The index of the port word.
pub(super) const PORT: usize = 0;

// The port word of a connection with both sides.
const BOTH: u64 = 3;

// The port word of a connection that is being cleaned up.
const MARK: u64 = 128;

fn has_bit(word: u64, bit: u64) -> bool
    requires word { IsPortWord word }
    requires bit { IsPortBit bit }
    ensures { result ≡ has_bit word bit }
{
    word == bit || word == BOTH
}

impl StateSeat {
    ghost use Rattle.cal_queue.specs.StateSeats.{ShareTable, pass};

    // One exchange of the port word, and whether it won.
    fn try_change(&mut self, seen: u64, new: u64) -> bool
        requires { MayChange seen new }
        ensures same_table { ShareTable self.new self.old }
        ensures won { OnTrue result (pass self.new ≡ after_step (pass self.old) (write_step port_index seen new)) }
        ensures lost { OnFalse result ((word : ℕ)
            × (pass self.new ≡ after_step (pass self.old) (load_step port_index word))) }
        ensures witnessed { IsWitnessed (pass self.new) }
    {
        let StateSeat { table, seat, .. } = self;
        steps::exchange(table, seat, PORT, seen, new) == seen
    }

    // Whether the bit was added. It was not where the word changed after it was looked at.
    pub(super) fn try_reserve(&mut self, bit: u64) -> Result<bool, ReserveRefusal>
        requires { IsPortBit bit }
        ensures same_table { ShareTable self.new self.old }
        ensures ok { IfOk result (λ won. MatchBool won
            (Reserved bit (pass self.old) (pass self.new)) (OnlyLooked (pass self.old) (pass self.new))) }
        ensures refused { IfErr result (λ refusal. Refused bit refusal (pass self.old) (pass self.new)) }
        ensures witnessed { IsWitnessed (pass self.new) }
    {
        let seen = self.load_port();
        if has_bit(seen, bit) {
            return Err(ReserveRefusal::AlreadyConnected { seen });
        }
        if seen == MARK {
            return Err(ReserveRefusal::BeingCleanedUp { seen });
        }
        Ok(self.try_change(seen, seen + bit))
    }

    // Whether the word was marked, or None where it changed after it was looked at.
    pub(super) fn try_leave(&mut self, bit: u64) -> Option<bool>
        requires { IsPortBit bit }
        ensures same_table { ShareTable self.new self.old }
        ensures some { IfSome result (λ marked. MatchBool marked
            (LeftMark bit (pass self.old) (pass self.new))
            (LeftOther bit (pass self.old) (pass self.new) ⊎ WasAbsent bit (pass self.old) (pass self.new))) }
        ensures none { IfNone result (OnlyLooked (pass self.old) (pass self.new)) }
        ensures witnessed { IsWitnessed (pass self.new) }
    {
        let seen = self.load_port();
        if !has_bit(seen, bit) {
            return Some(false);
        }
        if seen == bit {
            return self.try_change(seen, MARK).then_some(true);
        }
        self.try_change(seen, BOTH - bit).then_some(false)
    }
}
