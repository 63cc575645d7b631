//! The calls of one side. Each step of a call is added to the seat's pass, and nothing else is.
ghost use Rattle.std.specs.Prelude.{◌≡◌, ◌≢◌, ◌+◌, ◌<◌, ◌⊎◌, IfErr, MatchResult, OnOk};
ghost use Rattle.std.specs.Bool.{OnFalse, OnTrue};
ghost use Rattle.cal_queue.specs.StateAnswers.{LeftMark, LeftOther, Refused, Reserved, WasAbsent};
ghost use Rattle.cal_queue.specs.StateTable.{IsPortBit, IsPortWord, IsWitnessed, channel_index, load_step, port_index, after_step, write_step};

use super::tries::PORT;
use super::{StateSeat, steps};
use crate::reserve_refusal::ReserveRefusal;
use std::sync::Wait;

impl StateSeat {
    ghost use Rattle.cal_queue.specs.StateSeats.{ShareTable, pass};

    /// Which sides are there, by one load of the port word.
    pub fn load_port(&mut self) -> u64
        ensures same_table { ShareTable self.new self.old }
        ensures step { pass self.new ≡ after_step (pass self.old) (load_step port_index result) }
        ensures port { IsPortWord result }
        ensures witnessed { IsWitnessed (pass self.new) }
    {
        let StateSeat { table, seat, .. } = self;
        steps::load(table, seat, PORT)
    }

    /// The word of a channel, by one load.
    pub fn load_channel(&mut self, channel: usize) -> u64
        requires channel { channel < (pass self.old).opening.channels }
        ensures same_table { ShareTable self.new self.old }
        ensures step { pass self.new ≡ after_step (pass self.old) (load_step (channel_index channel) result) }
        ensures witnessed { IsWitnessed (pass self.new) }
    {
        let StateSeat { table, seat, .. } = self;
        steps::load(table, seat, channel + 1)
    }

    /// Replaces the word that is expected by a new one, by one exchange. The error is the other
    /// word that was found, which stays.
    pub fn exchange_channel(&mut self, channel: usize, expected: u64, new: u64) -> Result<u64, u64>
        requires channel { channel < (pass self.old).opening.channels }
        ensures same_table { ShareTable self.new self.old }
        ensures won { OnOk result (pass self.new
            ≡ after_step (pass self.old) (write_step (channel_index channel) expected new)) }
        ensures word { MatchResult result (λ word. word ≡ expected) (λ word. word ≢ expected) }
        ensures lost { IfErr result
            (λ word. pass self.new ≡ after_step (pass self.old) (load_step (channel_index channel) word)) }
        ensures witnessed { IsWitnessed (pass self.new) }
    {
        let StateSeat { table, seat, .. } = self;
        let found = steps::exchange(table, seat, channel + 1, expected, new);
        if found == expected {
            Ok(found)
        } else {
            Err(found)
        }
    }

    /// Joins: adds a side's bit to a port word that has neither that bit nor the mark.
    pub fn reserve<R: Wait>(&mut self, rt: &R, bit: u8) -> Result<(), ReserveRefusal>
        requires bit { IsPortBit bit }
        ensures same_table { ShareTable self.new self.old }
        ensures ok { OnOk result (Reserved bit (pass self.old) (pass self.new)) }
        ensures refused { IfErr result (λ refusal. Refused bit refusal (pass self.old) (pass self.new)) }
        ensures witnessed { IsWitnessed (pass self.new) }
    {
        for _ in rt.forever() {
            match self.try_reserve(bit as u64) {
                Ok(true) => return Ok(()),
                Ok(false) => {}
                Err(refusal) => return Err(refusal),
            }
        }
        unreachable!()
    }

    /// Leaves: the last side marks the word, and the answer is whether it did; otherwise the
    /// side's bit goes and the other stays. A side that isn't there changes nothing.
    pub fn leave<R: Wait>(&mut self, rt: &R, bit: u8) -> bool
        requires bit { IsPortBit bit }
        ensures same_table { ShareTable self.new self.old }
        ensures marked { OnTrue result (LeftMark bit (pass self.old) (pass self.new)) }
        ensures unmarked { OnFalse result
            (LeftOther bit (pass self.old) (pass self.new) ⊎ WasAbsent bit (pass self.old) (pass self.new)) }
        ensures witnessed { IsWitnessed (pass self.new) }
    {
        for _ in rt.forever() {
            if let Some(marked) = self.try_leave(bit as u64) {
                return marked;
            }
        }
        unreachable!()
    }
}
