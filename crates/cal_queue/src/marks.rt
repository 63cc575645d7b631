//! What the used lists do on a row of marks, one for each number.
ghost use Rattle.std.specs.Prelude.{◌≡◌, length, false, replicate};
ghost use Rattle.cal_queue.specs.Callback.{MayRunOver, RunsOver};
ghost use Rattle.cal_queue.specs.UsedChunks.{members};

use std::mem;

/// Clears each mark, and calls the callback on the place of each that was set, the lowest first.
pub(crate) fn clear_marks<F: FnMut(usize)>(marks: &mut [bool], mut callback: F)
    requires { MayRunOver F.FnMut callback (members (record { marks = marks.old })) }
    ensures called { RunsOver F.FnMut callback (members (record { marks = marks.old })) }
    ensures empty { marks.new ≡ replicate (length marks.old) false }
{
    for (index, mark) in marks.iter_mut().enumerate() {
        if mem::replace(mark, false) {
            callback(index);
        }
    }
}
