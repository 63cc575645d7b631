//! Worked examples of a receiver that gives back what it likes. Each function does nothing, and its clauses are
//! computed.
ghost use Rattle.std.specs.Prelude.{◌≡◌, true, false};
ghost use Rattle.cal_connection.specs.CallExamples.{new_ends, foreign_return, foreign_return_replies, double_return, double_return_replies};
ghost use Rattle.cal_connection.specs.Calls.{replies_to, after_calls, calls_on};
ghost use Rattle.cal_connection.specs.Channel.{is_used};
ghost use Rattle.cal_connection.specs.UsedPairs.{segments_at, times_back, times_sent};

/// A returned offset of another segment is refused once and is gone. The sample that it should have been stays in use,
/// and another channel is served as by its own call alone.
pub fn a_foreign_return_harms_no_channel()
    ensures replies { replies_to new_ends foreign_return ≡ foreign_return_replies }
    ensures in_use { is_used (segments_at (after_calls new_ends foreign_return) 0) 0 0 ≡ true }
    ensures other { segments_at (after_calls new_ends foreign_return) 1
        ≡ segments_at (after_calls new_ends (calls_on 1 foreign_return)) 1 }
{}

/// What was sent once comes back once, however often the receiver gives it back, and what it keeps stays in use.
pub fn a_double_return_frees_one_sample()
    ensures replies { replies_to new_ends double_return ≡ double_return_replies }
    ensures kept { is_used (segments_at (after_calls new_ends double_return) 0) 0 1 ≡ true }
    ensures free { is_used (segments_at (after_calls new_ends double_return) 0) 0 0 ≡ false }
    ensures back_once { times_back 0 0 0 new_ends double_return double_return_replies ≡ 1 }
    ensures sent_once { times_sent 0 0 0 new_ends double_return double_return_replies ≡ 1 }
{}
