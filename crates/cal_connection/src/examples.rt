//! Worked examples of what calls answer and leave on a channel. Each function does nothing, and its clauses are
//! computed.

ghost use Rattle.std.specs.Prelude.{◌≡◌, true, false, [], ◌∷◌, Some, None, Ok, Err};
ghost use Rattle.cal_connection.specs.Acquisition.{used_in_segments};
ghost use Rattle.cal_connection.specs.Channel.{after_send, names_used_entry, send_answer, receive_answer, after_receive, release_answer, reclaim_answer, after_reclaim};
ghost use Rattle.cal_connection.specs.Examples.{unused_channel, second, first, foreign, after_one_send, after_overflow, after_one_release, after_foreign_release, after_first_send, after_first_acquired};
ghost use Rattle.cal_connection.specs.declared.errors.ZeroCopySendError.TheVariants.{ReceiveBufferFull, ConnectionCorrupted};
ghost use Rattle.cal_connection.specs.declared.errors.ZeroCopyReceiveError.TheVariants.{ReceiveWouldExceedMaxBorrowValue};
ghost use Rattle.cal_connection.specs.declared.errors.ZeroCopyReclaimError.TheVariants.{ReceiverReturnedCorruptedPointerOffset};

/// A send queues its offset, whose sample is in use then.
pub fn a_send_queues_its_offset()
    ensures answer { send_answer true unused_channel second 8 ≡ Ok None }
    ensures queued { after_one_send.submission.values ≡ second ∷ [] }
    ensures in_use { names_used_entry after_one_send.segments second ≡ true }
    ensures other { names_used_entry after_one_send.segments first ≡ false }
{}

/// With overflow a full queue gives its oldest offset back, whose sample isn't in use any more. Without it the send is
/// refused.
pub fn a_full_queue_gives_its_oldest_back()
    ensures overflow { send_answer true after_one_send first 8 ≡ Ok (Some second) }
    ensures queued { after_overflow.submission.values ≡ first ∷ [] }
    ensures in_use { names_used_entry after_overflow.segments first ≡ true }
    ensures returned { names_used_entry after_overflow.segments second ≡ false }
    ensures refused { send_answer false after_one_send first 8 ≡ Err ReceiveBufferFull }
{}

/// A receiver gets the oldest offset, and none from an empty queue. At its limit it is refused, whatever is queued.
pub fn a_receiver_borrows_up_to_its_limit()
    ensures received { receive_answer 1 0 after_one_send ≡ Ok (Some second) }
    ensures empty { (after_receive 1 0 after_one_send).submission.values ≡ [] }
    ensures none { receive_answer 1 0 unused_channel ≡ Ok None }
    ensures refused { receive_answer 1 1 unused_channel ≡ Err ReceiveWouldExceedMaxBorrowValue }
{}

/// What the receiver released the sender reclaims, and the sample isn't in use then.
pub fn a_released_offset_is_reclaimed()
    ensures released { release_answer unused_channel ≡ Ok tt }
    ensures reclaimed { reclaim_answer after_one_release ≡ Ok (Some second) }
    ensures free { names_used_entry (after_reclaim after_one_release).segments second ≡ false }
    ensures none { reclaim_answer unused_channel ≡ Ok None }
{}

/// An offset that nobody sent is told as such when it is reclaimed, and is gone then.
pub fn a_foreign_offset_is_told()
    ensures answer { reclaim_answer after_foreign_release ≡ Err ReceiverReturnedCorruptedPointerOffset }
    ensures gone { (after_reclaim after_foreign_release).completion.values ≡ [] }
{}

/// The sender acquires what it sent. The next send, into the full queue, is told that the oldest names no sample in
/// use; what was sent stays queued.
pub fn an_acquired_offset_overflows_as_corrupted()
    ensures acquired { used_in_segments 0 after_first_send.segments ≡ first ∷ [] }
    ensures none { used_in_segments 0 after_first_acquired.segments ≡ [] }
    ensures answer { send_answer true after_first_acquired second 8 ≡ Err ConnectionCorrupted }
    ensures queued { (after_send true after_first_acquired second 8).submission.values ≡ second ∷ [] }
{}
