//! Laws of the chunk ledger, over every run. Each is a theorem about the definitions that the contract of
//! `run_transport` cites, and its function does nothing.

ghost use Rattle.std.specs.Prelude.{ℕ, ◌≡◌, ◌+◌, List, None, length};
ghost use Rattle.cal_transport.specs.declared.settings.Settings.{Settings};
ghost use Rattle.cal_transport.specs.declared.command.Command.{Command};
ghost use Rattle.cal_transport.specs.declared.command.Command.TheVariants.{Loan};
ghost use Rattle.cal_transport.specs.declared.reply.Reply.{Reply};
ghost use Rattle.cal_transport.specs.declared.reply.Reply.TheVariants.{Loaned};
ghost use Rattle.cal_transport.specs.declared.reply.Slot.{Slot};
ghost use Rattle.cal_transport.specs.Settings.{clamped_settings, create_cause};
ghost use Rattle.cal_transport.specs.Ledger.{Ledger, first_ledger, history_on, chunk_named};
ghost use Rattle.cal_transport.specs.Step.{IsStep, after_step, bytes_of_chunk};
ghost use Rattle.cal_transport.specs.Run.{AreSteps, IsRun, after_steps};
ghost use Rattle.cal_transport.specs.Soundness.{IsSoundLedger, IsInOrder, IsWithinLimits, IsOrderly};
ghost use Rattle.cal_transport.specs.Told.{told_history};
ghost use Rattle.cal_transport.specs.ChunkLaws.{HasNoLiveChunk, IsReadAfterSend};
ghost use Rattle.cal_transport.specs.Capacity.{HasCapacity};
ghost use Rattle.cal_transport.specs.FillList.{AreFilled, AreServed, completed_after, fill_list};

/// The ledger of a new transport is sound, and each step keeps it so. So is the ledger after any commands.
pub fn the_ledger_stays_sound()
    ensures first { (settings : Settings) → create_cause settings ≡ None → IsSoundLedger (first_ledger settings) 1 }
    ensures step { (l : Ledger) (place : ℕ) (asked : Command) (reply : Reply) → IsSoundLedger l place →
        IsStep l place asked reply → IsSoundLedger (after_step l place asked reply) (place + 1) }
    ensures steps { (settings : Settings) (commands : List Command) (replies : List Reply) →
        create_cause settings ≡ None → AreSteps (first_ledger settings) 1 commands replies →
        IsSoundLedger (after_steps (first_ledger settings) 1 commands replies) (1 + length replies) }
{}

/// Commands and their replies tell the history of each channel: nothing else moves it.
pub fn replies_tell_each_channel()
    ensures told { (settings : Settings) (commands : List Command) (replies : List Reply) (channel : ℕ) →
        create_cause settings ≡ None → AreSteps (first_ledger settings) 1 commands replies →
        history_on (after_steps (first_ledger settings) 1 commands replies) channel ≡
        told_history channel commands replies }
{}

/// On each channel what was received or came back by overflow is, in order, a front of what was sent there, so that
/// each was sent there, and comes once. What was reclaimed is so a front of what was released. A name is queued,
/// borrowed or completed once at most, and no more are so than the settings allow.
pub fn a_channel_keeps_order()
    ensures in_order { (settings : Settings) (commands : List Command) (replies : List Reply) (channel : ℕ) →
        create_cause settings ≡ None → AreSteps (first_ledger settings) 1 commands replies →
        IsInOrder (told_history channel commands replies) }
    ensures once { (settings : Settings) (commands : List Command) (replies : List Reply) (channel : ℕ) →
        create_cause settings ≡ None → AreSteps (first_ledger settings) 1 commands replies →
        IsOrderly (told_history channel commands replies) }
    ensures limits { (settings : Settings) (commands : List Command) (replies : List Reply) (channel : ℕ) →
        create_cause settings ≡ None → AreSteps (first_ledger settings) 1 commands replies →
        IsWithinLimits (clamped_settings settings) (told_history channel commands replies) }
{}

/// A loan lies where no live chunk does: a bucket is handed out again only after the loan and all channels let go.
pub fn a_loan_takes_no_live_bucket()
    ensures free { (l : Ledger) (place size alignment : ℕ) (slot : Slot) → IsSoundLedger l place →
        IsStep l place (Loan size alignment) (Loaned slot) → HasNoLiveChunk l slot }
{}

/// A read shows what the chunk's bytes were when it was sent, whatever was asked in between, and whichever of its sends
/// that was.
pub fn a_read_shows_what_was_sent()
    ensures shown { (l : Ledger) (place name at long : ℕ) (bytes : List ℕ) → IsSoundLedger l place →
        IsReadAfterSend l place name at long bytes → bytes ≡ bytes_of_chunk (chunk_named l name) at long }
{}

/// Where an empty reclaim stands between any two successive accepted sends on a channel that come before a release
/// there, that release isn't refused for a full completion queue: of any commands and settings, with overflow or
/// without.
pub fn a_completion_queue_has_room()
    ensures steps { (settings : Settings) (commands : List Command) (replies : List Reply) →
        create_cause settings ≡ None → AreSteps (first_ledger settings) 1 commands replies →
        HasCapacity commands replies }
    ensures run { (settings : Settings) (commands : List Command) (replies : List Reply) →
        create_cause settings ≡ None → IsRun settings commands replies → HasCapacity commands replies }
{}

/// No smaller completion queue serves: the commands of the fill list are served, each reclaim with none, over memory of
/// at least as many buckets as chunks, and then buffer plus borrow limit plus one chunks are completed at once, and in
/// transit.
pub fn a_completion_queue_fills_up()
    ensures served { (settings : Settings) (buffer borrow : ℕ) (replies : List Reply) →
        AreFilled settings buffer borrow → IsRun settings (fill_list buffer borrow) replies →
        AreServed (buffer + borrow + 1) (fill_list buffer borrow) replies }
    ensures completed { (settings : Settings) (buffer borrow : ℕ) (replies : List Reply) →
        AreFilled settings buffer borrow → IsRun settings (fill_list buffer borrow) replies →
        completed_after settings (fill_list buffer borrow) replies ≡ buffer + borrow + 1 }
{}
