//! A law of what a sender can acquire. It is a theorem about the definitions that the contracts of the calls cite, and
//! its function does nothing.
ghost use Rattle.std.specs.Prelude.{◌≡◌, ℕ, ◌<◌, ◌^◌, Bool};
ghost use Rattle.cal_alloc.specs.PointerOffset.{segment_of};
ghost use Rattle.cal_connection.specs.declared.settings.ConnectionSettings.{ConnectionSettings};
ghost use Rattle.cal_connection.specs.Acquisition.{IsAcquirable};
ghost use Rattle.cal_connection.specs.Channel.{ChannelEntry, after_send, after_receive, after_release, after_reclaim};
ghost use Rattle.cal_connection.specs.Port.{PortEntry, IsSendable, IsSoundPort, new_port, channel_at, with_channel};
ghost use Rattle.cal_connection.specs.UsedPairs.{HasSize};

/// All samples in use can be acquired on a new connection, and each call keeps it so: a send where what is in use in
/// its segment on its channel was sent with the same size, and every other call always. So a sender that has one size
/// for each segment may acquire what it sent.
pub fn what_is_sent_can_be_acquired()
    ensures new { (settings : ConnectionSettings) (word state : ℕ) → IsAcquirable (new_port settings word state) }
    ensures sent { (port : PortEntry) (channel : ℕ) (overflow : Bool) (pointer sample_size : ℕ) →
        IsAcquirable port → IsSoundPort port → IsSendable port channel pointer sample_size → pointer < 2 ^ 64 →
        HasSize (channel_at port channel).segments (segment_of pointer) sample_size →
        IsAcquirable (with_channel port channel (after_send overflow (channel_at port channel) pointer sample_size)) }
    ensures received { (port : PortEntry) (channel limit count : ℕ) → IsAcquirable port →
        IsAcquirable (with_channel port channel (after_receive limit count (channel_at port channel))) }
    ensures released { (port : PortEntry) (channel pointer : ℕ) → IsAcquirable port →
        IsAcquirable (with_channel port channel (after_release (channel_at port channel) pointer)) }
    ensures reclaimed { (port : PortEntry) (channel : ℕ) → IsAcquirable port →
        IsAcquirable (with_channel port channel (after_reclaim (channel_at port channel))) }
    ensures others { (port : PortEntry) (channel : ℕ) (changed : ChannelEntry) → IsAcquirable port →
        changed.segments ≡ (channel_at port channel).segments → IsAcquirable (with_channel port channel changed) }
{}
