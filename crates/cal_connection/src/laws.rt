//! Laws of what calls leave on a channel. Each is a theorem about the definitions that the contracts of the calls cite,
//! and its function does nothing.
ghost use Rattle.std.specs.Prelude.{◌≡◌, ◌≢◌, ℕ, Bool, List, Option, Some, None};
ghost use Rattle.cal_connection.specs.Channel.{ChannelEntry, new_channel};
ghost use Rattle.cal_storage.specs.declared.handle.Handle.{Handle};
ghost use Rattle.cal_storage.specs.Contents.{Contents, Has, nothing_registered};
ghost use Rattle.cal_connection.specs.Port.{PortEntry, channel_at, with_channel, port_at, with_port, channel_of, with_channel_of};
ghost use Rattle.cal_connection.specs.Settings.{IsClamped};
ghost use Rattle.cal_connection.specs.Traffic.{ChannelCall, Side, Traffic, Shows, no_traffic, side_after_all, traffic_after_all, MayCallAll};
ghost use Rattle.cal_connection.specs.declared.settings.ConnectionSettings.{ConnectionSettings};
ghost use Rattle.cal_connection.specs.declared.errors.ZeroCopyCreationError.TheVariants.{IsBeingCleanedUp};
ghost use Rattle.cal_connection.specs.Closing.{after_end, after_forced_removal};
ghost use Rattle.cal_connection.specs.Creation.{found_refusal, after_connecting};
ghost use Rattle.cal_connection.specs.Plan.{ConnectionPlan};
ghost use Rattle.cal_connection.specs.Unmarked.{NamesAreUnmarked};
ghost use Rattle.cal_connection.specs.Words.{IsPortBit};
ghost use Rattle.cal_names.specs.ConceptSettings.{ConceptSettings};
ghost use Rattle.cal_storage.specs.Refusals.{after_name_removal};
ghost use Rattle.cal_storage.specs.Soundness.{IsSound};
ghost use Rattle.cal_storage.specs.declared.dynamic_storage.errors.DynamicStorageOpenError.{DynamicStorageOpenError};

/// A channel shows what went over it, over any calls: the queue holds what was sent and hasn't left it, as many are
/// borrowed as were received and not released, and the completion queue holds what was released and not reclaimed.
pub fn a_channel_shows_its_traffic()
    ensures new { (settings : ConnectionSettings) (word : ℕ) → IsClamped settings →
        Shows (record { channel = new_channel settings word; count = 0 }) no_traffic }
    ensures kept { (overflow : Bool) (limit : ℕ) (side : Side) (traffic : Traffic) (calls : List ChannelCall) →
        Shows side traffic → MayCallAll overflow limit side calls →
        Shows (side_after_all overflow limit side calls) (traffic_after_all overflow limit side traffic calls) }
{}

/// A call on a channel leaves every other channel as it was.
pub fn a_call_leaves_other_channels()
    ensures others { (port : PortEntry) (channel other : ℕ) (changed : ChannelEntry) → other ≢ channel →
        channel_at (with_channel port channel changed) other ≡ channel_at port other }
{}

/// A call that is refused and leaves its channel as it was leaves the whole registry so.
pub fn a_channel_that_stays_leaves_the_registry()
    ensures unchanged { (contents : Contents PortEntry) (handle : Handle) (channel : ℕ) → Has contents handle →
        with_channel_of contents handle channel (channel_of contents handle channel) ≡ contents }
{}

/// A port sees what the other port of its connection wrote, a port of another connection sees what it saw, and each
/// keeps its entry.
pub fn a_written_entry_is_seen()
    ensures same { (contents : Contents PortEntry) (handle : Handle) (port : PortEntry) → Has contents handle →
        port_at (with_port contents handle port) handle ≡ port }
    ensures other { (contents : Contents PortEntry) (handle other : Handle) (port : PortEntry) → other.id ≢ handle.id →
        port_at (with_port contents handle port) other ≡ port_at contents other }
    ensures kept { (contents : Contents PortEntry) (handle other : Handle) (port : PortEntry) → Has contents other →
        Has (with_port contents handle port) other }
{}

/// No path stands for an entry that is being cleaned up: so it is in a new registry, and each change that a call of
/// this crate makes to a registry keeps it so. A port that is created, one that ends, one that is removed by force, a
/// name that is removed, and an entry that is written with the port word that it had are all that these calls change.
pub fn names_stay_unmarked()
    ensures new { NamesAreUnmarked nothing_registered }
    ensures created { (contents : Contents PortEntry) (plan : ConnectionPlan) (bit : ℕ) → IsPortBit bit →
        NamesAreUnmarked contents → found_refusal contents plan bit ≡ None →
        NamesAreUnmarked (after_connecting contents plan bit) }
    ensures ended { (contents : Contents PortEntry) → IsSound contents → (handle : Handle) → Has contents handle →
        (bit : ℕ) → NamesAreUnmarked contents → NamesAreUnmarked (after_end contents handle bit) }
    ensures removed { (contents : Contents PortEntry) → IsSound contents → NamesAreUnmarked contents →
        (refusal : Option DynamicStorageOpenError) (settings : ConceptSettings) (name : List ℕ) (bit : ℕ) →
        NamesAreUnmarked (after_forced_removal refusal contents settings name bit) }
    ensures name_removed { (contents : Contents PortEntry) → IsSound contents → NamesAreUnmarked contents →
        (settings : ConceptSettings) (name : List ℕ) → NamesAreUnmarked (after_name_removal settings name contents) }
    ensures written { (contents : Contents PortEntry) (handle : Handle) (port : PortEntry) →
        port.word ≡ (port_at contents handle).word → NamesAreUnmarked contents →
        NamesAreUnmarked (with_port contents handle port) }
{}

/// Where no path stands for an entry that is being cleaned up, no port is refused as if one did.
pub fn an_unmarked_connection_is_joined()
    ensures joined { (contents : Contents PortEntry) (plan : ConnectionPlan) (bit : ℕ) → NamesAreUnmarked contents →
        found_refusal contents plan bit ≢ Some IsBeingCleanedUp }
{}
