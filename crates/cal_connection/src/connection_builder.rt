//! What builds the ports of a connection. Ported from `zero_copy_connection/mod.rs` of iceoryx2-cal 0.9.3.
ghost use Rattle.std.specs.Prelude.{◌≡◌, ◌⊎◌, Some, None, max, length, replicate, IfSome, IfOk, IfErr, OnOk, OnErr};
ghost use Rattle.cal_storage.specs.Holding.{Holds, IsNamed, KeepsHandles, JoinsHandles};
ghost use Rattle.cal_storage.specs.Soundness.{IsSound};
ghost use Rattle.cal_connection.specs.Creation.{early_refusal, found_refusal, new_end, after_connecting};
ghost use Rattle.cal_connection.specs.Plan.{with_settings, default_options};
ghost use Rattle.cal_connection.specs.Words.{sender_bit, receiver_bit};
ghost use Rattle.cal_connection.specs.declared.errors.ZeroCopyCreationError.TheVariants.{NoMemory};

use crate::channel_state::ChannelState;
use crate::connection::ZeroCopyConnection;
use crate::errors::ZeroCopyCreationError;
use crate::options::ConnectionOptions;
use crate::shared_management_data::SharedManagementData;
use cal_names::NamedConceptBuilder;
use cal_storage::Registry;
use std::alloc::Global;
use std::fmt::Debug;

/// A builder of the ports of a connection. Buffer size, borrow limit, segments, samples and channels count as 1 where
/// they are told as 0.
pub trait ZeroCopyConnectionBuilder<C: ZeroCopyConnection>: Debug
    + Drop
    + NamedConceptBuilder<C, Options = ConnectionOptions> {
    /// How many offsets wait in the queue of a channel at most; 4 by default.
    fn buffer_size(self, value: usize) -> Self
        ensures plan { Self.plan result ≡ with_settings (Self.plan self)
            (record (Self.plan self).options.settings { buffer_size = max 1 value }) };

    /// Whether a send into a full queue takes the oldest offset out of it; it doesn't by default.
    fn enable_safe_overflow(self, value: bool) -> Self
        ensures plan { Self.plan result ≡ with_settings (Self.plan self)
            (record (Self.plan self).options.settings { enable_safe_overflow = value }) };

    /// How many offsets a receiver borrows from a channel at most; 4 by default.
    fn receiver_max_borrowed_samples_per_channel(self, value: usize) -> Self
        ensures plan { Self.plan result ≡ with_settings (Self.plan self)
            (record (Self.plan self).options.settings { max_borrowed_samples = max 1 value }) };

    /// How many segments the offsets can be in; 1 by default.
    fn max_supported_shared_memory_segments(self, value: u8) -> Self
        ensures plan { Self.plan result ≡ with_settings (Self.plan self)
            (record (Self.plan self).options.settings { number_of_segments = max 1 value }) };

    /// How many samples of a segment can be in use; 8 by default.
    fn number_of_samples_per_segment(self, value: usize) -> Self
        ensures plan { Self.plan result ≡ with_settings (Self.plan self)
            (record (Self.plan self).options.settings { number_of_samples = max 1 value }) };

    /// How many channels the connection has; 1 by default.
    fn number_of_channels(self, value: usize) -> Self
        ensures plan { Self.plan result ≡ with_settings (Self.plan self)
            (record (Self.plan self).options.settings { number_of_channels = max 1 value }) };

    /// The state in which the channels of a new connection begin; open by default. Where a connection is found, its
    /// channels stay as they are.
    fn initial_channel_state(self, value: ChannelState) -> Self
        ensures plan { Self.plan result ≡ record (Self.plan self) {
          options = record (Self.plan self).options { initial_state = value };
        } };

    /// Has no effect: a creation looks once, since nobody else acts on the registry while it is lent.
    fn timeout(self, turns: usize) -> Self
        ensures plan { Self.plan result ≡ Self.plan self };

    /// Creates the sender of this name: it joins the connection that is found, or makes one. A refused call leaves the
    /// registry as it was.
    fn create_sender(
        self,
        alloc: Global,
        reg: &mut Registry<SharedManagementData>,
    ) -> Result<C::Sender, ZeroCopyCreationError>
        ensures refused { IfSome (early_refusal C.checks_version reg.old (Self.plan self))
            (λ error. result ≡ Err error) }
        ensures found_refused { early_refusal C.checks_version reg.old (Self.plan self) ≡ None →
            IfSome (found_refusal reg.old (Self.plan self) sender_bit) (λ error. result ≡ Err error) }
        ensures error { IfErr result (λ error.
            (early_refusal C.checks_version reg.old (Self.plan self) ≡ Some error)
            ⊎ (found_refusal reg.old (Self.plan self) sender_bit ≡ Some error)
            ⊎ (error ≡ NoMemory)) }
        ensures connected { OnOk result (reg.new ≡ after_connecting reg.old (Self.plan self) sender_bit) }
        ensures handle { IfOk result (λ sender. C.Sender.handle sender ≡ new_end reg.old (Self.plan self)) }
        ensures name { IfOk result (λ sender. C.Sender.concept_name sender ≡ (Self.plan self).name) }
        ensures holds { IfOk result (λ sender. Holds reg.new 1 (C.Sender.handle sender)) }
        ensures named { IfOk result (λ sender. IsNamed reg.new (C.Sender.handle sender)) }
        ensures joins { IfOk result (λ sender. JoinsHandles reg.old reg.new (C.Sender.handle sender)) }
        ensures keeps { KeepsHandles reg.old reg.new }
        ensures unchanged { OnErr result (reg.new ≡ reg.old) };

    /// Creates the receiver of this name: it joins the connection that is found, or makes one. A refused call leaves
    /// the registry as it was.
    fn create_receiver(
        self,
        alloc: Global,
        reg: &mut Registry<SharedManagementData>,
    ) -> Result<C::Receiver, ZeroCopyCreationError>
        ensures refused { IfSome (early_refusal C.checks_version reg.old (Self.plan self))
            (λ error. result ≡ Err error) }
        ensures found_refused { early_refusal C.checks_version reg.old (Self.plan self) ≡ None →
            IfSome (found_refusal reg.old (Self.plan self) receiver_bit)
            (λ error. (result ≡ Err error) ⊎ (result ≡ Err NoMemory)) }
        ensures error { IfErr result (λ error.
            (early_refusal C.checks_version reg.old (Self.plan self) ≡ Some error)
            ⊎ (found_refusal reg.old (Self.plan self) receiver_bit ≡ Some error)
            ⊎ (error ≡ NoMemory)) }
        ensures connected { OnOk result (reg.new ≡ after_connecting reg.old (Self.plan self) receiver_bit) }
        ensures end { IfOk result (λ receiver. C.Receiver.end receiver ≡ record {
          name = (Self.plan self).name;
          handle = new_end reg.old (Self.plan self);
          borrow_counts = replicate (Self.plan self).options.settings.number_of_channels 0;
        }) }
        ensures handle { IfOk result (λ receiver. C.Receiver.handle receiver ≡ new_end reg.old (Self.plan self)) }
        ensures name { IfOk result (λ receiver. C.Receiver.concept_name receiver ≡ (Self.plan self).name) }
        ensures holds { IfOk result (λ receiver. Holds reg.new 1 (C.Receiver.handle receiver)) }
        ensures named { IfOk result (λ receiver. IsNamed reg.new (C.Receiver.handle receiver)) }
        ensures joins { IfOk result (λ receiver. JoinsHandles reg.old reg.new (C.Receiver.handle receiver)) }
        ensures keeps { KeepsHandles reg.old reg.new }
        ensures unchanged { OnErr result (reg.new ≡ reg.old) };

    // What a new builder has been told.
    ghost defaults: { Self.default_options ≡ default_options };
}
