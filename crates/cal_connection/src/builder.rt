//! The builder of connections over a storage. Ported from `zero_copy_connection/common.rs` of iceoryx2-cal 0.9.3.
ghost use Rattle.std.specs.Prelude.{◌≡◌, ◌≤◌, ◌<◌, ◌^◌, ◌⊎◌, Some, None, is_some, length, replicate, IfSome, IfOk, IfErr, OnOk, OnErr, true, false, max, refl};
ghost use Rattle.std.specs.Result.{result_err};
ghost use Rattle.cal_storage.specs.Contents.{id_at, value_at, new_handle};
ghost use Rattle.cal_storage.specs.Holding.{Holds, IsNamed, KeepsHandles, JoinsHandles};
ghost use Rattle.cal_storage.specs.Soundness.{IsSound};
ghost use Rattle.cal_storage.specs.Refusals.{open_refusal};
ghost use Rattle.cal_connection.specs.Creation.{early_refusal, found_refusal, join_refusal, new_end, after_connecting, after_joining, after_making, opening_cause};
ghost use Rattle.cal_connection.specs.Plan.{default_options, storage_plan, path_of};
ghost use Rattle.cal_connection.specs.Settings.{is_too_large};
ghost use Rattle.cal_connection.specs.Words.{IsPortBit, sender_bit, receiver_bit};
ghost use Rattle.cal_connection.specs.declared.errors.ZeroCopyCreationError.TheVariants.{NoMemory};

use crate::channel_state::{CHANNEL_STATE_OPEN, ChannelState};
use crate::configuration::Configuration;
use crate::connection::Connection;
use crate::connection_builder::ZeroCopyConnectionBuilder;
use crate::errors::ZeroCopyCreationError;
use crate::options::ConnectionOptions;
use crate::receiver::Receiver;
use crate::sender::Sender;
use crate::settings::ConnectionSettings;
use crate::shared_management_data::SharedManagementData;
use crate::words::{RECEIVER_BIT, SENDER_BIT};
use cal_alloc::BumpAllocator;
use cal_names::{FileName, NamedConceptBuilder, NamedConceptConfiguration};
use cal_storage::{
    AccessMode, DynamicStorage, DynamicStorageBuilder, DynamicStorageOpenError, Registry,
};
use std::alloc::Global;
use std::marker::Model;

/// How many offsets wait in the queue of a channel at most, by default.
pub const DEFAULT_BUFFER_SIZE: usize = 4;

/// Whether a send into a full queue takes the oldest offset out of it, by default.
pub const DEFAULT_ENABLE_SAFE_OVERFLOW: bool = false;

/// How many offsets a receiver borrows from a channel at most, by default.
pub const DEFAULT_MAX_BORROWED_SAMPLES_PER_CHANNEL: usize = 4;

/// How many segments the offsets can be in, by default.
pub const DEFAULT_MAX_SUPPORTED_SHARED_MEMORY_SEGMENTS: u8 = 1;

/// How many channels a connection has, by default.
pub const DEFAULT_NUMBER_OF_CHANNELS: usize = 1;

/// How many samples of a segment can be in use, by default.
pub const DEFAULT_NUMBER_OF_SAMPLES_PER_SEGMENT: usize = 8;

/// A builder of connections over a storage. Contracts see the plan.
#[derive(Debug, Drop)]
pub struct Builder<S: DynamicStorage<SharedManagementData>> {
    /// The name of the connection.
    name: FileName,
    /// What makes the path of the name.
    config: Configuration<S>,
    /// What else the builder was told. No setting is zero.
    options: ConnectionOptions,
}

impl<S: DynamicStorage<SharedManagementData>> Model for Builder<S> {
    ghost use Rattle.std.specs.Prelude.{Some};
    ghost use Rattle.cal_names.specs.ConceptSettings.{settings_of};
    ghost use Rattle.cal_connection.specs.Configuration.{stored_type};
    ghost use Rattle.cal_connection.specs.Plan.{ConnectionPlan};
    ghost use Rattle.cal_connection.specs.Settings.{IsClamped};

    ghost Value = { ConnectionPlan };

    ghost view = { λ b. record {
      name = b.name;
      settings = settings_of b.config.parts (Some stored_type);
      options = b.options;
    } };

    ghost invariant = { λ b. IsClamped b.options.settings };
}

impl<S: DynamicStorage<SharedManagementData>> Builder<S> {
    /// A builder of the storage of the connection's entry, which doesn't own its name.
    fn storage_builder(&self) -> S::Builder
        ensures plan { S.Builder.plan result ≡ storage_plan self.now }
    {
        S::Builder::new(&self.name)
            .config(&self.config.storage_configuration())
            .has_ownership(false)
    }

    /// Whether a connection is found under the path, or why it isn't even looked at.
    fn find(&self, reg: &Registry<SharedManagementData>) -> Result<bool, ZeroCopyCreationError>
        ensures refused { result_err result ≡ early_refusal S.checks_version reg.now self.now }
        ensures found { IfOk result (λ found. found ≡ is_some (value_at reg.now (path_of self.now))) }
        ensures fits { OnOk result (is_too_large self.now.options.settings ≡ false) }
    {
        if self.options.settings.is_too_large() {
            return Err(ZeroCopyCreationError::SizeOutOfRange);
        }
        match self.storage_builder().peek(reg) {
            Ok(_) => Ok(true),
            Err(DynamicStorageOpenError::DoesNotExist) => Ok(false),
            Err(error) => Err(creation_error(error)),
        }
    }

    /// Joins the connection that is found under the path with the port of this bit, and holds its entry.
    fn join(
        &self,
        reg: &mut Registry<SharedManagementData>,
        bit: u8,
    ) -> Result<S, ZeroCopyCreationError>
        requires bit { IsPortBit bit }
        requires found { open_refusal S.checks_version reg.old (storage_plan self.now) ≡ None }
        requires fits { is_too_large self.now.options.settings ≡ false }
        ensures refused { result_err result ≡ found_refusal reg.old self.now bit }
        ensures connected { OnOk result (reg.new ≡ after_connecting reg.old self.now bit) }
        ensures handle { IfOk result (λ storage. S.handle storage ≡ new_end reg.old self.now) }
        ensures holds { IfOk result (λ storage. Holds reg.new 1 (S.handle storage)) }
        ensures named { IfOk result (λ storage. IsNamed reg.new (S.handle storage)) }
        ensures joins { IfOk result (λ storage. JoinsHandles reg.old reg.new (S.handle storage)) }
        ensures keeps { KeepsHandles reg.old reg.new }
        ensures unchanged { OnErr result (reg.new ≡ reg.old) }
    {
        let builder = self.storage_builder();
        let Ok(data) = builder.peek(reg) else {
            unreachable!();
        };
        if let Some(error) = data.join_refusal(&self.options.settings, bit) {
            return Err(error);
        }
        let Ok(storage) = builder.open(reg, AccessMode::ReadWrite) else {
            unreachable!();
        };
        S::get_mut(reg, &storage).join(bit);
        Ok(storage)
    }

    /// Makes a connection with the port of this bit, and holds its entry.
    fn make(
        &self,
        alloc: Global,
        reg: &mut Registry<SharedManagementData>,
        bit: u8,
    ) -> Result<S, ZeroCopyCreationError>
        requires bit { IsPortBit bit }
        requires fits { is_too_large self.now.options.settings ≡ false }
        ensures error { IfErr result (λ error. error ≡ NoMemory) }
        ensures free { OnOk result (id_at reg.old (path_of self.now) ≡ None) }
        ensures made { OnOk result (reg.new ≡ after_making reg.old self.now bit) }
        ensures handle { IfOk result (λ storage. S.handle storage ≡ new_handle reg.old (path_of self.now) false) }
        ensures holds { IfOk result (λ storage. Holds reg.new 1 (S.handle storage)) }
        ensures named { IfOk result (λ storage. IsNamed reg.new (S.handle storage)) }
        ensures keeps { KeepsHandles reg.old reg.new }
        ensures sound { OnOk result (IsSound reg.old) }
        ensures unchanged { OnErr result (reg.new ≡ reg.old) }
    {
        let state = self.options.initial_state.value();
        let Ok(data) = SharedManagementData::new(alloc, &self.options.settings, bit, state) else {
            return Err(ZeroCopyCreationError::NoMemory);
        };
        let keep = |data: &mut SharedManagementData, _room: &mut BumpAllocator| -> bool
            ensures kept { data.new ≡ data.old }
            ensures answer { result ≡ true }
        { true };
        self.storage_builder()
            .create(reg, data, keep)
            .map_err(|_| ZeroCopyCreationError::NoMemory)
    }
}

/// What a refused opening of the entry tells of the creation.
fn creation_error(error: DynamicStorageOpenError) -> ZeroCopyCreationError
    ensures value { IfSome (opening_cause error) (λ cause. result ≡ cause) }
{
    match error {
        DynamicStorageOpenError::PathTooLong => ZeroCopyCreationError::PathTooLong,
        DynamicStorageOpenError::InitializationNotYetFinalized => {
            ZeroCopyCreationError::InitializationNotYetFinalized
        }
        DynamicStorageOpenError::VersionMismatch => ZeroCopyCreationError::VersionMismatch,
        DynamicStorageOpenError::DoesNotExist | DynamicStorageOpenError::InternalError => {
            ZeroCopyCreationError::InternalError
        }
    }
}

impl<S: DynamicStorage<SharedManagementData>> NamedConceptBuilder<Connection<S>> for Builder<S> {
    type Options = ConnectionOptions;

    ghost plan = { λ b. b };

    ghost default_options = { default_options };

    fn new(name: &FileName) -> Self {
        Builder {
            name: *name,
            config: Configuration::default(),
            options: ConnectionOptions {
                settings: ConnectionSettings {
                    buffer_size: DEFAULT_BUFFER_SIZE,
                    enable_safe_overflow: DEFAULT_ENABLE_SAFE_OVERFLOW,
                    max_borrowed_samples: DEFAULT_MAX_BORROWED_SAMPLES_PER_CHANNEL,
                    number_of_samples: DEFAULT_NUMBER_OF_SAMPLES_PER_SEGMENT,
                    number_of_segments: DEFAULT_MAX_SUPPORTED_SHARED_MEMORY_SEGMENTS,
                    number_of_channels: DEFAULT_NUMBER_OF_CHANNELS,
                },
                initial_state: CHANNEL_STATE_OPEN,
            },
        }
    }

    fn config(self, config: &Configuration<S>) -> Self {
        Builder {
            config: config.clone().unwrap(),
            ..self
        }
    }
}

impl<S: DynamicStorage<SharedManagementData>> ZeroCopyConnectionBuilder<Connection<S>>
    for Builder<S> {
    fn buffer_size(mut self, value: usize) -> Self {
        self.options.settings.buffer_size = value.max(1);
        self
    }

    fn enable_safe_overflow(mut self, value: bool) -> Self {
        self.options.settings.enable_safe_overflow = value;
        self
    }

    fn receiver_max_borrowed_samples_per_channel(mut self, value: usize) -> Self {
        self.options.settings.max_borrowed_samples = value.max(1);
        self
    }

    fn max_supported_shared_memory_segments(mut self, value: u8) -> Self {
        self.options.settings.number_of_segments = value.max(1);
        self
    }

    fn number_of_samples_per_segment(mut self, value: usize) -> Self {
        self.options.settings.number_of_samples = value.max(1);
        self
    }

    fn number_of_channels(mut self, value: usize) -> Self {
        self.options.settings.number_of_channels = value.max(1);
        self
    }

    fn initial_channel_state(mut self, value: ChannelState) -> Self {
        self.options.initial_state = value;
        self
    }

    fn timeout(self, _turns: usize) -> Self {
        self
    }

    fn create_sender(
        self,
        alloc: Global,
        reg: &mut Registry<SharedManagementData>,
    ) -> Result<Sender<S>, ZeroCopyCreationError> {
        let storage = if self.find(reg)? {
            self.join(reg, SENDER_BIT)?
        } else {
            self.make(alloc, reg, SENDER_BIT)?
        };
        Ok(Sender {
            name: self.name,
            storage,
        })
    }

    fn create_receiver(
        self,
        alloc: Global,
        reg: &mut Registry<SharedManagementData>,
    ) -> Result<Receiver<S>, ZeroCopyCreationError> {
        let is_found = self.find(reg)?;
        let channels = self.options.settings.number_of_channels;
        let Ok(borrow_counts) = vec![in alloc; 0; channels] else {
            return Err(ZeroCopyCreationError::NoMemory);
        };
        let storage = if is_found {
            self.join(reg, RECEIVER_BIT)?
        } else {
            self.make(alloc, reg, RECEIVER_BIT)?
        };
        Ok(Receiver {
            name: self.name,
            storage,
            borrow_counts,
        })
    }

    ghost defaults = { refl };
}
