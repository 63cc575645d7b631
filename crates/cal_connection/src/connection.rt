//! Connections, and the ends that are removed by force. Ported from `zero_copy_connection/mod.rs` and `common.rs` of
//! iceoryx2-cal 0.9.3.
ghost use Rattle.std.specs.Prelude.{◌≡◌, Bool, true, codes};
ghost use Rattle.cal_storage.specs.Holding.{KeepsHandles};
ghost use Rattle.cal_storage.specs.Refusals.{open_refusal};
ghost use Rattle.cal_connection.specs.Closing.{removal_plan, removal_answer, after_forced_removal};
ghost use Rattle.cal_connection.specs.Words.{sender_bit, receiver_bit};

use crate::builder::Builder;
use crate::closing::remove_port;
use crate::configuration::Configuration;
use crate::connection_builder::ZeroCopyConnectionBuilder;
use crate::errors::ZeroCopyPortRemoveError;
use crate::receiver::{Receiver, ZeroCopyReceiver};
use crate::sender::{Sender, ZeroCopySender};
use crate::shared_management_data::SharedManagementData;
use crate::words::{RECEIVER_BIT, SENDER_BIT};
use cal_names::{
    FileName, NamedConceptDoesExistError, NamedConceptListError, NamedConceptMgmt,
    NamedConceptPathHintRemoveError, NamedConceptRemoveError, Path,
};
use cal_storage::{DynamicStorage, Registry};
use std::alloc::Global;
use std::fmt::Debug;
use std::marker::PhantomData;

/// A kind of connection.
pub trait ZeroCopyConnection: Debug + NamedConceptMgmt<Names = Registry<SharedManagementData>> {
    /// The end that sends.
    type Sender: ZeroCopySender;
    /// The end that receives.
    type Receiver: ZeroCopyReceiver;
    /// What builds both.
    type Builder: ZeroCopyConnectionBuilder<Self>;

    // Whether an opening of an entry looks at its version.
    ghost checks_version: { Bool };

    /// Removes the sender of this name by force: all channels are closed, and the sender leaves as one that closes
    /// does. An entry that is still being made loses its name. Every open handle keeps its entry, that of the
    /// removed sender too. This is for a sender that is gone without having closed.
    fn remove_sender(
        reg: &mut Registry<SharedManagementData>,
        name: &FileName,
        config: &Self::Configuration,
    ) -> Result<(), ZeroCopyPortRemoveError>
        ensures answer { result ≡ removal_answer (open_refusal checks_version reg.old
            (removal_plan name.now (Self.Configuration.settings config.now))) }
        ensures removed { reg.new ≡ after_forced_removal (open_refusal checks_version reg.old
            (removal_plan name.now (Self.Configuration.settings config.now)))
            reg.old (Self.Configuration.settings config.now) name.now sender_bit }
        ensures keeps { KeepsHandles reg.old reg.new };

    /// Removes the receiver of this name by force, as `remove_sender` does the sender.
    fn remove_receiver(
        reg: &mut Registry<SharedManagementData>,
        name: &FileName,
        config: &Self::Configuration,
    ) -> Result<(), ZeroCopyPortRemoveError>
        ensures answer { result ≡ removal_answer (open_refusal checks_version reg.old
            (removal_plan name.now (Self.Configuration.settings config.now))) }
        ensures removed { reg.new ≡ after_forced_removal (open_refusal checks_version reg.old
            (removal_plan name.now (Self.Configuration.settings config.now)))
            reg.old (Self.Configuration.settings config.now) name.now receiver_bit }
        ensures keeps { KeepsHandles reg.old reg.new };

    /// Whether a full queue can give its oldest offset back.
    fn does_support_safe_overflow() -> bool {
        false
    }

    /// Whether the queues' sizes can be told.
    fn has_configurable_buffer_size() -> bool {
        false
    }

    /// The suffix of a connection's path.
    fn default_suffix() -> FileName
        ensures suffix { result ≡ codes ".rx" }
    {
        FileName::new(b".rx").unwrap()
    }
}

/// The connections over a storage. No value of it is needed.
#[derive_where(Debug)]
#[derive(Drop)]
pub struct Connection<S> {
    /// The storage that holds the connections.
    of: PhantomData<S>,
}

impl<S: DynamicStorage<SharedManagementData>> NamedConceptMgmt for Connection<S> {
    type Configuration = Configuration<S>;

    type Names = Registry<SharedManagementData>;

    ghost paths = { S.paths };

    ghost shown_name = { S.shown_name };

    ghost goes_with = { S.goes_with };

    ghost removed = { S.removed };

    ghost lists_first = { S.lists_first };

    ghost KeepsOpen = { S.KeepsOpen };

    fn remove_cfg(
        alloc: Global,
        reg: &mut Registry<SharedManagementData>,
        name: &FileName,
        cfg: &Configuration<S>,
    ) -> Result<bool, NamedConceptRemoveError> {
        S::remove_cfg(alloc, reg, name, &cfg.storage_configuration())
    }

    fn does_exist_cfg(
        reg: &Registry<SharedManagementData>,
        name: &FileName,
        cfg: &Configuration<S>,
    ) -> Result<bool, NamedConceptDoesExistError> {
        S::does_exist_cfg(reg, name, &cfg.storage_configuration())
    }

    fn list_cfg(
        alloc: Global,
        reg: &Registry<SharedManagementData>,
        cfg: &Configuration<S>,
    ) -> Result<Vec<FileName>, NamedConceptListError> {
        S::list_cfg(alloc, reg, &cfg.storage_configuration())
    }

    fn remove_path_hint(_value: &Path) -> Result<(), NamedConceptPathHintRemoveError> {
        Ok(())
    }

    ghost shown_goes = { S.shown_goes };
}

impl<S: DynamicStorage<SharedManagementData>> ZeroCopyConnection for Connection<S> {
    type Sender = Sender<S>;

    type Receiver = Receiver<S>;

    type Builder = Builder<S>;

    ghost checks_version = { S.checks_version };

    fn remove_sender(
        reg: &mut Registry<SharedManagementData>,
        name: &FileName,
        config: &Configuration<S>,
    ) -> Result<(), ZeroCopyPortRemoveError> {
        remove_port(reg, name, config, SENDER_BIT)
    }

    fn remove_receiver(
        reg: &mut Registry<SharedManagementData>,
        name: &FileName,
        config: &Configuration<S>,
    ) -> Result<(), ZeroCopyPortRemoveError> {
        remove_port(reg, name, config, RECEIVER_BIT)
    }

    fn does_support_safe_overflow() -> bool
        ensures value { result ≡ true }
    {
        true
    }

    fn has_configurable_buffer_size() -> bool
        ensures value { result ≡ true }
    {
        true
    }
}
