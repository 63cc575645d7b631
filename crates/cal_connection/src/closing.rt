//! How a port leaves its connection, and how one is removed by force. Ported from `zero_copy_connection/common.rs` of
//! iceoryx2-cal 0.9.3.
ghost use Rattle.std.specs.Prelude.{◌≡◌, Some, None};
ghost use Rattle.cal_names.specs.ConceptSettings.{settings_of};
ghost use Rattle.cal_storage.specs.Contents.{Has};
ghost use Rattle.cal_storage.specs.Holding.{KeepsOtherHandles, LeavesSharers};
ghost use Rattle.cal_storage.specs.Refusals.{open_refusal};
ghost use Rattle.cal_storage.specs.Soundness.{IsSound};
ghost use Rattle.cal_connection.specs.Closing.{after_end, removal_plan, removal_answer, after_forced_removal};
ghost use Rattle.cal_connection.specs.Configuration.{stored_type};
ghost use Rattle.cal_connection.specs.Words.{IsPortBit};

use crate::configuration::Configuration;
use crate::errors::ZeroCopyPortRemoveError;
use crate::shared_management_data::SharedManagementData;
use cal_names::{FileName, NamedConceptBuilder};
use cal_storage::{
    AccessMode, DynamicStorage, DynamicStorageBuilder, DynamicStorageOpenError, Registry,
};

/// Takes the bit of a port away, or marks the connection where the port is the last, and lets go of the entry. The last
/// port takes the name with it.
pub(crate) fn close_end<S: DynamicStorage<SharedManagementData>>(
    reg: &mut Registry<SharedManagementData>,
    mut storage: S,
    bit: u8,
)
    requires there { Has reg.old (S.handle storage) }
    requires bit { IsPortBit bit }
    ensures closed { reg.new ≡ after_end reg.old (S.handle storage) bit }
    ensures keeps_others { KeepsOtherHandles reg.old reg.new (S.handle storage).id }
    ensures leaves_sharers { LeavesSharers reg.old reg.new (S.handle storage).id }
{
    let is_last = S::get_mut(reg, &storage).leave(bit);
    if is_last {
        storage.acquire_ownership();
    } else {
        storage.release_ownership();
    }
    storage.close(reg);
}

/// Removes the port of this bit by force: all channels are closed, and the port leaves as one that closes does. An
/// entry that is still being made loses its name.
pub(crate) fn remove_port<S: DynamicStorage<SharedManagementData>>(
    reg: &mut Registry<SharedManagementData>,
    name: &FileName,
    config: &Configuration<S>,
    bit: u8,
) -> Result<(), ZeroCopyPortRemoveError>
    requires { IsPortBit bit }
    ensures answer { result ≡ removal_answer (open_refusal S.checks_version reg.old
        (removal_plan name.now (settings_of config.now.parts (Some stored_type)))) }
    ensures removed { reg.new ≡ after_forced_removal (open_refusal S.checks_version reg.old
        (removal_plan name.now (settings_of config.now.parts (Some stored_type))))
        reg.old (settings_of config.now.parts (Some stored_type)) name.now bit }
    ensures sound { IsSound reg.old }
{
    let storage_config = config.storage_configuration();
    let builder = S::Builder::new(name)
        .config(&storage_config)
        .has_ownership(false);
    match builder.open(reg, AccessMode::ReadWrite) {
        Ok(storage) => {
            S::get_mut(reg, &storage).close_all_channels();
            close_end(reg, storage, bit);
            Ok(())
        }
        Err(DynamicStorageOpenError::InitializationNotYetFinalized) => {
            S::remove_name(reg, name, &storage_config);
            Ok(())
        }
        Err(DynamicStorageOpenError::VersionMismatch) => {
            Err(ZeroCopyPortRemoveError::VersionMismatch)
        }
        Err(_) => Err(ZeroCopyPortRemoveError::DoesNotExist),
    }
}
