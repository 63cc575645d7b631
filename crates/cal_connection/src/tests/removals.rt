//! Ports that are removed by force.
ghost use Rattle.cal_storage.specs.Contents.{Has};

use crate::tests::ends::{builder, connect, name, open_sender};
use crate::{
    ChannelId, Configuration, Connection, Sender, SharedManagementData, ZeroCopyConnection,
    ZeroCopyConnectionBuilder, ZeroCopyCreationError, ZeroCopyPortDetails, ZeroCopyPortRemoveError,
};
use cal_names::NamedConceptConfiguration;
use cal_storage::dynamic_storage::{file, process_local};
use cal_storage::{DynamicStorage, Registry};
use std::alloc::Global;
use std::process::Abort;
use std::test::Fail;

type InFile = file::Storage<SharedManagementData>;

type InProcess = process_local::Storage<SharedManagementData>;

/// Whether channel 0 of a sender's connection is closed, and the receiver isn't there.
fn is_alone<S: DynamicStorage<SharedManagementData>>(
    rt: &impl Abort,
    reg: &Registry<SharedManagementData>,
    sender: &Sender<S>,
) -> bool
    requires { Has reg.now sender.now.handle }
{
    assert!(rt; sender.number_of_channels(reg) > 0);
    sender.is_channel_closed(reg, ChannelId::new(0)) && !sender.is_connected(reg)
}

/// A receiver that is removed by force leaves the sender alone, with closed channels.
fn the_sender_is_left<S: DynamicStorage<SharedManagementData>>(
    rt: &impl Abort,
    alloc: Global,
) -> Result<(), Fail> {
    let mut reg = Registry::new(alloc);
    let ends = connect::<S>(alloc, &mut reg, builder()?, builder()?)?;
    let removed = Connection::<S>::remove_receiver(&mut reg, &name()?, &Configuration::default());
    assert!(rt; matches!(removed, Ok(())));
    assert!(rt; is_alone(rt, &reg, &ends.0));
    Ok(())
}

#[test]
fn a_removed_receiver_leaves_the_sender(rt: HostRuntime) -> Result<(), Fail> {
    the_sender_is_left::<InProcess>(&rt, rt.alloc())?;
    the_sender_is_left::<InFile>(&rt, rt.alloc())
}

/// A sender that is removed by force as the last port takes the name with it.
fn the_name_is_gone<S: DynamicStorage<SharedManagementData>>(
    rt: &impl Abort,
    alloc: Global,
) -> Result<(), Fail> {
    let name = name()?;
    let config = Configuration::default();
    let mut reg = Registry::new(alloc);
    let _sender = open_sender::<S>(alloc, &mut reg)?;
    let removed = Connection::<S>::remove_sender(&mut reg, &name, &config);
    assert!(rt; matches!(removed, Ok(())));
    assert!(rt; reg.len() == 0);
    let removed = Connection::<S>::remove_sender(&mut reg, &name, &config);
    assert!(rt; matches!(removed, Err(ZeroCopyPortRemoveError::DoesNotExist)));
    Ok(())
}

#[test]
fn the_last_removed_port_takes_the_name(rt: HostRuntime) -> Result<(), Fail> {
    the_name_is_gone::<InProcess>(&rt, rt.alloc())?;
    the_name_is_gone::<InFile>(&rt, rt.alloc())
}

/// What a receiver's creation and its removal answer where the sender's entry has this version.
fn at_version(
    alloc: Global,
    reg: &mut Registry<SharedManagementData>,
    version: u64,
) -> Result<
    (
        Option<ZeroCopyCreationError>,
        Result<(), ZeroCopyPortRemoveError>,
    ),
    Fail,
> {
    let name = name()?;
    let config = Configuration::<InFile>::default();
    let _sender = open_sender::<InFile>(alloc, reg)?;
    let _is_set = reg.set_version(&config.path_for(&name)?, version);
    let refused = builder::<InFile>()?.create_receiver(alloc, reg).err();
    let removed = Connection::<InFile>::remove_receiver(reg, &name, &config);
    Ok((refused, removed))
}

#[test]
fn an_entry_of_another_version_is_left(rt: HostRuntime) -> Result<(), Fail> {
    let mut reg = Registry::new(rt.alloc());
    let (refused, removed) = at_version(rt.alloc(), &mut reg, 9002)?;
    assert!(rt; matches!(refused, Some(ZeroCopyCreationError::VersionMismatch)));
    assert!(rt; matches!(removed, Err(ZeroCopyPortRemoveError::VersionMismatch)));
    assert!(rt; reg.len() == 1);
    Ok(())
}

#[test]
fn an_entry_that_is_being_made_loses_its_name(rt: HostRuntime) -> Result<(), Fail> {
    let mut reg = Registry::new(rt.alloc());
    let (refused, removed) = at_version(rt.alloc(), &mut reg, 0)?;
    assert!(rt;
        matches!(
            refused,
            Some(ZeroCopyCreationError::InitializationNotYetFinalized)
        )
    );
    assert!(rt; matches!(removed, Ok(())));
    assert!(rt; reg.len() == 0);
    Ok(())
}
