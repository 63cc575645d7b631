//! How ports are created and refused.
use crate::tests::ends::{builder, name, open_sender};
use crate::{
    Builder, Connection, SharedManagementData, ZeroCopyConnectionBuilder, ZeroCopyCreationError,
    ZeroCopyPortDetails,
};
use cal_alloc::SegmentId;
use cal_names::{FileName, NamedConceptBuilder, NamedConceptMgmt};
use cal_storage::dynamic_storage::{file, process_local};
use cal_storage::{DynamicStorage, Registry};
use std::alloc::Global;
use std::process::Abort;
use std::test::Fail;

type InFile = file::Storage<SharedManagementData>;

type InProcess = process_local::Storage<SharedManagementData>;

/// A receiver that differs from a default sender in one setting is refused with this error, and the connection is the
/// sender's as before.
fn differs<S: DynamicStorage<SharedManagementData>>(
    rt: &impl Abort,
    alloc: Global,
    receiving: Builder<S>,
    error: ZeroCopyCreationError,
) -> Result<(), Fail> {
    let mut reg = Registry::new(alloc);
    let _sender = open_sender::<S>(alloc, &mut reg)?;
    let refused = receiving.create_receiver(alloc, &mut reg).err();
    assert!(rt; refused == Some(error));
    Ok(())
}

/// A receiver joins a sender with the same settings, and a second sender is refused.
fn a_receiver_joins<S: DynamicStorage<SharedManagementData>>(
    rt: &impl Abort,
    alloc: Global,
) -> Result<(), Fail> {
    let mut reg = Registry::new(alloc);
    let sender = open_sender::<S>(alloc, &mut reg)?;
    assert!(rt; !sender.is_connected(&reg));
    let _receiver = builder::<S>()?.create_receiver(alloc, &mut reg)?;
    assert!(rt; sender.is_connected(&reg));
    let again = builder::<S>()?.create_sender(alloc, &mut reg).err();
    assert!(rt;
        matches!(
            again,
            Some(ZeroCopyCreationError::AnotherInstanceIsAlreadyConnected)
        )
    );
    Ok(())
}

#[test]
fn receivers_join(rt: HostRuntime) -> Result<(), Fail> {
    a_receiver_joins::<InProcess>(&rt, rt.alloc())?;
    a_receiver_joins::<InFile>(&rt, rt.alloc())
}

/// Differences of the queues are refused, each on its own.
fn queues_differ<S: DynamicStorage<SharedManagementData>>(
    rt: &impl Abort,
    alloc: Global,
) -> Result<(), Fail> {
    differs::<S>(
        rt,
        alloc,
        builder()?.buffer_size(5),
        ZeroCopyCreationError::IncompatibleBufferSize,
    )?;
    differs::<S>(
        rt,
        alloc,
        builder()?.receiver_max_borrowed_samples_per_channel(5),
        ZeroCopyCreationError::IncompatibleMaxBorrowedSamplesPerChannelSetting,
    )?;
    differs::<S>(
        rt,
        alloc,
        builder()?.enable_safe_overflow(true),
        ZeroCopyCreationError::IncompatibleOverflowSetting,
    )
}

/// Differences of what is sent, and where, are refused, each on its own.
fn samples_differ<S: DynamicStorage<SharedManagementData>>(
    rt: &impl Abort,
    alloc: Global,
) -> Result<(), Fail> {
    differs::<S>(
        rt,
        alloc,
        builder()?.number_of_samples_per_segment(9),
        ZeroCopyCreationError::IncompatibleNumberOfSamples,
    )?;
    differs::<S>(
        rt,
        alloc,
        builder()?.max_supported_shared_memory_segments(2),
        ZeroCopyCreationError::IncompatibleNumberOfSegments,
    )?;
    differs::<S>(
        rt,
        alloc,
        builder()?.number_of_channels(2),
        ZeroCopyCreationError::IncompatibleNumberOfChannels,
    )
}

#[test]
fn differences_are_refused(rt: HostRuntime) -> Result<(), Fail> {
    queues_differ::<InProcess>(&rt, rt.alloc())?;
    samples_differ::<InProcess>(&rt, rt.alloc())?;
    queues_differ::<InFile>(&rt, rt.alloc())?;
    samples_differ::<InFile>(&rt, rt.alloc())
}

/// Of two differences the first in the order of the settings is told.
#[test]
fn the_first_difference_is_told(rt: HostRuntime) -> Result<(), Fail> {
    let alloc = rt.alloc();
    differs::<InProcess>(
        &rt,
        alloc,
        builder()?.enable_safe_overflow(true).buffer_size(5),
        ZeroCopyCreationError::IncompatibleBufferSize,
    )?;
    differs::<InProcess>(
        &rt,
        alloc,
        builder()?
            .number_of_channels(2)
            .number_of_samples_per_segment(9),
        ZeroCopyCreationError::IncompatibleNumberOfSamples,
    )
}

/// The last port that closes takes the name with it.
fn the_last_port_takes_the_name<S: DynamicStorage<SharedManagementData>>(
    rt: &impl Abort,
    alloc: Global,
) -> Result<(), Fail> {
    let mut reg = Registry::new(alloc);
    let sender = open_sender::<S>(alloc, &mut reg)?;
    assert!(rt; reg.len() == 1);
    assert!(rt; matches!(Connection::<S>::does_exist(&reg, &name()?), Ok(true)));
    sender.close(&mut reg);
    assert!(rt; reg.len() == 0);
    Ok(())
}

#[test]
fn last_ports_take_the_name(rt: HostRuntime) -> Result<(), Fail> {
    the_last_port_takes_the_name::<InProcess>(&rt, rt.alloc())?;
    the_last_port_takes_the_name::<InFile>(&rt, rt.alloc())
}

#[test]
fn too_large_a_buffer_is_out_of_range(rt: HostRuntime) -> Result<(), Fail> {
    let mut reg = Registry::new(rt.alloc());
    let refused = builder::<InProcess>()?
        .buffer_size(9223372036854775807)
        .create_sender(rt.alloc(), &mut reg);
    assert!(rt; matches!(refused.err(), Some(ZeroCopyCreationError::SizeOutOfRange)));
    assert!(rt; reg.len() == 0);
    Ok(())
}

#[test]
fn a_name_that_fits_no_path_is_refused(rt: HostRuntime) -> Result<(), Fail> {
    let name = FileName::new(&[97; 250]).ok_or("a file name")?;
    let mut reg = Registry::new(rt.alloc());
    let refused = Builder::<InProcess>::new(&name).create_sender(rt.alloc(), &mut reg);
    assert!(rt; matches!(refused.err(), Some(ZeroCopyCreationError::PathTooLong)));
    Ok(())
}

#[test]
fn an_index_is_one_of_a_segment(rt: HostRuntime) -> Result<(), Fail> {
    let mut reg = Registry::new(rt.alloc());
    let sender = builder::<InProcess>()?
        .max_supported_shared_memory_segments(3)
        .number_of_channels(4)
        .create_sender(rt.alloc(), &mut reg)?;
    assert!(rt; sender.segment_id_from_index(&reg, 5) == SegmentId::new(2));
    assert!(rt; sender.segment_id_from_index(&reg, 9) == SegmentId::new(0));
    Ok(())
}
