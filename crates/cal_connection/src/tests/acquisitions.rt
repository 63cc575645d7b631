//! A sender that takes all used offsets back.
ghost use Rattle.std.specs.Prelude.{◌≡◌, true};
ghost use Rattle.cal_connection.specs.Acquisition.{IsAcquirable};
ghost use Rattle.cal_connection.specs.Ends.{AreOpen};

use crate::tests::ends::{builder, connect, receive, send};
use crate::{
    Receiver, Sender, SharedManagementData, ZeroCopyConnectionBuilder, ZeroCopyPortDetails,
    ZeroCopySender,
};
use cal_alloc::PointerOffset;
use cal_storage::Registry;
use cal_storage::dynamic_storage::process_local;
use std::process::Abort;
use std::test::Fail;

type InProcess = process_local::Storage<SharedManagementData>;

/// Whether each segment has one sample. Then all offsets are 0, and can be acquired.
fn has_one_sample(entry: &SharedManagementData) -> bool
    ensures acquirable { result ≡ true → IsAcquirable entry.now }
{
    entry.settings().number_of_samples == 1
}

/// How many offsets the sender acquires.
fn acquired(
    rt: &impl Abort,
    reg: &mut Registry<SharedManagementData>,
    ends: &mut (Sender<InProcess>, Receiver<InProcess>),
) -> u64
    requires open { AreOpen reg.old ends.old.0.handle ends.old.1.handle }
    ensures open { AreOpen reg.new ends.new.0.handle ends.new.1.handle }
{
    let mut count = 0u64;
    assert!(rt; has_one_sample(ends.0.management_data(reg)));
    ends.0
        .acquire_used_offsets(reg, |_ptr| count = count.wrapping_add(1));
    count
}

/// What is acquired on two channels is acquired once, and stays queued.
#[test]
fn used_offsets_are_acquired_once(rt: HostRuntime) -> Result<(), Fail> {
    let ptr = PointerOffset::new(0);
    let mut reg = Registry::new(rt.alloc());
    let mut ends = connect::<InProcess>(
        rt.alloc(),
        &mut reg,
        builder()?
            .number_of_samples_per_segment(1)
            .number_of_channels(2),
        builder()?
            .number_of_samples_per_segment(1)
            .number_of_channels(2),
    )?;
    assert!(rt; matches!(send(&rt, &mut reg, &mut ends, ptr, 8, 0), Ok(None)));
    assert!(rt; matches!(send(&rt, &mut reg, &mut ends, ptr, 8, 1), Ok(None)));
    assert!(rt; acquired(&rt, &mut reg, &mut ends) == 2);
    assert!(rt; acquired(&rt, &mut reg, &mut ends) == 0);
    assert!(rt; receive(&rt, &mut reg, &mut ends, 1) == Ok(Some(ptr)));
    Ok(())
}
