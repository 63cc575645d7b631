//! What an initializer is shown, and what it leaves.
ghost use Rattle.std.specs.Prelude.{IsTrue};

use super::fixtures::{create, long_name, my_name, open};
use crate::dynamic_storage::{file, process_local};
use crate::{DynamicStorage, DynamicStorageBuilder, Registry};
use cal_alloc::{BumpAllocator, Layout, ShmAllocationError, ShmAllocator};
use cal_names::{FileName, NamedConceptBuilder};
use std::alloc::Global;
use std::process::Abort;
use std::test::Fail;

/// Whether an allocator has room for 16 bytes, and for no more then.
fn has_room_for_16(allocator: &mut BumpAllocator) -> bool
    requires { IsTrue allocator.old.is_ready }
{
    let (Some(sixteen), Some(one)) = (Layout::new(16, 1), Layout::new(1, 1)) else {
        return false;
    };
    allocator.allocate(sixteen).is_ok()
        && matches!(
            allocator.allocate(one),
            Err(ShmAllocationError::OutOfMemory)
        )
}

/// An initializer changes the value, and has as much room as the builder was told.
fn an_initializer_leaves_the_value<S: DynamicStorage<i64>>(
    rt: &impl Abort,
    alloc: Global,
) -> Result<(), Fail> {
    let name = my_name()?;
    let mut reg = Registry::new(alloc);
    let _made = S::Builder::new(&name)
        .supplementary_size(16)
        .create(&mut reg, 444, |value, allocator| {
            *value = 873;
            has_room_for_16(allocator)
        })?;
    let opened = open::<S>(&mut reg, &name)?;
    assert!(rt; *opened.get(&reg) == 873);
    Ok(())
}

/// How often the initializer is called where a storage of this name is to be created.
fn count_calls<S: DynamicStorage<i64>>(reg: &mut Registry<i64>, name: &FileName) -> u32 {
    let mut calls = 0u32;
    let _created = S::Builder::new(name).create(reg, 444, |_, _| {
        calls = calls.saturating_add(1);
        true
    });
    calls
}

/// An initializer is called once by a creation that succeeds, and by none that is refused for its path.
fn an_initializer_is_called_once<S: DynamicStorage<i64>>(
    rt: &impl Abort,
    alloc: Global,
) -> Result<(), Fail> {
    let name = my_name()?;
    let mut reg = Registry::new(alloc);
    assert!(rt; count_calls::<S>(&mut reg, &name) == 1);
    assert!(rt; count_calls::<S>(&mut reg, &name) == 0);
    assert!(rt; count_calls::<S>(&mut reg, &long_name()?) == 0);
    Ok(())
}

/// It isn't called where something is opened.
fn an_initializer_is_not_called_by_an_opening<S: DynamicStorage<i64>>(
    rt: &impl Abort,
    alloc: Global,
) -> Result<(), Fail> {
    let name = my_name()?;
    let mut reg = Registry::new(alloc);
    let mut calls = 0u32;
    let _made = create::<S>(&mut reg, &name, 444)?;
    let opened = S::Builder::new(&name).open_or_create(&mut reg, 444, |_, _| {
        calls = calls.saturating_add(1);
        true
    });
    assert!(rt; calls == 0);
    assert!(rt; opened.is_ok());
    Ok(())
}

/// It isn't called where there is no path.
fn an_initializer_is_not_called_without_a_path<S: DynamicStorage<i64>>(
    rt: &impl Abort,
    alloc: Global,
) -> Result<(), Fail> {
    let mut reg = Registry::new(alloc);
    let mut calls = 0u32;
    let too_long = S::Builder::new(&long_name()?).open_or_create(&mut reg, 444, |_, _| {
        calls = calls.saturating_add(1);
        true
    });
    assert!(rt; calls == 0);
    assert!(rt; too_long.is_err());
    Ok(())
}

#[test]
fn an_initializer_is_called_when_its_making_is_finished(rt: HostRuntime) -> Result<(), Fail> {
    let mut reg = Registry::new(rt.alloc());
    let mut calls = 0u32;
    let staged = file::Builder::<i64>::new(&my_name()?).begin(&mut reg, 444)?;
    let finished = staged.finish(&mut reg, |_, _| {
        calls = calls.saturating_add(1);
        true
    });
    assert!(rt; calls == 1);
    assert!(rt; finished.is_ok());
    Ok(())
}

/// All of these for one kind of storage.
fn each_call<S: DynamicStorage<i64>>(rt: &impl Abort, alloc: Global) -> Result<(), Fail> {
    an_initializer_leaves_the_value::<S>(rt, alloc)?;
    an_initializer_is_called_once::<S>(rt, alloc)?;
    an_initializer_is_not_called_by_an_opening::<S>(rt, alloc)?;
    an_initializer_is_not_called_without_a_path::<S>(rt, alloc)
}

#[test]
fn each_call_of_an_initializer(rt: HostRuntime) -> Result<(), Fail> {
    each_call::<process_local::Storage<i64>>(&rt, rt.alloc())?;
    each_call::<file::Storage<i64>>(&rt, rt.alloc())
}
