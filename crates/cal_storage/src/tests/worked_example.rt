//! The worked example of a storage, for both kinds.
ghost use Rattle.cal_storage.specs.Holding.{KeepsHandles};

use super::fixtures::{create, my_name, open};
use crate::dynamic_storage::{file, process_local};
use crate::{
    DynamicStorage, DynamicStorageBuilder, DynamicStorageCreateError, DynamicStorageOpenError,
    Registry,
};
use cal_names::{FileName, NamedConceptBuilder};
use std::alloc::Global;
use std::process::Abort;
use std::test::Fail;

/// A name is created once, and listed once.
fn a_name_is_created_once<S: DynamicStorage<i64>>(
    rt: &impl Abort,
    alloc: Global,
) -> Result<(), Fail> {
    let name = my_name()?;
    let mut reg = Registry::new(alloc);
    let _first = create::<S>(&mut reg, &name, 444)?;
    let refused = create::<S>(&mut reg, &name, 873);
    assert!(rt; matches!(refused, Err(DynamicStorageCreateError::AlreadyExists)));
    let names = S::list(alloc, &reg)?;
    assert!(rt; names.as_slice() == [name].as_slice());
    Ok(())
}

/// One makes a storage, another opens it, and both see what either writes.
fn both_see_what_is_written<S: DynamicStorage<i64>>(
    rt: &impl Abort,
    alloc: Global,
) -> Result<(), Fail> {
    let name = my_name()?;
    let mut reg = Registry::new(alloc);
    let first = create::<S>(&mut reg, &name, 444)?;
    let second = open::<S>(&mut reg, &name)?;
    assert!(rt; *second.get(&reg) == 444);
    *S::get_mut(&mut reg, &second) = 456;
    assert!(rt; *first.get(&reg) == 456);
    assert!(rt; *second.get(&reg) == 456);
    Ok(())
}

/// Takes the name of a storage, which is there once.
fn take_name<S: DynamicStorage<i64>>(rt: &impl Abort, reg: &mut Registry<i64>, name: &FileName)
    ensures keeps { KeepsHandles reg.old reg.new }
{
    let config = S::Configuration::default();
    let is_removed = S::remove_name(reg, name, &config);
    assert!(rt; is_removed);
}

/// Once its name is removed, a storage is read by those who hold it, and opened by nobody.
fn both_read_without_the_name<S: DynamicStorage<i64>>(
    rt: &impl Abort,
    alloc: Global,
) -> Result<(), Fail> {
    let name = my_name()?;
    let mut reg = Registry::new(alloc);
    let first = create::<S>(&mut reg, &name, 456)?;
    let second = open::<S>(&mut reg, &name)?;
    take_name::<S>(rt, &mut reg, &name);
    assert!(rt; *first.get(&reg) == 456);
    assert!(rt; *second.get(&reg) == 456);
    let refused = open::<S>(&mut reg, &name);
    assert!(rt; matches!(refused, Err(DynamicStorageOpenError::DoesNotExist)));
    assert!(rt; matches!(S::remove(alloc, &mut reg, &name), Ok(false)));
    Ok(())
}

/// A value that its initializer refuses leaves nothing.
fn a_refused_value_leaves_nothing<S: DynamicStorage<i64>>(
    rt: &impl Abort,
    alloc: Global,
) -> Result<(), Fail> {
    let name = my_name()?;
    let mut reg = Registry::new(alloc);
    let refused = S::Builder::new(&name).create(&mut reg, 873, |_, _| false);
    assert!(rt;
        matches!(
            refused,
            Err(DynamicStorageCreateError::InitializationFailed)
        )
    );
    let names = S::list(alloc, &reg)?;
    assert!(rt; names.is_empty());
    assert!(rt; reg.len() == 0);
    let _made = create::<S>(&mut reg, &name, 444)?;
    assert!(rt; reg.len() == 1);
    Ok(())
}

/// What is created where nothing is there owns its name, until it gives that up.
fn a_new_storage_owns_its_name<S: DynamicStorage<i64>>(
    rt: &impl Abort,
    alloc: Global,
) -> Result<(), Fail> {
    let mut reg = Registry::new(alloc);
    let mut first = S::Builder::new(&my_name()?).open_or_create(&mut reg, 873, |_, _| true)?;
    assert!(rt; first.has_ownership());
    first.release_ownership();
    assert!(rt; !first.has_ownership());
    Ok(())
}

/// Two hold a storage that nobody owns, and both close. The second finds what the first created.
fn two_hold_and_close<S: DynamicStorage<i64>>(
    rt: &impl Abort,
    reg: &mut Registry<i64>,
    name: &FileName,
) -> Result<(), Fail> {
    let mut first = S::Builder::new(name).open_or_create(reg, 873, |_, _| true)?;
    first.release_ownership();
    let second = S::Builder::new(name).open_or_create(reg, 444, |_, _| false)?;
    assert!(rt; *second.get(reg) == 873);
    assert!(rt; !second.has_ownership());
    first.close(reg);
    second.close(reg);
    Ok(())
}

/// A value stays under a name that nobody owns, also once all have closed.
fn a_value_outlives_its_holders<S: DynamicStorage<i64>>(
    rt: &impl Abort,
    alloc: Global,
) -> Result<(), Fail> {
    let name = my_name()?;
    let mut reg = Registry::new(alloc);
    two_hold_and_close::<S>(rt, &mut reg, &name)?;
    let third = open::<S>(&mut reg, &name)?;
    assert!(rt; *third.get(&reg) == 873);
    Ok(())
}

/// All of these for one kind of storage.
fn each_step<S: DynamicStorage<i64>>(rt: &impl Abort, alloc: Global) -> Result<(), Fail> {
    a_name_is_created_once::<S>(rt, alloc)?;
    both_see_what_is_written::<S>(rt, alloc)?;
    both_read_without_the_name::<S>(rt, alloc)?;
    a_refused_value_leaves_nothing::<S>(rt, alloc)?;
    a_new_storage_owns_its_name::<S>(rt, alloc)?;
    a_value_outlives_its_holders::<S>(rt, alloc)
}

#[test]
fn each_step_of_the_example(rt: HostRuntime) -> Result<(), Fail> {
    each_step::<process_local::Storage<i64>>(&rt, rt.alloc())?;
    each_step::<file::Storage<i64>>(&rt, rt.alloc())
}
