//! What the close of an owner takes, and what it leaves.
ghost use Rattle.std.specs.Prelude.{◌≡◌, true};
ghost use Rattle.cal_storage.specs.Holding.{KeepsHandles};

use super::fixtures::{create, is_there, my_name, open};
use crate::dynamic_storage::{file, process_local};
use crate::{AccessMode, DynamicStorage, DynamicStorageBuilder, Registry};
use cal_names::{FileName, NamedConceptBuilder};
use std::alloc::Global;
use std::process::Abort;
use std::test::Fail;

/// Takes a name away, which is there.
fn remove<S: DynamicStorage<i64>>(
    rt: &impl Abort,
    alloc: Global,
    reg: &mut Registry<i64>,
    name: &FileName,
)
    ensures keeps { KeepsHandles reg.old reg.new }
{
    let removed = S::remove(alloc, reg, name);
    assert!(rt; matches!(removed, Ok(true)));
}

/// A name that another made anew stays when its first owner closes.
fn a_name_that_was_made_anew_stays<S: DynamicStorage<i64>>(
    rt: &impl Abort,
    alloc: Global,
) -> Result<(), Fail> {
    let name = my_name()?;
    let mut reg = Registry::new(alloc);
    let first = create::<S>(&mut reg, &name, 444)?;
    remove::<S>(rt, alloc, &mut reg, &name);
    let _second = create::<S>(&mut reg, &name, 873)?;
    first.close(&mut reg);
    assert!(rt; is_there::<S>(&reg, &name)?);
    let third = open::<S>(&mut reg, &name)?;
    assert!(rt; *third.get(&reg) == 873);
    Ok(())
}

/// Takes the ownership of a storage that doesn't have it.
fn acquire<S: DynamicStorage<i64>>(rt: &impl Abort, storage: &mut S)
    ensures owner { S.handle storage.new ≡ record (S.handle storage.old) { is_owner = true } }
{
    assert!(rt; !storage.has_ownership());
    storage.acquire_ownership();
    assert!(rt; storage.has_ownership());
}

/// Who has taken the ownership of an opened storage takes its name at the close. Another holder still reads.
fn a_new_owner_takes_the_name<S: DynamicStorage<i64>>(
    rt: &impl Abort,
    alloc: Global,
) -> Result<(), Fail> {
    let name = my_name()?;
    let mut reg = Registry::new(alloc);
    let first = S::Builder::new(&name)
        .has_ownership(false)
        .create(&mut reg, 444, |_, _| true)?;
    let mut second = S::Builder::new(&name).open(&mut reg, AccessMode::ReadWrite)?;
    acquire(rt, &mut second);
    second.close(&mut reg);
    assert!(rt; !is_there::<S>(&reg, &name)?);
    assert!(rt; *first.get(&reg) == 444);
    Ok(())
}

#[test]
fn an_id_is_not_used_again(rt: HostRuntime) -> Result<(), Fail> {
    let name = my_name()?;
    let mut reg = Registry::new(rt.alloc());
    let first = create::<file::Storage<i64>>(&mut reg, &name, 444)?;
    let first_id = first.handle.id;
    first.close(&mut reg);
    assert!(rt; reg.len() == 0);
    let second = create::<file::Storage<i64>>(&mut reg, &name, 873)?;
    assert!(rt; first_id == 0);
    assert!(rt; second.handle.id == 1);
    Ok(())
}

/// All of these for one kind of storage.
fn each_close<S: DynamicStorage<i64>>(rt: &impl Abort, alloc: Global) -> Result<(), Fail> {
    a_name_that_was_made_anew_stays::<S>(rt, alloc)?;
    a_new_owner_takes_the_name::<S>(rt, alloc)
}

#[test]
fn each_close_of_an_owner(rt: HostRuntime) -> Result<(), Fail> {
    each_close::<process_local::Storage<i64>>(&rt, rt.alloc())?;
    each_close::<file::Storage<i64>>(&rt, rt.alloc())
}
