//! Entries that are begun and finished later.
use super::fixtures::{create, my_name, open};
use crate::dynamic_storage::file::{Builder, Configuration, Storage};
use crate::dynamic_storage::process_local;
use crate::{DynamicStorage, DynamicStorageCreateError, DynamicStorageOpenError, Registry};
use cal_names::{NamedConceptBuilder, NamedConceptConfiguration, NamedConceptMgmt};
use std::test::Fail;

#[test]
fn an_entry_is_opened_once_it_is_finished(rt: HostRuntime) -> Result<(), Fail> {
    let name = my_name()?;
    let mut reg = Registry::new(rt.alloc());
    let staged = Builder::<i64>::new(&name).begin(&mut reg, 444)?;
    let refused = open::<Storage<i64>>(&mut reg, &name);
    assert!(rt;
        matches!(
            refused,
            Err(DynamicStorageOpenError::InitializationNotYetFinalized)
        )
    );
    let _storage = staged.finish(&mut reg, |value, _| {
        *value = 873;
        true
    })?;
    let opened = open::<Storage<i64>>(&mut reg, &name)?;
    assert!(rt; *opened.get(&reg) == 873);
    Ok(())
}

#[test]
fn an_entry_of_another_version_is_not_opened(rt: HostRuntime) -> Result<(), Fail> {
    let name = my_name()?;
    let mut reg = Registry::new(rt.alloc());
    let _made = create::<Storage<i64>>(&mut reg, &name, 873)?;
    let path = Configuration::<i64>::default().path_for(&name)?;
    assert!(rt; reg.set_version(&path, 9002));
    let refused = open::<Storage<i64>>(&mut reg, &name);
    assert!(rt; matches!(refused, Err(DynamicStorageOpenError::VersionMismatch)));
    Ok(())
}

#[test]
fn the_path_of_an_entry_that_is_being_made_is_taken(rt: HostRuntime) -> Result<(), Fail> {
    let name = my_name()?;
    let mut reg = Registry::new(rt.alloc());
    let _staged = Builder::<i64>::new(&name).begin(&mut reg, 444)?;
    let refused = create::<Storage<i64>>(&mut reg, &name, 873);
    assert!(rt; matches!(refused, Err(DynamicStorageCreateError::AlreadyExists)));
    let begun = Builder::<i64>::new(&name).begin(&mut reg, 444);
    assert!(rt; matches!(begun, Err(DynamicStorageCreateError::AlreadyExists)));
    Ok(())
}

#[test]
fn a_refused_value_frees_its_path(rt: HostRuntime) -> Result<(), Fail> {
    let name = my_name()?;
    let mut reg = Registry::new(rt.alloc());
    let staged = Builder::<i64>::new(&name).begin(&mut reg, 444)?;
    let finished = staged.finish(&mut reg, |value, _| {
        *value = 873;
        false
    });
    assert!(rt;
        matches!(
            finished,
            Err(DynamicStorageCreateError::InitializationFailed)
        )
    );
    assert!(rt; reg.len() == 0);
    let again = create::<Storage<i64>>(&mut reg, &name, 456)?;
    assert!(rt; *again.get(&reg) == 456);
    Ok(())
}

#[test]
fn an_entry_is_finished_without_its_name(rt: HostRuntime) -> Result<(), Fail> {
    let name = my_name()?;
    let mut reg = Registry::new(rt.alloc());
    let staged = Builder::<i64>::new(&name).begin(&mut reg, 444)?;
    assert!(rt;
        matches!(
            Storage::<i64>::remove(rt.alloc(), &mut reg, &name),
            Ok(true)
        )
    );
    let storage = staged.finish(&mut reg, |value, _| {
        *value = 873;
        true
    })?;
    assert!(rt; *storage.get(&reg) == 873);
    assert!(rt; reg.len() == 0);
    Ok(())
}

#[test]
fn a_process_local_storage_is_opened_while_it_is_being_made(rt: HostRuntime) -> Result<(), Fail> {
    let name = my_name()?;
    let mut reg = Registry::new(rt.alloc());
    let _staged = Builder::<i64>::new(&name).begin(&mut reg, 444)?;
    let opened = open::<process_local::Storage<i64>>(&mut reg, &name)?;
    assert!(rt; *opened.get(&reg) == 444);
    Ok(())
}

#[test]
fn the_version_of_a_name_that_is_not_there_is_not_set(rt: HostRuntime) -> Result<(), Fail> {
    let name = my_name()?;
    let mut reg = Registry::<i64>::new(rt.alloc());
    let path = Configuration::<i64>::default().path_for(&name)?;
    assert!(rt; !reg.set_version(&path, 9003));
    Ok(())
}
