//! A registry that two workers use.
use super::fixtures::{create, my_name};
use crate::dynamic_storage::file::{Builder, Configuration, Storage};
use crate::{
    AccessMode, DynamicStorageBuilder, DynamicStorageCreateError, DynamicStorageOpenError,
    Registry, SharedRegistry,
};
use cal_names::{FileName, FilePath, NamedConceptBuilder, NamedConceptConfiguration};
use std::sync::Wait;
use std::test::Fail;
use std::thread;

/// Begins the storage of this name under the lock, and lets it be.
fn begin(
    rt: &impl Wait,
    shared: &SharedRegistry<i64>,
    name: &FileName,
) -> Result<(), DynamicStorageCreateError> {
    let mut reg = shared.lock(rt);
    let _staged = Builder::<i64>::new(name).begin(&mut reg, 444)?;
    Ok(())
}

/// Opens the storage of this name under the lock.
fn open(
    rt: &impl Wait,
    shared: &SharedRegistry<i64>,
    name: &FileName,
) -> Result<(), DynamicStorageOpenError> {
    let mut reg = shared.lock(rt);
    let _opened: Storage<i64> = Builder::<i64>::new(name).open(&mut reg, AccessMode::Read)?;
    Ok(())
}

/// Sets the version of a finished entry under the lock.
fn set_finished(rt: &impl Wait, shared: &SharedRegistry<i64>, path: &FilePath) -> bool {
    shared.lock(rt).set_version(path, 9003)
}

#[test]
fn one_opens_what_another_finishes(rt: HostRuntime) -> Result<(), Fail> {
    let name = my_name()?;
    let path = Configuration::<i64>::default().path_for(&name)?;
    let shared = SharedRegistry::new(Registry::new(rt.alloc()));
    begin(&rt, &shared, &name)?;
    let (is_set, opened) = thread::join(
        &rt,
        || set_finished(&rt, &shared, &path),
        || open(&rt, &shared, &name),
    );
    assert!(rt; is_set);
    assert!(rt;
        matches!(
            opened,
            Ok(()) | Err(DynamicStorageOpenError::InitializationNotYetFinalized)
        )
    );
    assert!(rt; matches!(open(&rt, &shared, &name), Ok(())));
    Ok(())
}

#[test]
fn a_shared_registry_has_what_was_in_it(rt: HostRuntime) -> Result<(), Fail> {
    let name = my_name()?;
    let path = Configuration::<i64>::default().path_for(&name)?;
    let mut reg = Registry::new(rt.alloc());
    let _made = create::<Storage<i64>>(&mut reg, &name, 444)?;
    let shared = SharedRegistry::new(reg);
    let is_there = shared.lock(&rt).contains(&path);
    assert!(rt; is_there);
    assert!(rt; matches!(open(&rt, &shared, &name), Ok(())));
    Ok(())
}
