//! A value that is stored under a name and read back, through the bound alone.
ghost use Rattle.std.specs.Prelude.{◌≡◌, Some, IfOk, OnOk, OnErr};
ghost use Rattle.cal_names.specs.ConceptSettings.{file_path_for};
ghost use Rattle.cal_storage.specs.Contents.{value_at};

use super::fixtures::my_name;
use crate::dynamic_storage::{file, process_local};
use crate::{
    AccessMode, DynamicStorage, DynamicStorageBuilder, DynamicStorageCreateError, Registry,
};
use cal_names::{FileName, NamedConceptBuilder};
use std::test::Fail;

/// Stores a value under a name that nobody owns, reads it back, and closes. It asks nothing of its caller.
fn store<S: DynamicStorage<i64>>(
    reg: &mut Registry<i64>,
    name: &FileName,
    value: i64,
) -> Result<i64, DynamicStorageCreateError>
    ensures read { IfOk result (λ read. read ≡ value) }
    ensures stays { OnOk result (value_at reg.new (file_path_for S.Configuration.initial name.now) ≡ Some value) }
    ensures unchanged { OnErr result (reg.new ≡ reg.old) }
{
    let storage = S::Builder::new(name)
        .has_ownership(false)
        .create(reg, 0, |_, _| true)?;
    *S::get_mut(reg, &storage) = value;
    let read = *storage.get(reg);
    storage.close(reg);
    Ok(read)
}

/// What is read back of what is stored.
fn stored_and_read<S: DynamicStorage<i64>>(
    reg: &mut Registry<i64>,
    value: i64,
) -> Result<i64, Fail> {
    Ok(store::<S>(reg, &my_name()?, value)?)
}

#[test]
fn what_is_written_is_read(rt: HostRuntime) -> Result<(), Fail> {
    let mut reg = Registry::new(rt.alloc());
    assert!(rt; stored_and_read::<process_local::Storage<i64>>(&mut reg, 456)? == 456);
    let mut reg = Registry::new(rt.alloc());
    assert!(rt; stored_and_read::<file::Storage<i64>>(&mut reg, 456)? == 456);
    Ok(())
}
