//! What is seen of a storage without opening it, its removal by name, and the path of its name.
ghost use Rattle.std.specs.Prelude.{◌≡◌, codes};
ghost use Rattle.cal_storage.specs.Holding.{KeepsHandles};

use super::fixtures::{create, long_name, my_name, open};
use crate::dynamic_storage::configuration::Configuration;
use crate::dynamic_storage::{file, process_local};
use crate::{DynamicStorage, DynamicStorageBuilder, DynamicStorageOpenError, Registry};
use cal_names::{FileName, NamedConceptBuilder, NamedConceptConfiguration, NamedType, TypeName};
use std::alloc::Global;
use std::process::Abort;
use std::test::Fail;

/// A look is refused as an opening would be.
fn a_look_is_refused<S: DynamicStorage<i64>>(rt: &impl Abort, alloc: Global) -> Result<(), Fail> {
    let reg = Registry::new(alloc);
    let missing = S::Builder::new(&my_name()?).peek(&reg).copied();
    assert!(rt; matches!(missing, Err(DynamicStorageOpenError::DoesNotExist)));
    let too_long = S::Builder::new(&long_name()?).peek(&reg).copied();
    assert!(rt; matches!(too_long, Err(DynamicStorageOpenError::PathTooLong)));
    Ok(())
}

/// A value is seen where it could be opened.
fn a_value_is_seen<S: DynamicStorage<i64>>(rt: &impl Abort, alloc: Global) -> Result<(), Fail> {
    let name = my_name()?;
    let mut reg = Registry::new(alloc);
    let _made = create::<S>(&mut reg, &name, 444)?;
    assert!(rt; matches!(S::Builder::new(&name).peek(&reg).copied(), Ok(444)));
    Ok(())
}

#[test]
fn an_entry_that_is_being_made_is_not_seen_as_a_file(rt: HostRuntime) -> Result<(), Fail> {
    let name = my_name()?;
    let mut reg = Registry::new(rt.alloc());
    let _staged = file::Builder::<i64>::new(&name).begin(&mut reg, 444)?;
    let seen = file::Builder::<i64>::new(&name).peek(&reg).copied();
    assert!(rt;
        matches!(
            seen,
            Err(DynamicStorageOpenError::InitializationNotYetFinalized)
        )
    );
    let seen = process_local::Builder::<i64>::new(&name)
        .peek(&reg)
        .copied();
    assert!(rt; matches!(seen, Ok(444)));
    Ok(())
}

/// Whether the name was there and is removed.
fn remove<S: DynamicStorage<i64>>(reg: &mut Registry<i64>, name: &FileName) -> bool
    ensures keeps { KeepsHandles reg.old reg.new }
{
    let config = S::Configuration::default();
    S::remove_name(reg, name, &config)
}

/// A removal by name takes the name, and leaves who holds the entry.
fn a_name_is_removed<S: DynamicStorage<i64>>(rt: &impl Abort, alloc: Global) -> Result<(), Fail> {
    let name = my_name()?;
    let mut reg = Registry::new(alloc);
    let made = create::<S>(&mut reg, &name, 444)?;
    assert!(rt; remove::<S>(&mut reg, &name));
    assert!(rt; !remove::<S>(&mut reg, &name));
    assert!(rt; *made.get(&reg) == 444);
    let missing = open::<S>(&mut reg, &name);
    assert!(rt; matches!(missing, Err(DynamicStorageOpenError::DoesNotExist)));
    Ok(())
}

/// A type whose name has a hash that is known from elsewhere.
struct Letters;

impl NamedType for Letters {
    ghost name = { codes "abc" };

    fn type_name() -> TypeName {
        TypeName::new(b"abc").unwrap()
    }
}

#[test]
fn the_hash_of_the_stored_type_stands_in_the_path(rt: HostRuntime) -> Result<(), Fail> {
    let name = FileName::new(b"mem").ok_or("a file name")?;
    let path = Configuration::<Letters>::default().path_for(&name)?;
    // The SHA-1 of `abc` in plain base64 is `qZk+NkcGgWq6PiVxeFDCbJzQ2J0=`.
    assert!(rt; path.as_bytes() == b"/tmp/iox2_qZk-NkcGgWq6PiVxeFDCbJzQ2J0_mem.dyn".as_slice());
    Ok(())
}

/// All of these for one kind of storage.
fn each_look<S: DynamicStorage<i64>>(rt: &impl Abort, alloc: Global) -> Result<(), Fail> {
    a_look_is_refused::<S>(rt, alloc)?;
    a_value_is_seen::<S>(rt, alloc)?;
    a_name_is_removed::<S>(rt, alloc)
}

#[test]
fn each_look_and_removal(rt: HostRuntime) -> Result<(), Fail> {
    each_look::<process_local::Storage<i64>>(&rt, rt.alloc())?;
    each_look::<file::Storage<i64>>(&rt, rt.alloc())
}
