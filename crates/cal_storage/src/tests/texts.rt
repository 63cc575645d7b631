//! The texts of errors, and how a storage and a registry are shown.
use crate::dynamic_storage::process_local;
use crate::{
    DynamicStorageBuilder, DynamicStorageCreateError, DynamicStorageOpenError,
    DynamicStorageOpenOrCreateError, Registry,
};
use cal_names::{FileName, NamedConceptBuilder};
use std::test::Fail;

#[test]
fn refusals_of_creations_are_printed(rt: HostRuntime) -> Result<(), Fail> {
    use DynamicStorageCreateError::{
        AlreadyExists, InitializationFailed, InsufficientPermissions, InternalError, NoMemory,
        PathTooLong,
    };
    for (error, text) in [
        (AlreadyExists, "AlreadyExists"),
        (InsufficientPermissions, "InsufficientPermissions"),
        (InitializationFailed, "InitializationFailed"),
        (InternalError, "InternalError"),
        (PathTooLong, "PathTooLong"),
        (NoMemory, "NoMemory"),
    ] {
        let expected = format!(in rt.alloc(); "DynamicStorageCreateError::{text}")?;
        assert!(rt; error.to_string(rt.alloc())?.as_str() == expected.as_str());
    }
    Ok(())
}

#[test]
fn refusals_of_openings_are_printed(rt: HostRuntime) -> Result<(), Fail> {
    use DynamicStorageOpenError::{
        DoesNotExist, InitializationNotYetFinalized, InternalError, PathTooLong, VersionMismatch,
    };
    for (error, text) in [
        (DoesNotExist, "DoesNotExist"),
        (
            InitializationNotYetFinalized,
            "InitializationNotYetFinalized",
        ),
        (VersionMismatch, "VersionMismatch"),
        (InternalError, "InternalError"),
        (PathTooLong, "PathTooLong"),
    ] {
        let expected = format!(in rt.alloc(); "DynamicStorageOpenError::{text}")?;
        assert!(rt; error.to_string(rt.alloc())?.as_str() == expected.as_str());
    }
    Ok(())
}

#[test]
fn an_inner_error_becomes_the_variant_of_its_name(rt: HostRuntime) -> Result<(), Fail> {
    let opening = DynamicStorageOpenOrCreateError::from(DynamicStorageOpenError::VersionMismatch);
    assert!(rt;
        matches!(
            opening,
            DynamicStorageOpenOrCreateError::DynamicStorageOpenError(
                DynamicStorageOpenError::VersionMismatch
            )
        )
    );
    let creation = DynamicStorageOpenOrCreateError::from(DynamicStorageCreateError::NoMemory);
    assert!(rt;
        matches!(
            creation,
            DynamicStorageOpenOrCreateError::DynamicStorageCreateError(
                DynamicStorageCreateError::NoMemory
            )
        )
    );
    assert!(rt;
        opening.to_string(rt.alloc())?.as_str()
            == "DynamicStorageOpenOrCreateError::DynamicStorageOpenError"
    );
    assert!(rt;
        creation.to_string(rt.alloc())?.as_str()
            == "DynamicStorageOpenOrCreateError::DynamicStorageCreateError"
    );
    Ok(())
}

#[test]
fn a_storage_and_a_registry_are_shown(rt: HostRuntime) -> Result<(), Fail> {
    let mut reg = Registry::<i64>::new(rt.alloc());
    let text = format!(in rt.alloc(); "{reg:?}")?;
    assert!(rt; text.as_str() == "Registry { alloc: Global, names: {}, slots: [] }");
    let name = FileName::new(b"a").ok_or("a file name")?;
    let made = process_local::Builder::<i64>::new(&name).create(&mut reg, 1, |_, _| true)?;
    let text = format!(in rt.alloc(); "{made:?}")?;
    assert!(rt;
        text.as_str().starts_with(
            "Storage { name: FileName { bytes: \"a\" }, handle: Handle { id: 0, path: FilePath { bytes: \"/tmp/iox2_"
        )
    );
    assert!(rt;
        text.as_str()
            .ends_with("_a.dyn\" }, is_owner: true }, of: PhantomData<_> }")
    );
    Ok(())
}
