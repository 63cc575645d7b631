//! What the tests share: a name, and storages of it, said by what the tests need alone.
ghost use Rattle.std.specs.Prelude.{IfOk};
ghost use Rattle.cal_storage.specs.Holding.{Holds, KeepsHandles};

use crate::{
    AccessMode, DynamicStorage, DynamicStorageBuilder, DynamicStorageCreateError,
    DynamicStorageOpenError, Registry,
};
use cal_names::{FileName, NamedConceptBuilder};
use std::test::Fail;

/// The name of the storages of the tests.
pub(super) fn my_name() -> Result<FileName, Fail> {
    Ok(FileName::new(b"myDynStorage").ok_or("a file name")?)
}

/// A name of 255 bytes, which no path has room for.
pub(super) fn long_name() -> Result<FileName, Fail> {
    Ok(FileName::new(&[b'a'; 255]).ok_or("a file name")?)
}

/// Creates a storage that owns its name.
pub(super) fn create<S: DynamicStorage<i64>>(
    reg: &mut Registry<i64>,
    name: &FileName,
    value: i64,
) -> Result<S, DynamicStorageCreateError>
    ensures holds { IfOk result (λ storage. Holds reg.new 1 (S.handle storage)) }
    ensures keeps { KeepsHandles reg.old reg.new }
{
    S::Builder::new(name).create(reg, value, |_, _| true)
}

/// Opens a storage.
pub(super) fn open<S: DynamicStorage<i64>>(
    reg: &mut Registry<i64>,
    name: &FileName,
) -> Result<S, DynamicStorageOpenError>
    ensures holds { IfOk result (λ storage. Holds reg.new 1 (S.handle storage)) }
    ensures keeps { KeepsHandles reg.old reg.new }
{
    S::Builder::new(name).open(reg, AccessMode::ReadWrite)
}

/// Whether a name is there.
pub(super) fn is_there<S: DynamicStorage<i64>>(
    reg: &Registry<i64>,
    name: &FileName,
) -> Result<bool, Fail> {
    Ok(S::does_exist(reg, name)?)
}
