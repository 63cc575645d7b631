//! A file storage that is being made.
ghost use Rattle.std.specs.Prelude.{◌≡◌, ◌≤◌, ◌^◌, true, false, ◌↔◌, IsOk, IfOk, IfErr, IfSome, OnOk, OnErr};
ghost use Rattle.std.specs.Result.{is_ok};
ghost use Rattle.cal_alloc.specs.Limits.{max_memory_size};
ghost use Rattle.cal_storage.specs.Contents.{Has, value_of};
ghost use Rattle.cal_storage.specs.Holding.{KeepsHandles, KeepsOtherHandles};
ghost use Rattle.cal_storage.specs.Initializer.{MayInitialize};
ghost use Rattle.cal_storage.specs.RegistryCalls.{FinishesEntry};
ghost use Rattle.cal_storage.specs.Soundness.{IsSound};

use crate::dynamic_storage::DynamicStorageCreateError;
use crate::dynamic_storage::file::Storage;
use crate::handle::Handle;
use crate::registry::Registry;
use cal_alloc::BumpAllocator;
use cal_names::FileName;
use std::marker::{Model, PhantomData};

/// The holder of an entry that is being made. Where it is let go unfinished, the entry stays as it is, with its holder.
#[derive_where(Debug)]
#[derive(Drop)]
pub struct Staged<T> {
    /// The name of the storage.
    name: FileName,
    /// The entry that is being made.
    handle: Handle,
    /// The room of the initializer in bytes, at most 2^56.
    supplementary_size: usize,
    /// What is stored.
    of: PhantomData<T>,
}

impl<T> Model for Staged<T> {
    ghost use Rattle.std.specs.Prelude.{◌≤◌, ◌^◌};
    ghost use Rattle.cal_alloc.specs.Limits.{max_memory_size};
    ghost use Rattle.cal_storage.specs.Staged as specs;

    ghost Value = { specs.Staged };

    ghost view = { λ s. record { name = s.name; handle = s.handle; room = s.supplementary_size } };

    ghost invariant = { λ s. s.supplementary_size ≤ max_memory_size };
}

impl<T> Staged<T> {
    pub(crate) fn new(name: FileName, handle: Handle, supplementary_size: usize) -> Self
        requires { supplementary_size ≤ max_memory_size }
        ensures { result ≡ record { name = name; handle = handle; room = supplementary_size } }
    {
        Staged {
            name,
            handle,
            supplementary_size,
            of: PhantomData,
        }
    }
}

impl<T: Drop> Staged<T> {
    /// Finishes the storage: the initializer is called on the value and an allocator over the room. Where it answers
    /// true the storage has the value that it left, and can be opened; it is the holder from then on. Where it answers
    /// false that is `InitializationFailed`: the value is dropped, the entry has ended, and its name is gone where it
    /// still stood for it. Succeeds too where the name was removed. Takes no memory.
    pub fn finish<F: FnMut(&mut T, &mut BumpAllocator) -> bool + Drop>(
        self,
        reg: &mut Registry<T>,
        initializer: F,
    ) -> Result<Storage<T>, DynamicStorageCreateError>
        requires there { Has reg.old self.handle }
        requires callable { IfSome (value_of reg.old self.handle.id)
            (λ value. MayInitialize F.FnMut initializer value self.room) }
        ensures finished { FinishesEntry F.FnMut initializer self.room reg.old self.handle (is_ok result) reg.new }
        ensures handle { IfOk result (λ storage. storage.handle ≡ self.handle) }
        ensures name { IfOk result (λ storage. storage.name ≡ self.name) }
        ensures error { IfErr result (λ error. error ≡ DynamicStorageCreateError.InitializationFailed) }
        ensures keeps { OnOk result (KeepsHandles reg.old reg.new) }
        ensures keeps_others { KeepsOtherHandles reg.old reg.new self.handle.id }
        ensures sound { IsSound reg.old }
    {
        if !reg.finish(&self.handle, self.supplementary_size, initializer) {
            return Err(DynamicStorageCreateError::InitializationFailed);
        }
        Ok(Storage {
            name: self.name,
            handle: self.handle,
            of: PhantomData,
        })
    }
}
