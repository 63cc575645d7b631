//! What a registry keeps of a stored value, and the slot of its id.
ghost use Rattle.std.specs.Prelude.{◌≡◌, ◌≤◌, ◌^◌, true, IsSome, IfSome, Some};
ghost use Rattle.std.specs.Borrow.{sem};
ghost use Rattle.std.specs.Option.{option_copied, option_map};
ghost use Rattle.std.specs.Result.{result_err};
ghost use Rattle.cal_alloc.specs.Limits.{max_memory_size};
ghost use Rattle.cal_storage.specs.Contents.{entry_in, slot_with_holder, slot_with_holder_less, slot_with_version, slot_if_used, slot_with_value};
ghost use Rattle.cal_storage.specs.Initializer.{MayInitialize};
ghost use Rattle.cal_storage.specs.SlotLends.{LendsValue};
ghost use Rattle.cal_storage.specs.Refusals.{entry_refusal, finished_version};
ghost use Rattle.cal_storage.specs.Finishing.{Finishes};

use crate::dynamic_storage::DynamicStorageOpenError;
use crate::initialize::initialize;
use cal_alloc::BumpAllocator;
use cal_names::FilePath;
use std::alloc::Global;

/// The version of a finished entry.
pub(crate) const FINISHED_VERSION: u64 = 9003;

/// A stored value and what the registry knows of it.
#[derive(Debug, Drop)]
pub struct Entry<T> {
    /// The path under which the entry was made.
    pub path: FilePath,
    /// The stored value.
    pub value: T,
    /// 0 while the value is being made. A finished entry has another version.
    pub version: u64,
    /// How many handles hold the entry. The count stops at `usize::MAX` and then never falls.
    pub holders: usize,
}

/// The slot of an id in a registry.
#[derive(Debug, Drop)]
pub enum Slot<T> {
    /// The entry has ended. Its id isn't used again.
    Ended,
    /// The entry is there.
    Kept(Entry<T>),
}

impl<T> Slot<T> {
    /// The entry that is there.
    pub(crate) fn entry(&self) -> Option<&Entry<T>>
        ensures { option_copied result ≡ entry_in self.now }
    {
        match self {
            Slot::Ended => None,
            Slot::Kept(entry) => Some(entry),
        }
    }

    /// The value of the entry.
    pub(crate) fn value(&self) -> &T
        requires { IsSome (entry_in self.now) }
        ensures { Some result.now ≡ option_map (λ entry. entry.value) (entry_in self.now) }
    {
        match self {
            Slot::Ended => unreachable!(),
            Slot::Kept(entry) => &entry.value,
        }
    }

    /// The value of the entry, to be written.
    pub(crate) fn value_mut(&mut self) -> &mut T
        requires { IsSome (entry_in self.old) }
        ensures* writes_back { sem 𝓛 (LendsValue T.row self.entry result) }
        ensures value { Some result.now ≡ option_map (λ entry. entry.value) (entry_in self.old) }
    {
        match self {
            Slot::Ended => unreachable!(),
            Slot::Kept(entry) => &mut entry.value,
        }
    }

    /// Whether an opening that checks the version may go on.
    pub(crate) fn check_version(&self) -> Result<(), DynamicStorageOpenError>
        requires { IsSome (entry_in self.now) }
        ensures { result_err result ≡ entry_refusal true (entry_in self.now) }
    {
        match self {
            Slot::Ended => unreachable!(),
            Slot::Kept(entry) => match entry.version {
                0 => Err(DynamicStorageOpenError::InitializationNotYetFinalized),
                FINISHED_VERSION => Ok(()),
                _ => Err(DynamicStorageOpenError::VersionMismatch),
            },
        }
    }

    /// Calls the initializer on the value that is there, and finishes the entry where it answers true.
    pub(crate) fn finish<F: FnMut(&mut T, &mut BumpAllocator) -> bool + Drop>(
        &mut self,
        alloc: Global,
        room: usize,
        initializer: F,
    ) -> bool
        requires there { IsSome (entry_in self.old) }
        requires callable { IfSome (entry_in self.old) (λ entry. MayInitialize F.FnMut initializer entry.value room) }
        requires room { room ≤ max_memory_size }
        ensures { Finishes F.FnMut initializer room self.old result self.new }
    {
        match self {
            Slot::Ended => unreachable!(),
            Slot::Kept(entry) => {
                let is_finished = initialize(alloc, &mut entry.value, room, initializer);
                if is_finished {
                    entry.version = FINISHED_VERSION;
                }
                is_finished
            }
        }
    }

    /// One holder more.
    pub(crate) fn hold(&mut self)
        ensures { self.new ≡ slot_with_holder self.old }
    {
        if let Slot::Kept(entry) = self {
            entry.holders = entry.holders.saturating_add(1);
        }
    }

    /// One holder less.
    pub(crate) fn let_go(&mut self)
        ensures { self.new ≡ slot_with_holder_less self.old }
    {
        if let Slot::Kept(entry) = self {
            if entry.holders != usize::MAX {
                entry.holders = entry.holders.saturating_sub(1);
            }
        }
    }

    /// Another version.
    pub(crate) fn set_version(&mut self, version: u64)
        ensures { self.new ≡ slot_with_version version self.old }
    {
        if let Slot::Kept(entry) = self {
            entry.version = version;
        }
    }
}

impl<T: Drop> Slot<T> {
    /// Ends the entry where neither a holder nor a name is left.
    pub(crate) fn end_if_left(&mut self, has_name: bool)
        ensures { self.new ≡ slot_if_used has_name self.old }
    {
        if let Slot::Kept(entry) = self {
            if !has_name && entry.holders == 0 {
                *self = Slot::Ended;
            }
        }
    }
}
