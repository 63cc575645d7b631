//! How growing memories are found, listed and removed, by the names of their segments. Ported from
//! `resizable_shared_memory/dynamic.rs` of iceoryx2-cal 0.9.3.
ghost use Rattle.std.specs.Prelude.{◌≡◌, true, IfOk, IfErr, if◌then◌else◌};
ghost use Rattle.std.specs.List.{list_any, filter_map};
ghost use Rattle.std.specs.List.Sorted.{IsStrictlySortedBy};
ghost use Rattle.std.specs.Cmp.Lexicographic.{slice_cmp};
ghost use Rattle.std.specs.Ordering.{nat_cmp};
ghost use Rattle.std.specs.Map.{keys_of};
ghost use Rattle.cal_names.specs.NamedConceptMgmt.{is_name};
ghost use Rattle.cal_storage.specs.Holding.{KeepsHandles};
ghost use Rattle.cal_storage.specs.Managing.{goes_with};
ghost use Rattle.cal_storage.specs.Refusals.{after_name_removal};
ghost use Rattle.cal_resizable.specs.Management.{belongs_to, shown_memory, goes_with_memory, after_removals, paths_without, segment_names, after_memory_removal, shown_memory-goes};
ghost use Rattle.cal_resizable.specs.SegmentNames.{managed_name};

use crate::memory::DynamicMemory;
use crate::names::{
    extract_name_and_segment_id, extract_name_from_management_segment, management_segment_name,
};
use cal_alloc::ShmAllocator;
use cal_names::{
    FileName, NamedConceptDoesExistError, NamedConceptListError, NamedConceptMgmt,
    NamedConceptPathHintRemoveError, NamedConceptRemoveError, Path,
};
use cal_shm::{AllocatorDetails, SharedMemory};
use cal_storage::Registry;
use std::alloc::{AllocError, Global};

impl<A: ShmAllocator, Shm: SharedMemory<A>> NamedConceptMgmt for DynamicMemory<A, Shm> {
    type Configuration = Shm::Configuration;

    type Names = Registry<AllocatorDetails<A>>;

    ghost paths = { λ reg. keys_of reg.names };

    ghost shown_name = { shown_memory };

    ghost goes_with = { goes_with_memory };

    ghost removed = { after_memory_removal };

    ghost lists_first = { true };

    ghost KeepsOpen = { KeepsHandles };

    fn remove_cfg(
        alloc: Global,
        reg: &mut Registry<AllocatorDetails<A>>,
        name: &FileName,
        cfg: &Shm::Configuration,
    ) -> Result<bool, NamedConceptRemoveError> {
        match segments::<A, Shm>(alloc, reg, cfg) {
            Ok(listed) => Ok(remove_all::<A, Shm>(alloc, reg, listed.as_slice(), name, cfg)),
            Err(_) => Err(NamedConceptRemoveError::NoMemory),
        }
    }

    fn does_exist_cfg(
        reg: &Registry<AllocatorDetails<A>>,
        name: &FileName,
        cfg: &Shm::Configuration,
    ) -> Result<bool, NamedConceptDoesExistError> {
        let _bytes = name.as_bytes();
        match management_segment_name(name) {
            Some(segment) => has_segment::<A, Shm>(reg, &segment, cfg),
            None => Ok(false),
        }
    }

    fn list_cfg(
        alloc: Global,
        reg: &Registry<AllocatorDetails<A>>,
        cfg: &Shm::Configuration,
    ) -> Result<Vec<FileName>, NamedConceptListError> {
        let listed = match segments::<A, Shm>(alloc, reg, cfg) {
            Ok(listed) => listed,
            Err(error) => return Err(error),
        };
        match memories_of(alloc, listed.as_slice()) {
            Ok(memories) => Ok(memories),
            Err(_) => Err(NamedConceptListError::NoMemory),
        }
    }

    fn remove_path_hint(value: &Path) -> Result<(), NamedConceptPathHintRemoveError> {
        Shm::remove_path_hint(value)
    }

    ghost shown_goes = { shown_memory-goes };
}

/// The names of all segments, in the order of the bytes of their paths.
fn segments<A: ShmAllocator, Shm: SharedMemory<A>>(
    alloc: Global,
    reg: &Registry<AllocatorDetails<A>>,
    cfg: &Shm::Configuration,
) -> Result<Vec<FileName>, NamedConceptListError>
    ensures names { IfOk result (λ list.
        list.items ≡ segment_names (Shm.Configuration.settings cfg.now) reg.now) }
    ensures ordered { IsStrictlySortedBy (slice_cmp nat_cmp) (keys_of reg.now.names) }
    ensures no_memory { IfErr result (λ error. error ≡ NamedConceptListError.NoMemory) }
{
    Shm::list_cfg(alloc, reg, cfg)
}

/// Whether the segment of a name is there.
fn has_segment<A: ShmAllocator, Shm: SharedMemory<A>>(
    reg: &Registry<AllocatorDetails<A>>,
    segment: &FileName,
    cfg: &Shm::Configuration,
) -> Result<bool, NamedConceptDoesExistError>
    ensures found { result ≡ Ok (list_any (goes_with (Shm.Configuration.settings cfg.now) segment.now)
        (keys_of reg.now.names)) }
{
    Shm::does_exist_cfg(reg, segment, cfg)
}

/// The names of the memories whose management segments have these names.
fn memories_of(alloc: Global, segments: &[FileName]) -> Result<Vec<FileName>, AllocError>
    ensures names { IfOk result (λ list. list.items ≡ filter_map managed_name segments.now) }
{
    segments
        .iter()
        .filter_map(|segment| extract_name_from_management_segment(segment))
        .collect(alloc)
}

/// Removes each segment of a memory that is among those listed, and answers whether there is one.
fn remove_all<A: ShmAllocator, Shm: SharedMemory<A>>(
    alloc: Global,
    reg: &mut Registry<AllocatorDetails<A>>,
    listed: &[FileName],
    memory: &FileName,
    cfg: &Shm::Configuration,
) -> bool
    ensures found { result ≡ list_any (belongs_to memory.now) listed.now }
    ensures removed { reg.new
        ≡ after_removals (after_name_removal (Shm.Configuration.settings cfg.now)) memory.now listed.now reg.old }
    ensures gone { keys_of reg.new.names ≡ after_removals (paths_without (Shm.Configuration.settings cfg.now))
        memory.now listed.now (keys_of reg.old.names) }
    ensures keeps { KeepsHandles reg.old reg.new }
{
    let mut found = false;
    for segment in listed {
        found |= remove_own::<A, Shm>(alloc, reg, segment, memory, cfg);
    }
    found
}

/// Removes a segment where it is one of a memory, and answers whether it is.
fn remove_own<A: ShmAllocator, Shm: SharedMemory<A>>(
    alloc: Global,
    reg: &mut Registry<AllocatorDetails<A>>,
    segment: &FileName,
    memory: &FileName,
    cfg: &Shm::Configuration,
) -> bool
    ensures own { result ≡ belongs_to memory.now segment.now }
    ensures removed { reg.new ≡ (if belongs_to memory.now segment.now
        then after_name_removal (Shm.Configuration.settings cfg.now) segment.now reg.old else reg.old) }
    ensures gone { keys_of reg.new.names ≡ (if belongs_to memory.now segment.now
        then paths_without (Shm.Configuration.settings cfg.now) segment.now (keys_of reg.old.names)
        else keys_of reg.old.names) }
    ensures keeps { KeepsHandles reg.old reg.new }
{
    let belongs = belongs_to(segment, memory);
    if belongs {
        remove_one::<A, Shm>(alloc, reg, segment, cfg);
    }
    belongs
}

/// Removes the segment of a name. The segments' own removal lists nothing first, so it takes no memory.
fn remove_one<A: ShmAllocator, Shm: SharedMemory<A>>(
    alloc: Global,
    reg: &mut Registry<AllocatorDetails<A>>,
    segment: &FileName,
    cfg: &Shm::Configuration,
)
    ensures removed { reg.new ≡ after_name_removal (Shm.Configuration.settings cfg.now) segment.now reg.old }
    ensures gone { keys_of reg.new.names
        ≡ paths_without (Shm.Configuration.settings cfg.now) segment.now (keys_of reg.old.names) }
    ensures keeps { KeepsHandles reg.old reg.new }
{
    match Shm::remove_cfg(alloc, reg, segment, cfg) {
        Ok(_) => {}
        Err(_) => unreachable!(),
    }
}

/// Whether a segment's name is one of a memory.
fn belongs_to(segment: &FileName, memory: &FileName) -> bool
    ensures { result ≡ belongs_to memory.now segment.now }
{
    if is_name(extract_name_from_management_segment(segment), memory) {
        return true;
    }
    match extract_name_and_segment_id(segment) {
        Some((found, _)) => found == *memory,
        None => false,
    }
}

/// Whether there is a name, and it is this one.
fn is_name(found: Option<FileName>, name: &FileName) -> bool
    ensures { result ≡ is_name name.now found }
{
    match found {
        Some(found) => found == *name,
        None => false,
    }
}
