//! A view of a growing memory: it opens a segment when the first offset of it arrives, and closes it when the last one
//! was given back.
//!
//! Ported from `resizable_shared_memory/dynamic.rs` of iceoryx2-cal 0.9.3.
ghost use Rattle.std.specs.Prelude.{◌≡◌, ◌≢◌, ℕ, ◌<◌, ◌-◌, ◌^◌, ◌+◌, ◌==◌, false, Option, Some, None, IsSome, IsSomeAnd, is_some, IfSome, IfOk, IfErr, OnOk, OnErr, List, [], ◌∷◌, slice_range, if◌then◌else◌};
ghost use Rattle.std.specs.Result.{result_err};
ghost use Rattle.cal_alloc.specs.PointerOffset.{offset_of, segment_of};
ghost use Rattle.cal_shm.specs.Calls.{OfValue, IsInPayload};
ghost use Rattle.cal_shm.specs.Refusals.{open_refusal};
ghost use Rattle.cal_storage.specs.Contents.{Has, id_at, found_handle, after_opening};
ghost use Rattle.cal_storage.specs.Holding.{Holds, KeepsHandles};
ghost use Rattle.cal_storage.specs.Refusals.{is_too_long};
ghost use Rattle.cal_storage.specs.Soundness.{IsSound};
ghost use Rattle.cal_names.specs.ConceptSettings.{file_path_for};
ghost use Rattle.cal_names.specs.FileName.{IsFileName};
ghost use Rattle.cal_resizable.specs.Closing.{held_handles, AreElsewhere, after_closing, LeavesAllSharers};
ghost use Rattle.cal_resizable.specs.Slots.{empty_slots, Handle, HeldSegment, AreApart, IsSpared, LeavesHandle, SparesHandles, segment_at, number_held};
ghost use Rattle.cal_resizable.specs.View.{View, IsView, HasView, management_name, new_view, segment_plan, segment_path, mapping, after_mapping, registering, SparesOthers, without_unused_of, after_retiring_of, leaving_of, unregistering, view_after_arrival, registry_after_arrival, registry_after_return, arrival_refusal, mapped_bytes};

use crate::closing::close_all;
use crate::names::segment_name;
use crate::place::Place;
use crate::slots::SegmentSlots;
use cal_alloc::{PointerOffset, SegmentId, ShmAllocator};
use cal_names::{FileName, NamedConceptBuilder};
use cal_shm::{AllocatorDetails, SharedMemory, SharedMemoryBuilder, SharedMemoryOpenError};
use cal_storage::{AccessMode, Registry};
use std::marker::Model;

/// A view of a growing memory. Contracts see what it holds as one record.
#[derive(Debug, Drop)]
pub struct DynamicView<A: ShmAllocator, Shm: SharedMemory<A>> {
    /// The name of the memory; with `__mgmt` behind it, it is a file name.
    name: FileName,
    /// What makes the paths of the segments' names.
    config: Shm::Configuration,
    /// How segments are opened.
    access_mode: AccessMode,
    /// The management segment, which the view opened and doesn't own.
    management: Shm,
    /// The number of the segment that was mapped last; it is mapped.
    current: Option<u8>,
    /// The mapped segments by their numbers, each with the number of offsets that are registered in it: the current
    /// one, and those with an offset.
    segments: SegmentSlots<A, Shm>,
}

impl<A: ShmAllocator, Shm: SharedMemory<A>> Model for DynamicView<A, Shm> {
    ghost use Rattle.cal_resizable.specs.View.{View, IsView};

    ghost Value = { View };

    ghost view = { λ v. record {
      name = v.name;
      settings = Shm.Configuration.settings v.config;
      management = Shm.handle v.management;
      current = v.current;
      slots = v.segments;
    } };

    ghost invariant = { λ v. IsView (record {
      name = v.name;
      settings = Shm.Configuration.settings v.config;
      management = Shm.handle v.management;
      current = v.current;
      slots = v.segments;
    }) };
}

impl<A: ShmAllocator, Shm: SharedMemory<A>> DynamicView<A, Shm> {
    /// A view of the memory of this name that maps no segment yet, over its management segment.
    pub(crate) fn new(
        name: FileName,
        config: Shm::Configuration,
        access_mode: AccessMode,
        management: Shm,
        segments: SegmentSlots<A, Shm>,
    ) -> Self
        requires managed { IsFileName (management_name name) }
        requires fits { is_too_long (Shm.Configuration.settings config) (management_name name) ≡ false }
        requires handle { Shm.handle management ≡ found_handle
            (file_path_for (Shm.Configuration.settings config) (management_name name)) (Shm.handle management).id }
        requires empty { segments ≡ empty_slots 256 }
        ensures view { result ≡ new_view (record { name = name; settings = Shm.Configuration.settings config })
            (Shm.handle management).id }
        ensures handle { result.management ≡ Shm.handle management }
    {
        let _bytes = name.as_bytes();
        DynamicView {
            name,
            config,
            access_mode,
            management,
            current: None,
            segments,
        }
    }

    /// Closes the management segment, and then each mapped segment in the order of their numbers. Every handle on
    /// another entry is left, and of the holders of a segment one is lost.
    pub fn close(self, reg: &mut Registry<AllocatorDetails<A>>)
        requires there { HasView reg.old self }
        ensures closed { reg.new ≡ after_closing reg.old (self.management ∷ held_handles self.slots) }
        ensures leaves { (handle : Handle) → AreElsewhere handle (self.management ∷ held_handles self.slots) →
            LeavesHandle reg.old reg.new handle }
        ensures sharers { LeavesAllSharers reg.old reg.new }
    {
        let DynamicView {
            name: _,
            config: _,
            access_mode: _,
            management,
            current: _,
            segments,
        } = self;
        management.close(reg);
        close_all(segments, reg);
    }

    /// An offset has arrived: it is registered in its segment, which is opened first where it isn't mapped. A segment
    /// that is opened becomes the current one, even where its number is smaller, and the former current one is unmapped
    /// where no offset is registered in it. After an error the view and the registry are as before. Takes no memory.
    pub fn register_and_translate_offset(
        &mut self,
        reg: &mut Registry<AllocatorDetails<A>>,
        offset: PointerOffset,
    ) -> Result<Place, SharedMemoryOpenError>
        requires there { HasView reg.old self.old }
        requires room { (held : HeldSegment) → segment_at self.old.slots (segment_of offset) ≡ Some held →
            held.count < 2 ^ 64 - 1 }
        ensures refused { result_err result
            ≡ arrival_refusal Shm.checks_version reg.old self.old (segment_of offset) }
        ensures place { IfOk result (λ place.
            place ≡ record { segment = segment_of offset; position = offset_of offset }) }
        ensures view { OnOk result (self.new ≡ view_after_arrival reg.old self.old (segment_of offset)) }
        ensures registry { OnOk result (reg.new ≡ registry_after_arrival reg.old self.old (segment_of offset)) }
        ensures has { HasView reg.new self.new }
        ensures spares { SparesOthers reg.old reg.new self.old self.new }
        ensures unchanged { OnErr result ((reg.new ≡ reg.old) × (self.new ≡ self.old)) }
    {
        let number = offset.segment_id().value();
        if !self.segments.is_held(number) {
            if let Err(error) = self.map_segment(reg, number) {
                return Err(error);
            }
        }
        self.segments.count_more(number);
        Ok(Place {
            segment: number,
            position: offset.offset(),
        })
    }

    /// An offset is given back that was registered. Its segment is unmapped where that was the last one, unless it is
    /// the current one.
    pub fn unregister_offset(
        &mut self,
        offset: PointerOffset,
        reg: &mut Registry<AllocatorDetails<A>>,
    )
        requires there { HasView reg.old self.old }
        requires registered { IsSomeAnd (segment_at self.old.slots (segment_of offset)) (λ held. 0 < held.count) }
        ensures view { self.new ≡ unregistering self.old (segment_of offset) }
        ensures registry { reg.new ≡ registry_after_return reg.old self.old (segment_of offset) }
        ensures has { HasView reg.new self.new }
        ensures spares { SparesOthers reg.old reg.new self.old self.new }
    {
        let number = offset.segment_id().value();
        self.segments.count_less(number);
        let leaving = leaving_of(self.current, number);
        retire_one(&mut self.segments, leaving, reg);
    }

    /// The number of segments that are mapped: the current one, and those in which an offset is registered.
    pub fn number_of_active_segments(&self) -> usize
        ensures mapped { result ≡ number_held self.now.slots }
        ensures view { IsView self.now }
    {
        let _current = &self.current;
        self.segments.len()
    }

    /// That many bytes of a mapped segment, from an offset on.
    pub fn bytes<'r>(
        &self,
        reg: &'r Registry<AllocatorDetails<A>>,
        offset: PointerOffset,
        count: usize,
    ) -> &'r [u8]
        requires there { HasView reg.now self.now }
        requires mapped { IsSome (segment_at self.now.slots (segment_of offset)) }
        requires within { (held : HeldSegment) → segment_at self.now.slots (segment_of offset) ≡ Some held →
            OfValue reg.now held.handle.id (λ segment. IsInPayload segment.payload (offset_of offset) count) }
        ensures bytes { (held : HeldSegment) → segment_at self.now.slots (segment_of offset) ≡ Some held →
            OfValue reg.now held.handle.id (λ segment.
            result.now ≡ slice_range segment.payload (offset_of offset) (offset_of offset + count)) }
        ensures read { mapped_bytes reg.now self.now offset count ≡ Some result.now }
    {
        let segment = self.segments.segment(offset.segment_id().value());
        segment.bytes(reg, offset, count)
    }

    /// Opens the segment of a number by its name.
    fn open_segment(
        &self,
        reg: &mut Registry<AllocatorDetails<A>>,
        number: u8,
    ) -> Result<Shm, SharedMemoryOpenError>
        ensures refused { result_err result ≡ open_refusal Shm.checks_version reg.old (segment_plan self.now number) }
        ensures found { IfOk result (λ segment.
            id_at reg.old (segment_path self.now number) ≡ Some (Shm.handle segment).id) }
        ensures handle { IfOk result (λ segment.
            Shm.handle segment ≡ found_handle (segment_path self.now number) (Shm.handle segment).id) }
        ensures opened { IfOk result (λ segment. reg.new ≡ after_opening reg.old (Shm.handle segment).id) }
        ensures sound { OnOk result (IsSound reg.old) }
        ensures unchanged { OnErr result (reg.new ≡ reg.old) }
    {
        let name = segment_name(&self.name, SegmentId::new(number)).unwrap();
        Shm::Builder::new(&name)
            .config(&self.config)
            .open(reg, self.access_mode)
    }

    /// Maps the segment of a number, which isn't mapped. It is the current one then, and the former current one is
    /// unmapped where no offset is registered in it.
    fn map_segment(
        &mut self,
        reg: &mut Registry<AllocatorDetails<A>>,
        number: u8,
    ) -> Result<(), SharedMemoryOpenError>
        requires there { HasView reg.old self.old }
        requires unmapped { segment_at self.old.slots number ≡ None }
        ensures refused { result_err result ≡ open_refusal Shm.checks_version reg.old (segment_plan self.old number) }
        ensures view { OnOk result (self.new ≡ mapping self.old number (id_at reg.old (segment_path self.old number))) }
        ensures registry { OnOk result
            (reg.new ≡ after_mapping reg.old self.old number (id_at reg.old (segment_path self.old number))) }
        ensures has { HasView reg.new self.new }
        ensures spares { SparesOthers reg.old reg.new self.old self.new }
        ensures unchanged { OnErr result ((reg.new ≡ reg.old) × (self.new ≡ self.old)) }
    {
        let segment = match self.open_segment(reg, number) {
            Ok(segment) => segment,
            Err(error) => return Err(error),
        };
        self.segments.insert(number, segment);
        retire_one(&mut self.segments, self.current, reg);
        self.current = Some(number);
        Ok(())
    }
}

/// Closes the segment of a number, if one is given, where it isn't counted, and gives it up then.
fn retire_one<A: ShmAllocator, Shm: SharedMemory<A>>(
    segments: &mut SegmentSlots<A, Shm>,
    number: Option<u8>,
    reg: &mut Registry<AllocatorDetails<A>>,
)
    requires { (n : ℕ) → number ≡ Some n → IsSomeAnd (segment_at segments.old n) (λ held. Has reg.old held.handle) }
    ensures slots { segments.new ≡ without_unused_of segments.old number }
    ensures registry { reg.new ≡ after_retiring_of reg.old segments.old number }
    ensures leaves { (handle : Handle) →
        ((n : ℕ) → number ≡ Some n → IsSpared (segment_at segments.old n) handle) →
        LeavesHandle reg.old reg.new handle }
    ensures spares { AreApart segments.old → SparesHandles reg.old reg.new segments.old segments.new }
{
    if let Some(number) = number {
        segments.retire_unused(reg, number);
    }
}

/// Which segment is unmapped where the last offset of the segment of a number is given back: this one, unless it is the
/// current one.
fn leaving_of(current: Option<u8>, number: u8) -> Option<u8>
    ensures { result ≡ leaving_of current number }
{
    if let Some(current) = current {
        if current == number {
            return None;
        }
    }
    Some(number)
}
