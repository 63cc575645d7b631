//! The segments that a growing memory or a view of one holds, by their numbers. The room for all of them is taken when
//! the slots are made.
ghost use Rattle.std.specs.Prelude.{◌≡◌, ◌<◌, ◌^◌, ◌-◌, ◌+◌, Some, None, IsSome, IsSomeAnd, is_some, length, replicate, IfOk};
ghost use Rattle.std.specs.Option.{option_map};
ghost use Rattle.cal_storage.specs.Contents.{Has};
ghost use Rattle.cal_resizable.specs.Slots.{Handle, AreApart, IsSpared, LeavesHandle, SparesHandles, without_unused, after_retiring, empty_slots, segment_at, number_held, with_more, with_less, with_segment, without_segment};

use cal_alloc::ShmAllocator;
use cal_shm::{AllocatorDetails, SharedMemory};
use cal_storage::Registry;
use std::alloc::{AllocError, Global};
use std::marker::{Model, PhantomData};

/// As many segments as there are numbers for them.
pub(crate) const NUMBER_OF_SLOTS: usize = 256;

/// A segment that is held.
#[derive(Debug, Drop)]
pub(crate) struct CountedSegment<Shm> {
    /// The segment.
    segment: Shm,
    /// How often it is counted: the chunks that are out, or the offsets that are registered.
    count: usize,
}

/// A slot for each segment that there can be. Contracts see the handle and the count of each that is held.
#[derive(Debug, Drop)]
pub(crate) struct SegmentSlots<A: ShmAllocator, Shm: SharedMemory<A>> {
    /// The slots by the numbers of the segments, 256 of them.
    slots: Vec<Option<CountedSegment<Shm>>>,
    /// How many slots hold a segment.
    held: usize,
    /// The allocator of the segments.
    of: PhantomData<A>,
}

impl<A: ShmAllocator, Shm: SharedMemory<A>> Model for SegmentSlots<A, Shm> {
    ghost use Rattle.std.specs.Prelude.{◌≡◌, map, length};
    ghost use Rattle.std.specs.Option.{option_map};
    ghost use Rattle.cal_resizable.specs.Slots.{Slots, number_held};

    ghost Value = { Slots };

    ghost view = { λ s. map (option_map (λ counted. record {
      handle = Shm.handle counted.segment;
      count = counted.count;
    })) s.slots.items };

    ghost invariant = { λ s. (length s.slots.items ≡ 256) × (s.held ≡ number_held (map (option_map (λ counted. record {
      handle = Shm.handle counted.segment;
      count = counted.count;
    })) s.slots.items)) };
}

impl<A: ShmAllocator, Shm: SharedMemory<A>> SegmentSlots<A, Shm> {
    /// Slots of which none holds a segment. The error says that memory ran out.
    pub(crate) fn new(alloc: Global) -> Result<Self, AllocError>
        ensures empty { IfOk result (λ slots. slots ≡ empty_slots 256) }
    {
        Ok(SegmentSlots {
            slots: no_segments(alloc)?,
            held: 0,
            of: PhantomData,
        })
    }

    /// The number of segments that are held.
    pub(crate) fn len(&self) -> usize
        ensures held { result ≡ number_held self.now }
        ensures slots { length self.now ≡ 256 }
    {
        let _slots = &self.slots;
        self.held
    }

    /// Whether the segment of a number is held.
    pub(crate) fn is_held(&self, number: u8) -> bool
        ensures held { result ≡ is_some (segment_at self.now number) }
    {
        self.slots[number as usize].is_some()
    }

    /// The segment of a number.
    pub(crate) fn segment(&self, number: u8) -> &Shm
        requires { IsSome (segment_at self.now number) }
        ensures handle { option_map (λ held. held.handle) (segment_at self.now number) ≡ Some (Shm.handle result.now) }
    {
        match &self.slots[number as usize] {
            Some(counted) => &counted.segment,
            None => unreachable!(),
        }
    }

    /// How often the segment of a number is counted.
    pub(crate) fn count(&self, number: u8) -> usize
        requires { IsSome (segment_at self.now number) }
        ensures count { option_map (λ held. held.count) (segment_at self.now number) ≡ Some result }
    {
        match &self.slots[number as usize] {
            Some(counted) => counted.count,
            None => unreachable!(),
        }
    }

    /// Counts the segment of a number once more.
    pub(crate) fn count_more(&mut self, number: u8)
        requires { IsSomeAnd (segment_at self.old number) (λ held. held.count < 2 ^ 64 - 1) }
        ensures counted { self.new ≡ with_more self.old number }
    {
        match &mut self.slots[number as usize] {
            Some(counted) => counted.count += 1,
            None => unreachable!(),
        }
    }

    /// Counts the segment of a number once less.
    pub(crate) fn count_less(&mut self, number: u8)
        requires { IsSomeAnd (segment_at self.old number) (λ held. 0 < held.count) }
        ensures counted { self.new ≡ with_less self.old number }
    {
        match &mut self.slots[number as usize] {
            Some(counted) => counted.count -= 1,
            None => unreachable!(),
        }
    }

    /// Holds a segment under a number that has none.
    pub(crate) fn insert(&mut self, number: u8, segment: Shm)
        requires { segment_at self.old number ≡ None }
        ensures held { self.new ≡ with_segment self.old number (Shm.handle segment) }
    {
        self.slots[number as usize] = Some(CountedSegment { segment, count: 0 });
        self.held += 1;
    }

    /// Gives up the segment of a number.
    pub(crate) fn remove(&mut self, number: u8) -> Shm
        requires { IsSome (segment_at self.old number) }
        ensures handle { option_map (λ held. held.handle) (segment_at self.old number) ≡ Some (Shm.handle result) }
        ensures removed { self.new ≡ without_segment self.old number }
    {
        match self.slots[number as usize].take() {
            Some(counted) => {
                self.held -= 1;
                counted.segment
            }
            None => unreachable!(),
        }
    }

    /// Closes the segment of a number where it isn't counted, and gives it up then.
    pub(crate) fn retire_unused(&mut self, reg: &mut Registry<AllocatorDetails<A>>, number: u8)
        requires { IsSomeAnd (segment_at self.old number) (λ held. Has reg.old held.handle) }
        ensures slots { self.new ≡ without_unused self.old number }
        ensures registry { reg.new ≡ after_retiring reg.old (segment_at self.old number) }
        ensures leaves { (handle : Handle) → IsSpared (segment_at self.old number) handle →
            LeavesHandle reg.old reg.new handle }
        ensures spares { AreApart self.old → SparesHandles reg.old reg.new self.old self.new }
    {
        if self.count(number) == 0 {
            self.remove(number).close(reg);
        }
    }
}

/// Empty slots, for all segments that there can be.
fn no_segments<Shm: Drop>(alloc: Global) -> Result<Vec<Option<CountedSegment<Shm>>>, AllocError>
    ensures { IfOk result (λ slots. slots.items ≡ replicate 256 None) }
{
    let mut slots = Vec::with_capacity(alloc, NUMBER_OF_SLOTS)?;
    for number in 0..NUMBER_OF_SLOTS {
        slots.push(None)?;
    }
    Ok(slots)
}
