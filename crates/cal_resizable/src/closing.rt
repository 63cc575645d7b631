//! How the segments of a memory or a view close.
ghost use Rattle.std.specs.Prelude.{◌≡◌, ℕ, ◌+◌, ◌<◌, None};
ghost use Rattle.cal_resizable.specs.Closing.{held_handles, after_closing, CanClose};
ghost use Rattle.cal_resizable.specs.Slots.{segment_at};

use crate::slots::{NUMBER_OF_SLOTS, SegmentSlots};
use cal_alloc::ShmAllocator;
use cal_shm::{AllocatorDetails, SharedMemory};
use cal_storage::Registry;

/// Closes each segment that is held, in the order of their numbers.
pub(crate) fn close_all<A: ShmAllocator, Shm: SharedMemory<A>>(
    segments: SegmentSlots<A, Shm>,
    reg: &mut Registry<AllocatorDetails<A>>,
)
    requires { CanClose reg.old (held_handles segments) }
    ensures closed { reg.new ≡ after_closing reg.old (held_handles segments) }
{
    let mut segments = segments;
    for number in 0..NUMBER_OF_SLOTS {
        close_one(&mut segments, number as u8, reg);
    }
    let _all = segments.len();
}

/// Closes the segment of a number, if it is held, and gives it up.
fn close_one<A: ShmAllocator, Shm: SharedMemory<A>>(
    segments: &mut SegmentSlots<A, Shm>,
    number: u8,
    reg: &mut Registry<AllocatorDetails<A>>,
)
    requires can { CanClose reg.old (held_handles segments.old) }
    requires first { (k : ℕ) → k < number → segment_at segments.old k ≡ None }
    ensures same { after_closing reg.new (held_handles segments.new)
        ≡ after_closing reg.old (held_handles segments.old) }
    ensures can { CanClose reg.new (held_handles segments.new) }
    ensures gone { (k : ℕ) → k < number + 1 → segment_at segments.new k ≡ None }
{
    if segments.is_held(number) {
        segments.remove(number).close(reg);
    }
}
