//! The call of an initializer.
ghost use Rattle.cal_storage.specs.Initializer.{MayInitialize, Initializes, fresh_allocator};
ghost use Rattle.cal_alloc.specs.Limits.{max_memory_size};
ghost use Rattle.std.specs.Prelude.{◌≡◌, ◌≤◌, ◌^◌};

use cal_alloc::bump_allocator::Config;
use cal_alloc::{BumpAllocator, MAX_MEMORY_ALIGNMENT, ShmAllocator};
use std::alloc::Global;

/// Calls an initializer on a value and a new allocator over that much room, in bytes, and answers what it answered.
pub(crate) fn initialize<T, F: FnMut(&mut T, &mut BumpAllocator) -> bool + Drop>(
    alloc: Global,
    value: &mut T,
    room: usize,
    mut initializer: F,
) -> bool
    requires callable { MayInitialize F.FnMut initializer value.old room }
    requires room { room ≤ max_memory_size }
    ensures { Initializes F.FnMut initializer value.old room value.new result }
{
    let mut allocator = fresh_allocator(alloc, room);
    initializer(value, &mut allocator)
}

/// A bump allocator over that much room, ready to serve.
fn fresh_allocator(alloc: Global, room: usize) -> BumpAllocator
    requires { room ≤ max_memory_size }
    ensures { result ≡ fresh_allocator room }
{
    let mut allocator = BumpAllocator::new_uninit(MAX_MEMORY_ALIGNMENT, room, &Config {});
    allocator.init(alloc).unwrap();
    allocator
}
