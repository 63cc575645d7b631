//! How a strategy raises sizes and counts.

ghost use Rattle.std.specs.Prelude.{◌<◌, ◌≡◌, ◌^◌, SomeIff};
ghost use Rattle.cal_alloc.specs.Growth.{least_power_of_two, raised_count, raised_size};

use crate::allocation_strategy::AllocationStrategy;

/// The greatest power of two that a `usize` holds.
const GREATEST_POWER_OF_TWO: usize = 1 << 63;

/// The least power of two that is that number or more; `None` where it would be 2^64.
pub(crate) fn least_power_of_two(n: usize) -> Option<usize>
    ensures value { SomeIff result (least_power_of_two n < 2 ^ 64) (least_power_of_two n) }
{
    if n <= GREATEST_POWER_OF_TWO {
        Some(n.next_power_of_two())
    } else {
        None
    }
}

/// A number of buckets, raised where all of them are used.
pub(crate) fn raised_count(strategy: AllocationStrategy, count: u32) -> usize
    ensures value { result ≡ raised_count strategy count }
{
    let count = count as usize;
    match strategy {
        AllocationStrategy::BestFit => count + 1,
        AllocationStrategy::PowerOfTwo => (count + 1).next_power_of_two(),
        AllocationStrategy::Static => count,
    }
}

/// A bucket size, raised to a size that is a multiple of the alignment; `None` from 2^64 on.
pub(crate) fn raised_size(
    strategy: AllocationStrategy,
    size: usize,
    alignment: usize,
) -> Option<usize>
    requires positive { 0 < alignment }
    ensures value { let raised = raised_size strategy size alignment in
        SomeIff result (raised < 2 ^ 64) raised }
{
    match strategy {
        AllocationStrategy::BestFit => size.checked_next_multiple_of(alignment),
        AllocationStrategy::PowerOfTwo => {
            least_power_of_two(size)?.checked_next_multiple_of(alignment)
        }
        AllocationStrategy::Static => Some(size),
    }
}
