//! The strategies of growth. Ported from `shm_allocator/mod.rs` of iceoryx2-cal 0.9.3.
ghost use Rattle.std.specs.Prelude.{◌≡◌};
ghost use Rattle.cal_alloc.specs.declared.allocation_strategy.AllocationStrategy.TheVariants.{Static};

/// How memory grows once a request can't be served by the segment in use.
#[derive(Clone, Copy, Debug, PartialEq, Eq)]
pub enum AllocationStrategy {
    /// The next segment is just large enough for what is there and for the request.
    BestFit,
    /// The next segment's bucket size and number of buckets are raised to powers of two.
    PowerOfTwo,
    /// Memory never grows.
    Static,
}

// Written out, so that the contract says which one it is.
impl Default for AllocationStrategy {
    ghost is_default = { λ strategy. strategy ≡ Static };

    fn default() -> AllocationStrategy {
        AllocationStrategy::Static
    }
}
