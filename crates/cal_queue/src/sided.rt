//! What a ring's two ends know of it, for the proofs alone: a view says which of the two sides is in one's hands, and
//! has the pass of each. Both rings of a channel stand on it: a ring is made with both sides in one hand, these are
//! split over two threads, and are joined again at the end.
ghost use Rattle.std.specs.Prelude.{true, false};

use atomic_table::Split;

/// No value of it is made. A view with no flag is spent, and nothing is said of its passes.
pub struct Sided<P, Q> {
    // Whether the writing side is in hand; only then does `writer` count.
    pub writes: bool,
    // Whether the reading side is in hand; only then does `reader` count.
    pub reads: bool,
    // The pass of the writing side.
    pub writer: P,
    // The pass of the reading side.
    pub reader: Q,
}

/// The writing side stays, and the reading side goes to a seat of its own.
pub struct Parting;

impl<P, Q> Split<Sided<P, Q>> for Parting {
    ghost left = { λ v. record v { reads = false } };

    ghost right = { λ v. record v { writes = false } };
}
