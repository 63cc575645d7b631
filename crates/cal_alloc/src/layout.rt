ghost use Rattle.std.specs.Prelude.{◌≡◌, IsTrue, SomeIff};
ghost use Rattle.std.specs.Int.{is_power_of_two};

use std::marker::Model;

/// The size of a chunk in bytes and the alignment of its first byte. The alignment is a power of two; the size is free,
/// zero included, and needn't be a multiple of the alignment.
#[derive(Clone, Copy, PartialEq, Eq, Debug)]
pub struct Layout {
    /// The size in bytes.
    size: usize,
    /// The alignment in bytes, a power of two.
    alignment: usize,
}

impl Model for Layout {
    ghost use Rattle.std.specs.Prelude.{IsTrue};
    ghost use Rattle.std.specs.Int.{is_power_of_two};
    ghost use Rattle.cal_alloc.specs.SizeAndAlignment.{SizeAndAlignment};

    ghost Value = { SizeAndAlignment };

    ghost view = { λ l. record { size = l.size; alignment = l.alignment } };

    ghost invariant = { λ l. IsTrue (is_power_of_two l.alignment) };

    ghost inverse = { λ l. record { size = l.size; alignment = l.alignment } };
}

impl Layout {
    /// A layout of a size in bytes and an alignment; `None` where the alignment is no power of two.
    pub fn new(size: usize, alignment: usize) -> Option<Layout>
        ensures value { SomeIff result (IsTrue (is_power_of_two alignment))
            (record { size = size; alignment = alignment }) }
    {
        if alignment.is_power_of_two() {
            Some(Layout { size, alignment })
        } else {
            None
        }
    }

    /// The size in bytes.
    pub fn size(&self) -> usize
        ensures value { result ≡ self.now.size }
    {
        self.size
    }

    /// The alignment, a power of two.
    pub fn align(&self) -> usize
        ensures value { result ≡ self.now.alignment }
        ensures power { IsTrue (is_power_of_two result) }
    {
        self.alignment
    }
}
