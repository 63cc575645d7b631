//! Bytes of a bounded number, held in place and copied as a whole: what every name is made of.
//! Contracts see the list of the bytes. The bytes after them are zeros, so that equal lists are equal
//! values.
ghost use Rattle.std.specs.Prelude.{◌≡◌, ◌+◌, ◌<◌, ◌≤◌, [], ◌∷◌, ◌++◌, length, take, Some, nat_eq, refl};
ghost use Rattle.std.specs.Ordering.{nat_cmp};
ghost use Rattle.std.specs.Cmp.{partial_equiv_from_equiv};
ghost use Rattle.std.specs.Cmp.Lexicographic.{pointwise, slice_cmp, nat_list_eq_equiv, nat_list_cmp_total, texts_po, texts_ties};
ghost use Rattle.cal_names.specs.BoundedBytes.{IsZeroFrom};

use std::cmp::Ordering;
use std::fmt;
use std::marker::Model;

/// Up to `LIMIT` bytes.
#[derive(Clone, Copy)]
pub(crate) struct BoundedBytes<const LIMIT: usize> {
    /// How many bytes there are, at most `LIMIT`.
    len: usize,
    /// The bytes, and zeros from `len` on.
    bytes: [u8; LIMIT],
}

impl<const LIMIT: usize> Model for BoundedBytes<LIMIT> {
    ghost use Rattle.std.specs.Prelude.{◌≡◌, ◌≤◌, ℕ, List, length, take};
    ghost use Rattle.std.proofs.Common.{arith, length-take-le};
    ghost use Rattle.cal_names.specs.BoundedBytes.{padded, IsZeroFrom, padded-take};

    ghost Value = { List ℕ };

    ghost view = { λ a. take a.len a.bytes };

    ghost invariant = { λ a. (a.len ≤ LIMIT) × (length a.bytes ≡ LIMIT) × IsZeroFrom a.len a.bytes };

    ghost inverse = { λ v. record { len = length v; bytes = padded LIMIT v } };

    ghost inverse_ok = { λ a h i. record {
      len = length-take-le a.len a.bytes (omega (arith, h.0, h.1)) i;
      bytes = padded-take LIMIT a.len a.bytes h.0 h.1 h.2 i;
    } };
}

impl<const LIMIT: usize> BoundedBytes<LIMIT> {
    /// The bytes of `value`.
    pub(crate) fn new(value: &[u8]) -> Self
        requires { length value.now ≤ LIMIT }
        ensures { result ≡ value.now }
    {
        BoundedBytes {
            len: value.len(),
            bytes: padded(value),
        }
    }

    /// Puts the bytes of `more` after those that are there.
    pub(crate) fn append(&mut self, more: &[u8])
        requires { length self.old + length more.now ≤ LIMIT }
        ensures { self.new ≡ self.old ++ more.now }
    {
        for byte in more {
            self.push(*byte);
        }
    }

    fn push(&mut self, byte: u8)
        requires { length self.old < LIMIT }
        ensures { self.new ≡ self.old ++ byte ∷ [] }
    {
        self.bytes[self.len] = byte;
        self.len += 1;
    }

    pub(crate) fn as_bytes(&self) -> &[u8]
        ensures bytes { result.now ≡ self.now }
        ensures fits { length self.now ≤ LIMIT }
    {
        &self.bytes[..self.len]
    }
}

impl<const LIMIT: usize> PartialEq for BoundedBytes<LIMIT> {
    ghost eq = { pointwise nat_eq };

    ghost laws = { partial_equiv_from_equiv nat_list_eq_equiv };

    fn eq(&self, other: &Self) -> bool {
        self.as_bytes() == other.as_bytes()
    }
}

impl<const LIMIT: usize> Eq for BoundedBytes<LIMIT> {
    ghost laws = { nat_list_eq_equiv };
}

impl<const LIMIT: usize> PartialOrd for BoundedBytes<LIMIT> {
    ghost partial_cmp = { λ a b. Some (slice_cmp nat_cmp a b) };

    ghost laws = { texts_po };

    fn partial_cmp(&self, other: &Self) -> Option<Ordering> {
        Some(self.cmp(other))
    }
}

impl<const LIMIT: usize> Ord for BoundedBytes<LIMIT> {
    ghost cmp = { slice_cmp nat_cmp };

    ghost total = { nat_list_cmp_total };

    ghost matches_partial_cmp = { λ a b. refl };

    ghost matches_eq = { texts_ties };

    fn cmp(&self, other: &Self) -> Ordering {
        self.as_bytes().cmp(other.as_bytes())
    }
}

/// The bytes as a text, with escapes for those that can't be printed.
impl<const LIMIT: usize> fmt::Debug for BoundedBytes<LIMIT> {
    fn fmt<W: fmt::Write>(&self, f: &mut fmt::Formatter<W>) -> fmt::Result {
        write!(f, "\"{}\"", self.as_bytes().escape_ascii())
    }
}

/// The bytes of `value`, with zeros after them.
fn padded<const LIMIT: usize>(value: &[u8]) -> [u8; LIMIT]
    requires { length value.now ≤ LIMIT }
    ensures length { length result ≡ LIMIT }
    ensures front { take (length value.now) result ≡ value.now }
    ensures zeros { IsZeroFrom (length value.now) result }
{
    let mut bytes = [0; LIMIT];
    for (index, byte) in value.iter().enumerate() {
        bytes[index] = *byte;
    }
    bytes
}
