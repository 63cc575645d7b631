//! The used list whose capacity is part of its type. It takes no memory beside its own place, and
//! the layer above may rely on what it may rely on with any used list.
//!
//! Ported from `zero_copy_connection/used_chunk_list.rs` of iceoryx2-cal 0.9.3.
ghost use Rattle.std.specs.Prelude.{◌≡◌, ◌<◌, not};
ghost use Rattle.cal_queue.specs.Callback.{MayRunOver, RunsOver};
ghost use Rattle.cal_queue.specs.UsedChunks.{capacity_of, contains, members, none_used, after_insertion, after_removal};

use crate::marks::clear_marks;
use std::marker::Model;
use std::mem;

/// A set of the numbers below `CAPACITY` that takes no memory beside its own place.
#[derive(Debug, Drop)]
pub struct FixedSizeUsedChunkList<const CAPACITY: usize> {
    /// A mark for each number, true where it is a member.
    marks: [bool; CAPACITY],
}

impl<const CAPACITY: usize> Model for FixedSizeUsedChunkList<CAPACITY> {
    ghost use Rattle.std.specs.Prelude.{◌≡◌, length};
    ghost use Rattle.cal_queue.specs.UsedChunks.{UsedChunks};

    ghost Value = { UsedChunks };

    ghost view = { λ list. record { marks = list.marks } };

    ghost invariant = { λ list. length list.marks ≡ CAPACITY };
}

impl<const CAPACITY: usize> Default for FixedSizeUsedChunkList<CAPACITY> {
    ghost is_default = { λ list. list ≡ none_used CAPACITY };

    fn default() -> Self {
        Self::new()
    }
}

impl<const CAPACITY: usize> FixedSizeUsedChunkList<CAPACITY> {
    /// The empty set.
    pub fn new() -> Self
        ensures empty { result ≡ none_used CAPACITY }
    {
        FixedSizeUsedChunkList {
            marks: [false; CAPACITY],
        }
    }

    /// The number that all members are below.
    pub const fn capacity(&self) -> usize
        ensures capacity { result ≡ CAPACITY }
        ensures whole { capacity_of self.now ≡ CAPACITY }
    {
        let marks: &[bool] = &self.marks;
        marks.len()
    }

    /// Whether a number is a member.
    pub fn contains(&self, value: usize) -> bool
        requires below { value < CAPACITY }
        ensures member { result ≡ contains self.now value }
        ensures whole { capacity_of self.now ≡ CAPACITY }
    {
        self.marks[value]
    }

    /// Makes a number a member, and answers whether it was none before.
    pub fn insert(&mut self, value: usize) -> bool
        requires below { value < CAPACITY }
        ensures was_absent { result ≡ not (contains self.old value) }
        ensures now_present { self.new ≡ after_insertion self.old value }
        ensures whole { capacity_of self.new ≡ CAPACITY }
    {
        !mem::replace(&mut self.marks[value], true)
    }

    /// Takes a number out, and answers whether it was a member before.
    pub fn remove(&mut self, value: usize) -> bool
        requires below { value < CAPACITY }
        ensures was_present { result ≡ contains self.old value }
        ensures now_absent { self.new ≡ after_removal self.old value }
        ensures whole { capacity_of self.new ≡ CAPACITY }
    {
        mem::replace(&mut self.marks[value], false)
    }

    /// Takes every member out, and calls the callback on each, the lowest first.
    pub fn remove_all<F: FnMut(usize)>(&mut self, callback: F)
        requires callable { MayRunOver F.FnMut callback (members self.old) }
        ensures called { RunsOver F.FnMut callback (members self.old) }
        ensures empty { self.new ≡ none_used CAPACITY }
    {
        clear_marks(&mut self.marks, callback);
    }
}

#[cfg(test)]
mod tests {
    use super::*;

    #[test]
    fn a_list_of_fixed_size_does_the_same(rt: HostRuntime) {
        let mut list = FixedSizeUsedChunkList::<3>::default();
        assert!(rt; list.insert(2));
        assert!(rt; list.insert(0));
        assert!(rt; !list.insert(2));
        assert!(rt; list.remove(0));
        assert!(rt; !list.contains(0));
        let mut digits = 0;
        list.remove_all(|value| digits = digits % 100 * 10 + value % 10);
        assert_eq!(rt; digits, 2);
        assert_eq!(rt; list.capacity(), 3);
    }
}
