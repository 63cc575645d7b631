//! A set of numbers below a capacity, by which a sender keeps track of the chunks that are in use. The layer above may
//! rely on each call changing the number that it names and no other, and on `remove_all` and a walk by `next` meeting
//! each number in use once, the lowest first. A call on one number touches one word of 64 bits, and a walk costs the
//! words and the members.
//!
//! Ported from `zero_copy_connection/used_chunk_list.rs` of iceoryx2-cal 0.9.3.
ghost use Rattle.std.specs.Prelude.{◌≡◌, ◌<◌, not, IfOk};
ghost use Rattle.cal_queue.specs.BitSet.{marks_of, IsBitSet};
ghost use Rattle.cal_queue.specs.Callback.{MayRunOver, RunsOver};
ghost use Rattle.cal_queue.specs.UsedChunks.{capacity_of, contains, members, next_member, none_used, after_insertion, after_removal};
ghost use Rattle.cal_queue.specs.FirstFrom.{IsFirstFrom};

use crate::bit_set::{WORD_BITS, clear_all, clear_bit, first_from, has_bit, set_bit};
use std::alloc::{AllocError, Global};
use std::marker::Model;
use std::mem;

/// A set of numbers below a capacity that is chosen when it is made.
#[derive(Debug, Drop)]
pub struct UsedChunkList {
    /// A bit for each number below the capacity, set where it is a member: number n's is bit n % 64 of word n / 64. The
    /// bits of the last word from the capacity on are clear.
    words: Vec<u64>,
    /// The number that all members are below.
    capacity: usize,
}

impl Model for UsedChunkList {
    ghost use Rattle.cal_queue.specs.UsedChunks.{UsedChunks};

    ghost Value = { UsedChunks };

    ghost use Rattle.cal_queue.specs.BitSet.{marks_of, IsBitSet};

    ghost view = { λ list. record { marks = marks_of list.words.items list.capacity } };

    ghost invariant = { λ list. IsBitSet list.words.items list.capacity };
}

/// Calls the callback on each number whose bit is set, the lowest first.
fn call_on_each<F: FnMut(usize)>(words: &[u64], capacity: usize, mut callback: F)
    requires words { IsBitSet words.now capacity }
    requires callable { MayRunOver F.FnMut callback (members (record { marks = marks_of words.now capacity })) }
    ensures called { RunsOver F.FnMut callback (members (record { marks = marks_of words.now capacity })) }
{
    let mut from = 0;
    'members: while let Some(number) = first_from(words, from) {
        callback(number);
        from = number + 1;
    }
}

impl UsedChunkList {
    /// The empty set of numbers below `capacity`. All the memory that it ever needs is taken
    /// here; the error is that it is out of memory.
    pub fn new(alloc: Global, capacity: usize) -> Result<Self, AllocError>
        ensures empty { IfOk result (λ list. list ≡ none_used capacity) }
    {
        Ok(UsedChunkList {
            words: vec![in alloc; 0; capacity.div_ceil(WORD_BITS)]?,
            capacity,
        })
    }

    /// The memory that is reckoned for a set below `capacity`: a byte for each number, as the original's takes. This
    /// set's words take an eighth of it.
    pub const fn const_memory_size(capacity: usize) -> usize
        ensures bytes { result ≡ capacity }
    {
        capacity * mem::size_of::<bool>()
    }

    /// The number that all members are below.
    pub fn capacity(&self) -> usize
        ensures capacity { result ≡ capacity_of self.now }
    {
        self.capacity
    }

    /// Whether a number is a member.
    pub fn contains(&self, value: usize) -> bool
        requires below { value < capacity_of self.now }
        ensures member { result ≡ contains self.now value }
    {
        has_bit(&self.words, value)
    }

    /// Makes a number a member, and answers whether it was none before.
    pub fn insert(&mut self, value: usize) -> bool
        requires below { value < capacity_of self.old }
        ensures was_absent { result ≡ not (contains self.old value) }
        ensures now_present { self.new ≡ after_insertion self.old value }
    {
        set_bit(&mut self.words, value)
    }

    /// Takes a number out, and answers whether it was a member before.
    pub fn remove(&mut self, value: usize) -> bool
        requires below { value < capacity_of self.old }
        ensures was_present { result ≡ contains self.old value }
        ensures now_absent { self.new ≡ after_removal self.old value }
    {
        clear_bit(&mut self.words, value)
    }

    /// Takes every member out, and calls the callback on each, the lowest first.
    pub fn remove_all<F: FnMut(usize)>(&mut self, callback: F)
        requires callable { MayRunOver F.FnMut callback (members self.old) }
        ensures called { RunsOver F.FnMut callback (members self.old) }
        ensures empty { self.new ≡ none_used (capacity_of self.old) }
    {
        call_on_each(&self.words, self.capacity, callback);
        clear_all(&mut self.words);
    }

    /// The first member from this number on, by which a walk over the members goes on.
    pub fn next(&self, from: usize) -> Option<usize>
        ensures value { result ≡ next_member self.now from }
        ensures first { IsFirstFrom (contains self.now) from result }
    {
        first_from(&self.words, from)
    }
}

#[cfg(test)]
mod tests {
    use super::*;
    use std::process::Abort;
    use std::test::Fail;

    #[test]
    fn insert_and_remove_answer_what_was_there(rt: HostRuntime) -> Result<(), Fail> {
        let mut list = UsedChunkList::new(rt.alloc(), 3)?;
        assert!(rt; list.insert(1));
        assert!(rt; !list.insert(1));
        assert!(rt; list.remove(1));
        assert!(rt; !list.remove(1));
        Ok(())
    }

    #[test]
    fn remove_all_meets_the_lowest_member_first(rt: HostRuntime) -> Result<(), Fail> {
        let mut list = UsedChunkList::new(rt.alloc(), 3)?;
        assert!(rt; list.insert(2));
        assert!(rt; list.insert(0));
        let mut met = [3, 3, 3];
        let mut count = 0;
        list.remove_all(|value| {
            if count < 3 {
                met[count] = value;
                count += 1;
            }
        });
        assert_eq!(rt; count, 2);
        assert_eq!(rt; met, [0, 2, 3]);
        assert!(rt; !list.contains(0));
        Ok(())
    }

    /// The first number of a list and the last are put in, and a walk and `remove_all` meet them.
    fn ends_are_met(rt: &impl Abort, alloc: Global, capacity: usize) -> Result<(), Fail>
        requires { 0 < capacity }
    {
        let last = capacity - 1;
        let mut list = UsedChunkList::new(alloc, capacity)?;
        assert_eq!(rt; list.next(0), None, "{capacity}");
        assert!(rt; list.insert(0));
        assert_eq!(rt; list.insert(last), last != 0, "{capacity}");
        assert_eq!(rt; list.next(0), Some(0), "{capacity}");
        assert_eq!(rt; list.next(last), Some(last), "{capacity}");
        assert_eq!(rt; list.next(capacity), None, "{capacity}");
        let mut count = 0u64;
        let mut highest = 0;
        list.remove_all(|value| {
            count = count.wrapping_add(1);
            highest = value;
        });
        assert_eq!(rt; count, if last == 0 { 1 } else { 2 }, "{capacity}");
        assert_eq!(rt; highest, last, "{capacity}");
        assert_eq!(rt; list.next(0), None, "{capacity}");
        assert!(rt; !list.remove(last));
        assert_eq!(rt; list.capacity(), capacity);
        Ok(())
    }

    #[test]
    fn first_and_last_are_met_at_each_end_of_a_word(rt: HostRuntime) -> Result<(), Fail> {
        ends_are_met(&rt, rt.alloc(), 1)?;
        ends_are_met(&rt, rt.alloc(), 63)?;
        ends_are_met(&rt, rt.alloc(), 64)?;
        ends_are_met(&rt, rt.alloc(), 65)?;
        ends_are_met(&rt, rt.alloc(), 129)?;
        Ok(())
    }

    #[test]
    fn a_list_of_no_number_has_no_member(rt: HostRuntime) -> Result<(), Fail> {
        let list = UsedChunkList::new(rt.alloc(), 0)?;
        assert_eq!(rt; list.next(0), None);
        assert_eq!(rt; list.next(usize::MAX), None);
        assert_eq!(rt; UsedChunkList::const_memory_size(129), 129);
        Ok(())
    }
}
