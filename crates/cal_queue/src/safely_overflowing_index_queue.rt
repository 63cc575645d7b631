//! A first-in first-out queue of numbers in which there is always room for another: where it is
//! full, the oldest number leaves and is given back. The layer above may rely on the order, on
//! losing no number unseen, and on a push that takes no memory.
//!
//! Stands for `spsc::safely_overflowing_index_queue` of iceoryx2-bb-lock-free, which `zero_copy_connection/common.rs`
//! of iceoryx2-cal 0.9.3 stands on.
ghost use Rattle.std.specs.Prelude.{◌≡◌, ◌≤◌, ◌↔◌, length, IfOk, IsSome, IsTrue};
ghost use Rattle.cal_queue.specs.Queue.{IsBounded, empty, is_empty, is_full, oldest, after_pop, after_push, overflow_of, with_room};

use crate::bounded_queue::BoundedQueue;
use std::alloc::{AllocError, Global};
use std::marker::Model;

/// A queue of `u64`, the oldest first, of which at most a fixed number wait at once.
#[derive(Debug, Drop)]
pub struct SafelyOverflowingIndexQueue {
    /// The values that wait, and the room for them.
    queue: BoundedQueue,
}

impl Model for SafelyOverflowingIndexQueue {
    ghost use Rattle.cal_queue.specs.Queue.{Queue};

    ghost Value = { Queue };

    ghost view = { λ q. q.queue };
}

impl SafelyOverflowingIndexQueue {
    /// An empty queue for `capacity` values. All the memory that it ever needs is taken here;
    /// the error is that it is out of memory.
    pub fn new(alloc: Global, capacity: usize) -> Result<Self, AllocError>
        requires some { 1 ≤ capacity }
        ensures empty { IfOk result (λ q. q ≡ empty capacity) }
    {
        Ok(SafelyOverflowingIndexQueue {
            queue: BoundedQueue::new(alloc, capacity)?,
        })
    }

    /// Adds a value after all others. Where the queue is full the oldest value leaves first,
    /// and is the answer.
    pub fn push(&mut self, value: u64) -> Option<u64>
        ensures full { IsSome result ↔ IsTrue (is_full self.old) }
        ensures overflowed { result ≡ overflow_of self.old }
        ensures joined { self.new ≡ after_push (with_room self.old) value }
    {
        let overflowed = if self.queue.is_full() {
            self.queue.pop()
        } else {
            None
        };
        self.queue.push(value);
        overflowed
    }

    /// Takes the oldest value, if any waits.
    pub fn pop(&mut self) -> Option<u64>
        ensures oldest { result ≡ oldest self.old }
        ensures left { self.new ≡ after_pop self.old }
    {
        self.queue.pop()
    }

    /// Whether the oldest value overflows at the next push.
    pub fn is_full(&self) -> bool
        ensures full { result ≡ is_full self.now }
        ensures bounded { IsBounded self.now }
    {
        self.queue.is_full()
    }

    /// Whether no value waits.
    pub fn is_empty(&self) -> bool
        ensures empty { result ≡ is_empty self.now }
    {
        self.queue.is_empty()
    }

    /// How many values may wait at once.
    pub fn capacity(&self) -> usize
        ensures capacity { result ≡ self.now.capacity }
        ensures bounded { IsBounded self.now }
    {
        self.queue.capacity()
    }

    /// How many values wait.
    pub fn len(&self) -> usize
        ensures count { result ≡ length self.now.values }
        ensures bounded { IsBounded self.now }
    {
        self.queue.len()
    }
}

#[cfg(test)]
mod tests {
    use super::*;
    use std::test::Fail;

    #[test]
    fn a_push_into_a_full_queue_gives_the_oldest_back(rt: HostRuntime) -> Result<(), Fail> {
        let mut queue = SafelyOverflowingIndexQueue::new(rt.alloc(), 2)?;
        assert_eq!(rt; queue.push(1), None);
        assert_eq!(rt; queue.push(2), None);
        assert_eq!(rt; queue.push(3), Some(1));
        assert_eq!(rt; queue.pop(), Some(2));
        assert_eq!(rt; queue.pop(), Some(3));
        assert_eq!(rt; queue.pop(), None);
        Ok(())
    }
}
