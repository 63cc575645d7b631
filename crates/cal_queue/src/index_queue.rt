//! A first-in first-out queue of numbers that refuses a number where it is full. The layer above
//! may rely on the order, on a refusal exactly where the queue is full, and on a push that takes
//! no memory.
//!
//! Stands for `spsc::index_queue` of iceoryx2-bb-lock-free, which `zero_copy_connection/common.rs` of iceoryx2-cal
//! 0.9.3 stands on.
ghost use Rattle.std.specs.Prelude.{◌≡◌, ◌≤◌, length, not, IfOk};
ghost use Rattle.std.specs.Bool.{OnTrue, OnFalse};
ghost use Rattle.cal_queue.specs.Queue.{IsBounded, empty, is_empty, is_full, oldest, after_pop, after_push};

use crate::bounded_queue::BoundedQueue;
use std::alloc::{AllocError, Global};
use std::marker::Model;

/// A queue of `u64`, the oldest first, of which at most a fixed number wait at once.
#[derive(Debug, Drop)]
pub struct IndexQueue {
    /// The values that wait, and the room for them.
    queue: BoundedQueue,
}

impl Model for IndexQueue {
    ghost use Rattle.cal_queue.specs.Queue.{Queue};

    ghost Value = { Queue };

    ghost view = { λ q. q.queue };
}

impl IndexQueue {
    /// An empty queue for `capacity` values. All the memory that it ever needs is taken here;
    /// the error is that it is out of memory.
    pub fn new(alloc: Global, capacity: usize) -> Result<Self, AllocError>
        requires some { 1 ≤ capacity }
        ensures empty { IfOk result (λ q. q ≡ empty capacity) }
    {
        Ok(IndexQueue {
            queue: BoundedQueue::new(alloc, capacity)?,
        })
    }

    /// Adds a value after all others, and answers whether there was room for it.
    pub fn push(&mut self, value: u64) -> bool
        ensures room { result ≡ not (is_full self.old) }
        ensures joined { OnTrue result (self.new ≡ after_push self.old value) }
        ensures refused { OnFalse result (self.new ≡ self.old) }
    {
        if self.queue.is_full() {
            return false;
        }
        self.queue.push(value);
        true
    }

    /// Takes the oldest value, if any waits.
    pub fn pop(&mut self) -> Option<u64>
        ensures oldest { result ≡ oldest self.old }
        ensures left { self.new ≡ after_pop self.old }
    {
        self.queue.pop()
    }

    /// Whether the next push is refused.
    pub fn is_full(&self) -> bool
        ensures full { result ≡ is_full self.now }
        ensures bounded { IsBounded self.now }
    {
        self.queue.is_full()
    }

    /// Whether no value waits.
    pub fn is_empty(&self) -> bool
        ensures empty { result ≡ is_empty self.now }
    {
        self.queue.is_empty()
    }

    /// How many values may wait at once.
    pub fn capacity(&self) -> usize
        ensures capacity { result ≡ self.now.capacity }
        ensures bounded { IsBounded self.now }
    {
        self.queue.capacity()
    }

    /// How many values wait.
    pub fn len(&self) -> usize
        ensures count { result ≡ length self.now.values }
        ensures bounded { IsBounded self.now }
    {
        self.queue.len()
    }
}

#[cfg(test)]
mod tests {
    use super::*;
    use std::test::Fail;

    #[test]
    fn a_full_queue_refuses_a_value(rt: HostRuntime) -> Result<(), Fail> {
        let mut queue = IndexQueue::new(rt.alloc(), 1)?;
        assert!(rt; queue.push(7));
        assert!(rt; !queue.push(8));
        assert_eq!(rt; queue.pop(), Some(7));
        assert_eq!(rt; queue.pop(), None);
        Ok(())
    }

    #[test]
    fn values_keep_their_order_round_the_end(rt: HostRuntime) -> Result<(), Fail> {
        let mut queue = IndexQueue::new(rt.alloc(), 3)?;
        for value in 0..10 {
            assert!(rt; queue.push(value));
            assert!(rt; queue.push(value + 100));
            assert_eq!(rt; queue.pop(), Some(value));
            assert_eq!(rt; queue.len(), 1);
            assert_eq!(rt; queue.pop(), Some(value + 100));
        }
        assert!(rt; queue.is_empty());
        assert_eq!(rt; queue.capacity(), 3);
        Ok(())
    }
}
