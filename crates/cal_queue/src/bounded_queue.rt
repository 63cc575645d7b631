//! The body that the plain queues share: a ring of words, one for each value that may wait, all taken when it is made.
//! A push and a pop touch one word each, and move no other value. No call after the first takes memory.
ghost use Rattle.std.specs.Prelude.{◌≡◌, ◌≤◌, ◌<◌, ◌+◌, ◌%◌, length, IfOk};
ghost use Rattle.cal_queue.specs.Queue.{IsBounded, empty, is_empty, is_full, oldest, after_pop, after_push};

use std::alloc::{AllocError, Global};
use std::marker::Model;

/// A queue of which at most a fixed number of values wait at once.
#[derive(Debug, Drop)]
pub(crate) struct BoundedQueue {
    /// A word for each value that may wait, and at least one. Those in which none waits hold any number.
    words: Vec<u64>,
    /// The index of the word in which the oldest value waits, where one does; below the number of words.
    read: usize,
    /// How many values wait: in the words from the read index on, and then from the first one on. At most as many as
    /// there are words.
    waiting: usize,
}

// Clauses see the values, the oldest first, and the number of words as the capacity.
impl Model for BoundedQueue {
    ghost use Rattle.cal_queue.specs.Queue.{Queue};

    ghost Value = { Queue };

    ghost use Rattle.cal_queue.specs.WordRing.{queue_of, IsRing};

    ghost view = { queue_of };

    ghost invariant = { IsRing };
}

/// The index in a ring of so many words that is reached by going on from the last word to the first.
fn wrapped_index(index: usize, count: usize) -> usize
    requires { index < count + count }
    ensures value { result ≡ index % count }
{
    if index < count { index } else { index - count }
}

impl BoundedQueue {
    /// An empty queue for that many values.
    pub(crate) fn new(alloc: Global, capacity: usize) -> Result<Self, AllocError>
        requires some { 1 ≤ capacity }
        ensures empty { IfOk result (λ q. q ≡ empty capacity) }
    {
        Ok(BoundedQueue {
            words: vec![in alloc; 0; capacity]?,
            read: 0,
            waiting: 0,
        })
    }

    /// Adds a value after all others.
    pub(crate) fn push(&mut self, value: u64)
        requires room { length self.old.values < self.old.capacity }
        ensures joined { self.new ≡ after_push self.old value }
    {
        let write = wrapped_index(self.read + self.waiting, self.words.len());
        self.words[write] = value;
        self.waiting += 1;
    }

    /// Takes the oldest value, if any waits.
    pub(crate) fn pop(&mut self) -> Option<u64>
        ensures oldest { result ≡ oldest self.old }
        ensures left { self.new ≡ after_pop self.old }
    {
        if self.waiting == 0 {
            return None;
        }
        let value = self.words[self.read];
        self.read = wrapped_index(self.read + 1, self.words.len());
        self.waiting -= 1;
        Some(value)
    }

    /// Whether as many values wait as may.
    pub(crate) fn is_full(&self) -> bool
        ensures full { result ≡ is_full self.now }
        ensures bounded { IsBounded self.now }
    {
        self.waiting == self.words.len()
    }

    /// Whether no value waits.
    pub(crate) fn is_empty(&self) -> bool
        ensures empty { result ≡ is_empty self.now }
    {
        self.waiting == 0
    }

    /// How many values may wait at once.
    pub(crate) fn capacity(&self) -> usize
        ensures capacity { result ≡ self.now.capacity }
        ensures bounded { IsBounded self.now }
    {
        self.words.len()
    }

    /// How many values wait.
    pub(crate) fn len(&self) -> usize
        ensures count { result ≡ length self.now.values }
        ensures bounded { IsBounded self.now }
    {
        self.waiting
    }
}
