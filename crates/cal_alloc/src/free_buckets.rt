//! Which buckets of a pool are free. Those that were used before stand in a chain, each of which names the next, and
//! the last that was given back comes first. Those that were never used are in no chain and have no word yet, so a pool
//! of many buckets is made without touching a word for each.
ghost use Rattle.std.specs.Prelude.{◌≡◌, ◌<◌, length, false, true, count_by, slice_index_or, slice_set, IsTrue, IsFalse, OnOk, OnErr};
ghost use Rattle.std.specs.List.{list_all};
ghost use Rattle.cal_alloc.specs.FreeBuckets.{all_free};

use std::alloc::{AllocError, Global};
use std::marker::Model;

/// Tells of each of a number of buckets whether it is used.
#[derive(Debug, Drop)]
pub(crate) struct FreeBuckets {
    /// How many buckets there are.
    number_of_buckets: u32,
    /// A word for each bucket that was ever used, with room for one for each bucket: a free bucket's word is the index
    /// of the next in the chain, the last one's and a used one's are any numbers. None until the room is reserved.
    next: Option<Vec<u32>>,
    /// The index of the chain's first bucket, where the chain has one.
    first_free: u32,
    /// How many buckets are used: those that have a word and aren't in the chain.
    number_of_used: u32,
}

impl Model for FreeBuckets {
    ghost use Rattle.cal_alloc.specs.FreeBuckets.{BucketMarks};

    ghost Value = { BucketMarks };

    ghost use Rattle.cal_alloc.specs.FreeChain.{marks_of, IsChained};

    ghost view = { marks_of };

    ghost invariant = { IsChained };
}

impl FreeBuckets {
    /// So many buckets, all free. None can be taken until their words' room is reserved.
    pub(crate) fn new(number_of_buckets: u32) -> Self
        ensures free { result ≡ all_free number_of_buckets }
    {
        FreeBuckets {
            number_of_buckets,
            next: None,
            first_free: 0,
            number_of_used: 0,
        }
    }

    /// Reserves the room for a word for each bucket. After an error all is as before.
    pub(crate) fn reserve(&mut self, alloc: Global) -> Result<(), AllocError>
        requires { IsFalse self.old.is_ready }
        ensures ok { OnOk result (self.new ≡ record self.old { is_ready = true }) }
        ensures err { OnErr result (self.new ≡ self.old) }
    {
        self.next = Some(Vec::with_capacity(alloc, self.number_of_buckets as usize)?);
        Ok(())
    }

    /// How many buckets there are.
    pub(crate) fn number_of_buckets(&self) -> u32
        ensures count { result ≡ length self.now.used }
    {
        self.number_of_buckets
    }

    /// How many buckets are used.
    pub(crate) fn number_of_used(&self) -> u32
        ensures count { result ≡ count_by (λ mark. mark) self.now.used }
    {
        self.number_of_used
    }

    /// Whether no bucket is free.
    pub(crate) fn is_full(&self) -> bool
        ensures full { result ≡ list_all (λ mark. mark) self.now.used }
    {
        self.number_of_used == self.number_of_buckets
    }

    /// Takes a free bucket: the first of the chain or, where the chain is empty, the first that was never used.
    pub(crate) fn take(&mut self) -> u32
        requires ready { IsTrue self.old.is_ready }
        requires free { IsFalse (list_all (λ mark. mark) self.old.used) }
        ensures within { result < length self.old.used }
        ensures was_free { slice_index_or self.old.used result false ≡ false }
        ensures marked { self.new ≡ record self.old { used = slice_set self.old.used result true } }
    {
        let Some(next) = &mut self.next else {
            unreachable!();
        };
        let used = self.number_of_used;
        self.number_of_used += 1;
        if used as usize == next.len() {
            next.push_reserved(used);
            return used;
        }
        let bucket = self.first_free;
        self.first_free = next[bucket as usize];
        bucket
    }

    /// Puts a used bucket in front of the chain.
    pub(crate) fn give_back(&mut self, bucket: u32)
        requires { slice_index_or self.old.used bucket false ≡ true }
        ensures unmarked { self.new ≡ record self.old { used = slice_set self.old.used bucket false } }
    {
        let Some(next) = &mut self.next else {
            unreachable!();
        };
        next[bucket as usize] = self.first_free;
        self.first_free = bucket;
        self.number_of_used -= 1;
    }
}
