//! A list of replies that can tell how much room it has.

ghost use Rattle.std.specs.Prelude.{◌≡◌, ◌≤◌, ◌<◌, ◌-◌, ◌++◌, ◌∷◌, [], length, IfOk, slice_get, option_copied};

use std::alloc::{AllocError, Global};
use std::marker::Model;

/// The replies to a list of commands, in order. `R` is what one command is answered with.
#[derive(Debug, Drop)]
pub struct Replies<R> {
    /// The replies so far. Their room may be taken before they come.
    items: Vec<R>,
}

impl<R> Model for Replies<R> {
    ghost use Rattle.std.specs.Prelude.{◌-◌, length, vec_len, vec_capacity};
    ghost use Rattle.cal_transport.specs.Replies.{ReplyList};

    ghost Value = { ReplyList R };

    ghost view = { λ r. record { items = r.items.items; spare = vec_capacity r.items - vec_len r.items } };
}

impl<R> Replies<R> {
    /// No reply, with room for this many.
    pub fn new(alloc: Global, room: usize) -> Result<Replies<R>, AllocError>
        ensures empty { IfOk result (λ replies. replies.items ≡ []) }
        ensures room { IfOk result (λ replies. room ≤ replies.spare) }
    {
        Ok(Replies {
            items: Vec::with_capacity(alloc, room)?,
        })
    }

    /// No reply, and no room. It takes no memory.
    pub fn empty(alloc: Global) -> Replies<R>
        ensures empty { result.items ≡ [] }
    {
        Replies {
            items: Vec::new(alloc),
        }
    }

    /// How many replies there are.
    pub fn len(&self) -> usize
        ensures count { result ≡ length self.now.items }
    {
        self.items.len()
    }

    /// The reply at a place, counted from zero, if there are so many.
    pub fn get(&self, place: usize) -> Option<&R>
        ensures reply { option_copied result ≡ slice_get self.now.items place }
    {
        self.items.get(place)
    }

    /// For how many more replies there is room without taking memory.
    pub fn spare(&self) -> usize
        ensures room { result ≡ self.now.spare }
    {
        self.items.capacity() - self.items.len()
    }

    /// Puts a reply at the end. It takes no memory.
    pub(crate) fn push(&mut self, reply: R)
        requires room { 0 < self.old.spare }
        ensures items { self.new.items ≡ self.old.items ++ reply ∷ [] }
        ensures room { self.new.spare ≡ self.old.spare - 1 }
    {
        self.items.push_reserved(reply)
    }
}
