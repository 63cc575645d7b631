//! A registry that several threads use in turn. What its type keeps holds each time it is locked: each name stands for
//! an entry. Nothing else is known of it then, since another thread may have changed it.
use crate::registry::Registry;
use std::sync::{Mutex, MutexGuard, Wait};

/// A registry behind a lock. Each call that takes a registry can be lent the guard's.
#[derive(Drop)]
pub struct SharedRegistry<T> {
    /// The registry, which one thread has at a time.
    registry: Mutex<Registry<T>>,
}

impl<T> SharedRegistry<T> {
    /// Shares this registry.
    pub fn new(reg: Registry<T>) -> SharedRegistry<T> {
        SharedRegistry {
            registry: Mutex::new(reg),
        }
    }

    /// Waits until no other thread has the registry, and has it until the guard is dropped.
    pub fn lock<'a, R: Wait>(&'a self, rt: &R) -> MutexGuard<'a, Registry<T>> {
        self.registry.lock(rt)
    }
}
