//! Worked examples through the public calls.

mod fixtures;
mod initializers;
mod names;
mod owners;
mod peeks;
mod shared_registries;
mod staged_entries;
mod stored_value;
mod texts;
mod worked_example;
