//! Worked examples through the public calls, over any allocator and storage: contracts over one allocator and one
//! storage take far longer to prove.

mod creation;
mod fixtures;
mod growth;
mod naming;
mod refusals;
mod retired;
mod round_trip;
mod segments;
mod steps;
