//! What one side of a state table knows. No value of it is made: it exists in proofs alone, where its numbers have no
//! upper bound.

use std::collections::LinkedList;

/// What a table was made of.
#[derive(Drop)]
pub struct OpeningWords {
    /// The port word: at most 3.
    pub port: u64,
    /// The word of each channel.
    pub initial: u64,
    /// How many channels there are.
    pub channels: u64,
}

/// One step at a word.
#[derive(Drop)]
pub struct StateStep {
    /// The index of the word: 0 is the port word, and a channel's word has the index of the channel plus 1.
    pub index: u64,
    /// The word that the step saw there.
    pub seen: u64,
    /// The word that it wrote, if it did.
    pub written: Option<u64>,
}

/// What one seat knows.
pub struct StatePass {
    /// What its table was made of.
    pub opening: OpeningWords,
    /// All steps of the seat, the earliest first.
    pub steps: LinkedList<StateStep>,
}
