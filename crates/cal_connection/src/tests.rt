//! Tests of what no clause says: the worked examples over both kinds of storage, with ample memory, and printed texts.
mod acquisitions;
mod blocking_sends;
mod calls;
mod creations;
mod ends;
mod removals;
mod states;
mod texts;
mod worked_examples;
