mod acquisitions;
mod blocking_sends;
mod calls;
mod channel_words;
mod pairs;
mod threads;
mod worked_examples;
