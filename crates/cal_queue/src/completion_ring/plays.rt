//! What each step on the table tells. These types are for the proofs alone.
ghost use Rattle.cal_queue.specs.CompletionSteps as steps;

use super::rule::RingView;
use atomic_table::Play;

pub(super) struct WriterLoadsRead;

impl Play<(), RingView> for WriterLoadsRead {
    ghost then = { steps.WriterLoadsRead };
}

pub(super) struct WriterStoresSlot;

impl Play<(), RingView> for WriterStoresSlot {
    ghost then = { steps.WriterStoresSlot };
}

pub(super) struct WriterStoresWrite;

impl Play<(), RingView> for WriterStoresWrite {
    ghost then = { steps.WriterStoresWrite };
}

pub(super) struct ReaderLoadsWrite;

impl Play<(), RingView> for ReaderLoadsWrite {
    ghost then = { steps.ReaderLoadsWrite };
}

pub(super) struct ReaderLoadsSlot;

impl Play<(), RingView> for ReaderLoadsSlot {
    ghost then = { steps.ReaderLoadsSlot };
}

pub(super) struct ReaderStoresRead;

impl Play<(), RingView> for ReaderStoresRead {
    ghost then = { steps.ReaderStoresRead };
}

pub(super) struct Settles;

impl Play<(), RingView> for Settles {
    ghost then = { steps.Settles };
}
