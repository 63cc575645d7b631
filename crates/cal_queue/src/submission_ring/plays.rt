//! What each step on the table tells. These types are for the proofs alone.
ghost use Rattle.cal_queue.specs.SubmissionSteps as steps;

use super::rule::RingView;
use atomic_table::Play;

pub(super) struct WriterLoadsRead;

impl Play<(), RingView> for WriterLoadsRead {
    ghost then = { steps.WriterLoadsRead };
}

pub(super) struct WriterStoresSlot;

impl Play<(), RingView> for WriterStoresSlot {
    ghost then = { steps.WriterStoresSlot };
}

pub(super) struct WriterStoresWrite;

impl Play<(), RingView> for WriterStoresWrite {
    ghost then = { steps.WriterStoresWrite };
}

pub(super) struct WriterExchangesRead;

impl Play<(), RingView> for WriterExchangesRead {
    ghost then = { steps.WriterExchangesRead };
}

pub(super) struct ReaderLoadsRead;

impl Play<(), RingView> for ReaderLoadsRead {
    ghost then = { steps.ReaderLoadsRead };
}

pub(super) struct ReaderLoadsWrite;

impl Play<(), RingView> for ReaderLoadsWrite {
    ghost then = { steps.ReaderLoadsWrite };
}

pub(super) struct ReaderLoadsSlot;

impl Play<(), RingView> for ReaderLoadsSlot {
    ghost then = { steps.ReaderLoadsSlot };
}

pub(super) struct ReaderExchangesRead;

impl Play<(), RingView> for ReaderExchangesRead {
    ghost then = { steps.ReaderExchangesRead };
}

pub(super) struct Settles;

impl Play<(), RingView> for Settles {
    ghost then = { steps.Settles };
}
