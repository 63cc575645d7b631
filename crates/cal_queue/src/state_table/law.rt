//! The law of a state table, which its contract alone says.
ghost use Rattle.cal_queue.specs.StateLaw.{EveryOpening, EveryRun, EveryStep};

/// Whatever the seats of a state table do, and in whatever order, each of their steps keeps the table's rule, and the
/// port word stays one that a port may have.
pub fn state_table_law()
    ensures opening { EveryOpening }
    ensures step { EveryStep }
    ensures run { EveryRun }
{}
