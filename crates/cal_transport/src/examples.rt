//! Worked examples of the ledger, as theorems over its definitions alone: each function's contract is a closed run
//! or cause of `specs/Examples.antt` or `specs/OrderExamples.antt`, which the check computes. The bodies are empty.
#![tactic(auto, unfolding(crate::specs::Examples::count_ones))]

ghost use Rattle.cal_transport.specs.Examples.{OneChunk, RefusedLoans, GrowsByPowers, BestFitGrows, PowerOfTwoGrows, OverflowTakesTheOldest, FullChannelRefuses, CompletionQueueHoldsThree, FullCompletionQueueRefuses, TwoChannelsHoldAChunk, ManySegments, SegmentsRetire, OverflowFreesABucket, RefusalsOnTheWay, WritesStayInside, RefusedGrowth, LastSegmentRefuses, GivenBackOnce, CreateCauses};
ghost use Rattle.cal_transport.specs.OrderExamples.{BorrowedAgain, TransitByPlace, FirstCauses, UnborrowedOnAFullQueue, OutsideSamples, ZerosCountAsOnes, ZeroSettings, BothOutOfRange, FourAfterThree, GrowsToAnAlignment, MappedStays};

/// A chunk is loaned, written, sent, received and read, without a copy; it is in transit then.
pub fn one_chunk()
    ensures computed { OneChunk }
{}

/// Each refusal of a static memory's loan, the first that holds.
pub fn refused_loans()
    ensures computed { RefusedLoans }
{}

/// Memory that grows by powers of two: a larger chunk gets a new segment, and the small one stays where it is.
pub fn grows_by_powers()
    ensures computed { GrowsByPowers }
{}

/// Where each of four buckets is used, a best fit is one more, of the padded size.
pub fn best_fit_grows()
    ensures computed { BestFitGrows }
{}

/// Where each of four buckets is used, a power of two is twice as many, of the least power of two.
pub fn power_of_two_grows()
    ensures computed { PowerOfTwoGrows }
{}

/// A send on a full channel takes the oldest chunk back, and the receiver borrows no more than it may.
pub fn overflow_takes_the_oldest()
    ensures computed { OverflowTakesTheOldest }
{}

/// Without overflow a full channel refuses; the borrow limit is looked at before the queue, which is empty here.
pub fn full_channel_refuses()
    ensures computed { FullChannelRefuses }
{}

/// Buffer one and borrow limit one: the completion queue holds three.
pub fn completion_queue_holds_three()
    ensures computed { CompletionQueueHoldsThree }
{}

/// The fourth release finds it full, until the sender reclaims.
pub fn full_completion_queue_refuses()
    ensures computed { FullCompletionQueueRefuses }
{}

/// A chunk that two channels hold keeps its bucket until both let go.
pub fn two_channels_hold_a_chunk()
    ensures computed { TwoChannelsHoldAChunk }
{}

/// Three segments with a chunk each are active; the view has the two of which a chunk was received.
pub fn many_segments()
    ensures computed { ManySegments }
{}

/// A segment goes once its last chunk has come back and a later one is current.
pub fn segments_retire()
    ensures computed { SegmentsRetire }
{}

/// What came back by overflow and isn't loaned is free again.
pub fn overflow_frees_a_bucket()
    ensures computed { OverflowFreesABucket }
{}

/// The refusals of a chunk's way, each where its cause stands first.
pub fn refusals_on_the_way()
    ensures computed { RefusalsOnTheWay }
{}

/// Bytes up to the bucket's end may be written, and none past it.
pub fn writes_stay_inside()
    ensures computed { WritesStayInside }
{}

/// Growth is refused where no memory supports the alignment, and where the segment would be too large.
pub fn refused_growth()
    ensures computed { RefusedGrowth }
{}

/// The last segment number is in use and its bucket is too small: the loan is refused.
pub fn last_segment_refuses()
    ensures computed { LastSegmentRefuses }
{}

/// A chunk may be given back once for each time that it was received.
pub fn given_back_once()
    ensures computed { GivenBackOnce }
{}

/// Each cause for which no transport is made, the first that holds.
pub fn create_causes()
    ensures computed { CreateCauses }
{}

/// A chunk that came back may be sent and borrowed again, and is given back once again; it isn't written any more.
pub fn borrowed_again()
    ensures computed { BorrowedAgain }
{}

/// Chunks in transit are told by place, also where their names fall.
pub fn transit_by_place()
    ensures computed { TransitByPlace }
{}

/// The loan is looked at before the channel, the send and the borrow before the chunk's end, what is in transit
/// before a full channel, and the size before a full memory.
pub fn first_causes()
    ensures computed { FirstCauses }
{}

/// A chunk that isn't borrowed is told before a full completion queue.
pub fn unborrowed_on_a_full_queue()
    ensures computed { UnborrowedOnAFullQueue }
{}

/// A bucket past the samples can be loaned, and not sent.
pub fn outside_samples()
    ensures computed { OutsideSamples }
{}

/// Zeros count as ones.
pub fn zeros_count_as_ones()
    ensures computed { ZerosCountAsOnes }
{}

/// In a run, too.
pub fn zero_settings()
    ensures computed { ZeroSettings }
{}

/// A segment that would be too large is told before an alignment that no memory supports.
pub fn both_out_of_range()
    ensures computed { BothOutOfRange }
{}

/// The least power of two above three is four.
pub fn four_after_three()
    ensures computed { FourAfterThree }
{}

/// A greater alignment alone makes a new segment, whose buckets are padded to it; the first one is unused, and goes.
pub fn grows_to_an_alignment()
    ensures computed { GrowsToAnAlignment }
{}

/// A chunk of a mapped segment is received without a change of the segment that the view opened last.
pub fn mapped_stays()
    ensures computed { MappedStays }
{}
