//! What a transport keeps of each chunk that was ever loaned, in the order of their names.

ghost use Rattle.std.specs.Prelude.{◌≡◌, slice_get, Some, IsSome, MatchOption};
ghost use Rattle.cal_transport.specs.ChunkEntry.{AreRising, HasNoEntry, IsFound, LeadsToEntry, owners_of};

/// What is kept of a chunk. Its name is the number of the loan that made it, so names rise.
#[derive(Clone, Copy, Debug)]
pub(crate) struct ChunkEntry {
    /// The number of the loan that made the chunk.
    pub(crate) name: usize,
    /// The number of the segment in which it lies.
    pub(crate) segment: u8,
    /// The index of its bucket, below the segment's number of buckets.
    pub(crate) bucket: usize,
    /// Whether the sender has it still: it wasn't discarded.
    pub(crate) loaned: bool,
    /// Whether it was ever sent; it isn't written any more then.
    pub(crate) sent: bool,
    /// On how many channels it is in transit. Where it is neither loaned nor in transit, its bucket may have another
    /// chunk.
    pub(crate) transits: usize,
}

/// For each bucket of a segment, the index of the entry of its chunk.
pub(crate) type Owners = Vec<usize>;

/// An entry and the index where it stands.
#[derive(Clone, Copy)]
pub(crate) struct Found {
    /// Where the entry stands among all entries.
    pub(crate) index: usize,
    /// The entry.
    pub(crate) entry: ChunkEntry,
}

/// The entry of the chunk of that name, if there is one.
pub(crate) fn find_entry(entries: &[ChunkEntry], name: usize) -> Option<Found>
    requires rising { AreRising entries.now }
    ensures found { MatchOption result (HasNoEntry entries.now name) (IsFound entries.now name) }
{
    match entries.binary_search_by_key(&name, |entry| entry.name) {
        Ok(index) => Some(Found {
            index,
            entry: entries[index],
        }),
        Err(_) => None,
    }
}

/// The index of the entry of the chunk that has a bucket of a segment.
fn owner_of(owners: &[Owners], segment: u8, bucket: usize) -> usize
    requires owned { IsSome (slice_get (owners_of owners.now segment) bucket) }
    ensures owner { slice_get (owners_of owners.now segment) bucket ≡ Some result }
{
    owners[segment as usize][bucket]
}

/// The entry of the chunk that has a bucket of a segment.
pub(crate) fn entry_at(
    entries: &[ChunkEntry],
    owners: &[Owners],
    segment: u8,
    bucket: usize,
) -> Found
    requires leads { LeadsToEntry entries.now (owners_of owners.now segment) bucket }
    ensures owner { slice_get (owners_of owners.now segment) bucket ≡ Some result.index }
    ensures entry { slice_get entries.now result.index ≡ Some result.entry }
{
    let index = owner_of(owners, segment, bucket);
    Found {
        index,
        entry: entries[index],
    }
}
