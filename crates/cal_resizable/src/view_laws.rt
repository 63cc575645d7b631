//! Laws of views. Each is a theorem about the definitions that the contracts of the calls cite, and its function does
//! nothing.
ghost use Rattle.std.specs.Prelude.{◌≡◌, ◌≢◌, ◌↔◌, ◌⊎◌, ℕ, ◌+◌, ◌<◌, Bool, Some, None, IsSome, IsSomeAnd};
ghost use Rattle.cal_resizable.specs.Closing.{held_handles, CanClose};
ghost use Rattle.cal_resizable.specs.Slots.{Handle, HeldSegment, segment_at, count_at};
ghost use Rattle.cal_resizable.specs.View.{View, IsView, HasView, segment_path, arrival_refusal, view_after_arrival, unregistering};
ghost use Rattle.cal_shm.specs.Segment.{Segment};
ghost use Rattle.cal_storage.specs.Contents.{Contents, entry_at};
ghost use Rattle.cal_storage.specs.Refusals.{finished_version};
ghost use Rattle.cal_storage.specs.declared.entry.Entry.{Entry};

/// The mapped segments are the current one and those in which an offset is registered.
pub fn mapped_are_the_current_one_and_those_with_an_offset()
    ensures mapped { (view : View) (number : ℕ) → IsView view → IsSome (segment_at view.slots number) ↔
        ((view.current ≡ Some number) ⊎ IsSomeAnd (segment_at view.slots number) (λ held. 0 < held.count)) }
{}

/// An offset of a mapped segment is never refused, and neither is one of a segment whose path stands for a finished
/// entry.
pub fn no_sound_arrival_is_refused<A>()
    ensures mapped { (checks_version : Bool) (contents : Contents (Segment A)) (view : View) (number : ℕ) →
        IsSome (segment_at view.slots number) → arrival_refusal checks_version contents view number ≡ None }
    ensures sound { (checks_version : Bool) (contents : Contents (Segment A)) (view : View) (number : ℕ)
        (entry : Entry (Segment A)) → IsView view → number < 256 →
        entry_at contents (segment_path view number) ≡ Some entry → entry.version ≡ finished_version →
        arrival_refusal checks_version contents view number ≡ None }
{}

/// No two handles of a view are on the same entry, so each can close in its turn.
pub fn handles_of_a_view_are_apart<T>()
    ensures apart { (contents : Contents T) (view : View) (first second : ℕ) (one other : HeldSegment) → IsView view →
        HasView contents view → first ≢ second → segment_at view.slots first ≡ Some one →
        segment_at view.slots second ≡ Some other → one.handle.id ≢ other.handle.id }
    ensures management { (contents : Contents T) (view : View) (number : ℕ) (held : HeldSegment) → IsView view →
        HasView contents view → segment_at view.slots number ≡ Some held → view.management.id ≢ held.handle.id }
{}

/// An arrival counts one offset more and a return one less, in the offset's own segment alone: the number that is
/// registered in each other segment stays.
pub fn arrivals_and_returns_are_counted<A>()
    ensures arrived { (checks_version : Bool) (contents : Contents (Segment A)) (view : View) (number : ℕ) →
        IsView view → number < 256 → arrival_refusal checks_version contents view number ≡ None →
        count_at (view_after_arrival contents view number).slots number ≡ count_at view.slots number + 1 }
    ensures arrived_elsewhere { (contents : Contents (Segment A)) (view : View) (number other : ℕ) → other ≢ number →
        count_at (view_after_arrival contents view number).slots other ≡ count_at view.slots other }
    ensures returned { (view : View) (number : ℕ) →
        IsSomeAnd (segment_at view.slots number) (λ held. 0 < held.count) →
        count_at (unregistering view number).slots number + 1 ≡ count_at view.slots number }
    ensures returned_elsewhere { (view : View) (number other : ℕ) → other ≢ number →
        count_at (unregistering view number).slots other ≡ count_at view.slots other }
{}
