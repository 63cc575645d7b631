//! Laws of the names of segments. Each is a theorem about the definitions that the contracts of the calls cite, and its
//! function does nothing.
ghost use Rattle.std.specs.Prelude.{◌≡◌, ℕ, ◌<◌, ◌++◌, List, Some, None, codes};
ghost use Rattle.cal_names.specs.FileName.{IsFileName};
ghost use Rattle.cal_resizable.specs.SegmentNames.{number_end, segment_name, managed_name, segment_of_name};

/// What is extracted from the name of a segment is the memory's name and the segment's number again, and likewise with
/// the management segment.
pub fn names_are_extracted_again()
    ensures segment { (base : List ℕ) (number : ℕ) → IsFileName base → number < 256 →
        segment_of_name (base ++ number_end number) ≡ Some (base, number) }
    ensures management { (base : List ℕ) → IsFileName base → managed_name (base ++ codes "__mgmt") ≡ Some base }
{}

/// No name is that of a management segment and of another segment, and each number gives another name.
pub fn names_tell_segments_apart()
    ensures management { (name base : List ℕ) → managed_name name ≡ Some base → segment_of_name name ≡ None }
    ensures segment { (name base : List ℕ) (number : ℕ) → segment_of_name name ≡ Some (base, number) →
        managed_name name ≡ None }
    ensures numbers { (base : List ℕ) (first second : ℕ) → IsFileName base → first < 256 → second < 256 →
        base ++ number_end first ≡ base ++ number_end second → first ≡ second }
{}

/// Where the name of the management segment is a file name, so is that of each segment.
pub fn each_segment_has_a_name()
    ensures fits { (base : List ℕ) (number : ℕ) → IsFileName base → IsFileName (base ++ codes "__mgmt") →
        number < 256 → segment_name base number ≡ Some (base ++ number_end number) }
{}

/// Worked names.
pub fn worked_names()
    ensures too_great { segment_of_name (codes "mem__256") ≡ None }
    ensures no_digit { segment_of_name (codes "foo__") ≡ None }
    ensures no_name { segment_of_name (codes "__5") ≡ None }
    ensures zeros_lead { segment_of_name (codes "mem__007") ≡ Some (codes "mem", 7) }
    ensures two_digits { segment_of_name (codes "mem__12") ≡ Some (codes "mem", 12) }
    ensures four_digits { segment_of_name (codes "mem__0012") ≡ None }
    ensures last_counts { segment_of_name (codes "mem__1__2") ≡ Some (codes "mem__1", 2) }
    ensures three_bars { segment_of_name (codes "mem___5") ≡ Some (codes "mem_", 5) }
    ensures managed { managed_name (codes "mem__mgmt") ≡ Some (codes "mem") }
    ensures no_managed_name { managed_name (codes "__mgmt") ≡ None }
{}
