//! The names of the segments of a growing memory: `NAME__mgmt` of the management segment, and `NAME__K` of the segment
//! of number K, in decimal.
//!
//! Ported from `resizable_shared_memory/dynamic.rs` of iceoryx2-cal 0.9.3.
ghost use Rattle.std.specs.Prelude.{◌≡◌, ◌+◌, ◌≤◌, IfSome, Some, None, length, take, drop};
ghost use Rattle.std.specs.Option.{option_map};
ghost use Rattle.cal_resizable.specs.SegmentNames.{management_segment_name, segment_name, managed_name, cut_at_last, number_of, number_of_three, segment_of_name};

use cal_alloc::SegmentId;
use cal_names::FileName;

/// The name of the management segment of the memory of this name, where it is a file name.
pub fn management_segment_name(base: &FileName) -> Option<FileName>
    ensures name { result ≡ management_segment_name base.now }
{
    base.joined(b"__mgmt")
}

/// The name of the segment of this number of the memory of this name, where it is a file name.
pub fn segment_name(base: &FileName, segment_id: SegmentId) -> Option<FileName>
    ensures name { result ≡ segment_name base.now segment_id }
{
    let number = segment_id.value();
    let (tens, ones) = (b'0' + number / 10 % 10, b'0' + number % 10);
    if number < 10 {
        base.joined(&[b'_', b'_', b'0' + number])
    } else if number < 100 {
        base.joined(&[b'_', b'_', b'0' + number / 10, ones])
    } else {
        base.joined(&[b'_', b'_', b'0' + number / 100, tens, ones])
    }
}

/// The name of the memory whose management segment has this name.
pub fn extract_name_from_management_segment(name: &FileName) -> Option<FileName>
    ensures memory { result ≡ managed_name name.now }
{
    FileName::new(name.as_bytes().strip_suffix(b"__mgmt".as_slice())?)
}

/// The name of the memory and the number of the segment that has this name. The name is cut at its last `__`: before
/// it stands a file name, and behind it a number of one to three digits, at most 255; zeros may lead.
pub fn extract_name_and_segment_id(name: &FileName) -> Option<(FileName, SegmentId)>
    ensures segment { result ≡ segment_of_name name.now }
{
    let bytes = name.as_bytes();
    let at = last_separator(bytes)?;
    let base = FileName::new(&bytes[..at])?;
    let number = number_of(&bytes[at + 2..])?;
    Some((base, SegmentId::new(number)))
}

/// Where the last `__` begins.
fn last_separator(bytes: &[u8]) -> Option<usize>
    ensures within { IfSome result (λ at. at + 2 ≤ length bytes.now) }
    ensures cut { cut_at_last bytes.now ≡
        option_map (λ at. record { before = take at bytes.now; behind = drop (at + 2) bytes.now }) result }
{
    let mut end = bytes.len();
    while end >= 2 {
        if bytes[end - 1] == b'_' && bytes[end - 2] == b'_' {
            return Some(end - 2);
        }
        end -= 1;
    }
    None
}

/// The number of one to three digits, where it is one of a segment.
fn number_of(digits: &[u8]) -> Option<u8>
    ensures { result ≡ number_of digits.now }
{
    match digits {
        [c] => number_of_three(b'0', b'0', *c),
        [b, c] => number_of_three(b'0', *b, *c),
        [a, b, c] => number_of_three(*a, *b, *c),
        _ => None,
    }
}

/// The number of three digits, where it is one of a segment.
fn number_of_three(a: u8, b: u8, c: u8) -> Option<u8>
    ensures { result ≡ number_of_three a b c }
{
    if !a.is_ascii_digit() || !b.is_ascii_digit() || !c.is_ascii_digit() {
        return None;
    }
    let number = (a - b'0') as usize * 100 + (b - b'0') as usize * 10 + (c - b'0') as usize;
    if number < 256 {
        Some(number as u8)
    } else {
        None
    }
}
