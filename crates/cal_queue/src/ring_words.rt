//! The words of a ring's table, which both rings lay out alike: the read position, the write position, and then the
//! slots, which the positions use in turn.
ghost use Rattle.std.specs.Prelude.{◌≡◌, ℕ, ◌+◌, ◌%◌, ◌^◌, ◌<◌};

// The index of the word that counts the positions that were left behind.
pub(crate) const READ_POSITION: usize = 0;

// The index of the word that counts the positions that were used.
pub(crate) const WRITE_POSITION: usize = 1;

// The index of the first slot's word.
pub(crate) const FIRST_SLOT: usize = 2;

/// The index of a slot that follows this one, found without a division. The first slot follows the last.
pub(crate) fn next_index(index: usize, slots: u64) -> usize
    requires within { index < slots }
    requires most { slots < 2 ^ 33 }
    ensures next { (position : ℕ) → index ≡ position % slots → result ≡ (position + 1) % slots }
{
    let next = index + 1;
    if next as u64 == slots { 0 } else { next }
}

#[cfg(test)]
mod tests {
    use super::*;

    #[test]
    fn the_first_slot_follows_the_last(rt: HostRuntime) {
        assert_eq!(rt; next_index(0, 3), 1);
        assert_eq!(rt; next_index(2, 3), 0);
        assert_eq!(rt; next_index(0, 1), 0);
    }
}
