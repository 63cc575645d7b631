//! The positions of a ring's values, which a word counts and which are never used again.
ghost use Rattle.std.specs.Prelude.{◌≡◌, ◌-◌, ◌^◌, ◌↔◌, IsTrue};

/// Whether every position that a word can count is used up.
pub(crate) fn is_used_up(written: u64) -> bool
    ensures { IsTrue result ↔ (written ≡ 2 ^ 64 - 1) }
{
    written == u64::MAX
}

#[cfg(test)]
mod tests {
    use super::*;

    #[test]
    fn only_the_last_number_is_no_position(rt: HostRuntime) {
        assert!(rt; !is_used_up(u64::MAX - 1));
        assert!(rt; is_used_up(u64::MAX));
    }
}
