//! What a used list does on its words. A number's bit is that of its remainder by 64, in the word of its quotient by
//! 64.
ghost use Rattle.std.specs.Prelude.{◌≡◌, ◌<◌, ◌≤◌, ◌^◌, ◌/◌, ◌||◌, ◌&&◌, ◌==◌, ℕ, length, not, replicate, IfSome};
ghost use Rattle.cal_queue.specs.BitSet.{has_bit, is_bit_set};
ghost use Rattle.cal_queue.specs.FirstFrom.{IsFirstFrom};

/// How many numbers have their bits in one word.
pub(crate) const WORD_BITS: usize = 64;

/// Whether a number's bit is set.
pub(crate) fn has_bit(words: &[u64], number: usize) -> bool
    requires { number / 64 < length words.now }
    ensures value { result ≡ has_bit words.now number }
{
    (words[number / WORD_BITS] >> (number % WORD_BITS)) & 1 == 1
}

/// Sets a number's bit, and answers whether it was clear.
pub(crate) fn set_bit(words: &mut [u64], number: usize) -> bool
    requires { number / 64 < length words.old }
    ensures was_clear { result ≡ not (has_bit words.old number) }
    ensures set { (k : ℕ) → has_bit words.new k ≡ (k == number || has_bit words.old k) }
{
    let was_set = has_bit(words, number);
    words[number / WORD_BITS] |= 1u64 << (number % WORD_BITS);
    !was_set
}

/// Clears a number's bit, and answers whether it was set.
pub(crate) fn clear_bit(words: &mut [u64], number: usize) -> bool
    requires { number / 64 < length words.old }
    ensures was_set { result ≡ has_bit words.old number }
    ensures cleared { (k : ℕ) → has_bit words.new k ≡ (not (k == number) && has_bit words.old k) }
{
    let was_set = has_bit(words, number);
    words[number / WORD_BITS] &= !(1u64 << (number % WORD_BITS));
    was_set
}

/// Clears every bit.
pub(crate) fn clear_all(words: &mut [u64])
    ensures zero { words.new ≡ replicate (length words.old) 0 }
{
    for index in 0..words.len() {
        words[index] = 0;
    }
}

/// The first bit of a word that is set, from this one on.
fn first_in_word(word: u64, from: u32) -> Option<u32>
    requires { from < 64 }
    ensures within { IfSome result (λ bit. bit < 64) }
    ensures first { IsFirstFrom (is_bit_set word) from result }
{
    let rest = word >> from;
    if rest == 0 {
        return None;
    }
    Some(from + rest.trailing_zeros())
}

/// The first number from this one on whose bit is set. Words that are zero are passed over.
pub(crate) fn first_from(words: &[u64], from: usize) -> Option<usize>
    requires { length words.now ≤ 2 ^ 58 }
    ensures first { IsFirstFrom (has_bit words.now) from result }
{
    let mut bit = (from % WORD_BITS) as u32;
    for index in from / WORD_BITS..words.len() {
        if let Some(found) = first_in_word(words[index], bit) {
            return Some(index * WORD_BITS + found as usize);
        }
        bit = 0;
    }
    None
}
