//! The word of a channel, and the word that says which ports are there.
ghost use Rattle.std.specs.Prelude.{◌≡◌, ◌<◌, ◌+◌, ◌≤◌, ◌^◌, ◌&&◌, not, false};
ghost use Rattle.cal_connection.specs.Words.{is_closed, without_hint, with_hint, has_hint, has_state, after_set, after_hint, after_close, has_bit, mark, IsPortWord, IsPortBit, is_connected, leaves_mark, after_leave};

use crate::channel_state::CHANNEL_STATE_DISCONNECT_HINT_BIT;

/// The word of a closed channel.
pub(crate) const CLOSED: u64 = u64::MAX;

/// The bit of the sender in the port word.
pub(crate) const SENDER_BIT: u8 = 1;

/// The bit of the receiver in the port word.
pub(crate) const RECEIVER_BIT: u8 = 2;

/// The port word after the last port has left.
const MARK: u8 = 128;

/// Whether the channel of this word is closed.
pub(crate) fn is_closed(word: u64) -> bool
    ensures value { result ≡ is_closed word }
{
    word == CLOSED
}

/// The word without the hint bit.
fn without_hint(word: u64) -> u64
    ensures value { result ≡ without_hint word }
{
    word % CHANNEL_STATE_DISCONNECT_HINT_BIT
}

/// The state with the hint bit.
fn with_hint(state: u64) -> u64
    ensures value { result ≡ with_hint state }
{
    without_hint(state) + CHANNEL_STATE_DISCONNECT_HINT_BIT
}

/// Whether a word is that of a state with the hint bit.
pub(crate) fn has_hint(word: u64, state: u64) -> bool
    ensures value { result ≡ has_hint word state }
{
    word == with_hint(state)
}

/// Whether a word is that of a state, with the hint bit or without.
pub(crate) fn has_state(word: u64, state: u64) -> bool
    ensures value { result ≡ has_state word state }
{
    without_hint(word) == state
}

/// The word after a state was to be set.
pub(crate) fn after_set(word: u64, state: u64) -> u64
    ensures value { result ≡ after_set word state }
{
    if is_closed(word) { state } else { word }
}

/// The word after the hint bit was to be set.
pub(crate) fn after_hint(word: u64, state: u64) -> u64
    ensures value { result ≡ after_hint word state }
{
    if word == state {
        with_hint(state)
    } else {
        word
    }
}

/// The word after the channel was to be closed.
pub(crate) fn after_close(word: u64, state: u64) -> u64
    ensures value { result ≡ after_close word state }
{
    if word == state || has_hint(word, state) {
        CLOSED
    } else {
        word
    }
}

/// Whether the port of this bit is there.
pub(crate) fn has_bit(word: u8, bit: u8) -> bool
    requires { IsPortBit bit }
    ensures value { result ≡ has_bit word bit }
{
    (word / bit) % 2 == 1
}

/// Whether the last port has left.
pub(crate) fn is_marked(word: u8) -> bool
    ensures value { result ≡ has_bit word mark }
{
    (word / MARK) % 2 == 1
}

/// Whether both ports are there.
pub(crate) fn is_connected(word: u8) -> bool
    ensures value { result ≡ is_connected word }
{
    has_bit(word, SENDER_BIT) && has_bit(word, RECEIVER_BIT)
}

/// The word after the port of this bit has joined.
pub(crate) fn after_join(word: u8, bit: u8) -> u8
    requires word { IsPortWord word }
    requires bit { IsPortBit bit }
    requires absent { has_bit word bit ≡ false }
    requires unmarked { has_bit word mark ≡ false }
    ensures value { result ≡ word + bit }
    ensures sound { IsPortWord result }
{
    word + bit
}

/// Whether the port of this bit is the only one.
pub(crate) fn leaves_mark(word: u8, bit: u8) -> bool
    ensures value { result ≡ leaves_mark word bit }
{
    word == bit
}

/// The word after the port of this bit has left.
pub(crate) fn after_leave(word: u8, bit: u8) -> u8
    requires word { IsPortWord word }
    requires bit { IsPortBit bit }
    ensures value { result ≡ after_leave word bit }
    ensures sound { IsPortWord result }
{
    if leaves_mark(word, bit) {
        MARK
    } else if has_bit(word, bit) {
        word - bit
    } else {
        word
    }
}
