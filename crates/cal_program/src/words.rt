//! Lines and words of a script, and the numbers and bytes that words stand for.

ghost use Rattle.std.specs.Prelude.{◌≡◌, ◌≢◌, ◌<◌, ◌≤◌, ℕ, List, [], ◌∷◌, length, slice_index, MatchOption, IfSome, IfOk, option_map, bytes_eq, map, string_bytes};
ghost use Rattle.cal_program.specs.Words.{words, is_only_word, number_of, begins_well, hex_value, byte_of, bytes_of, bytes_of_letters};

use std::alloc::{AllocError, Global};
use std::marker::Model;

/// The words of a line that are left.
#[derive(Drop)]
pub struct Words<'a> {
    /// The bytes from the next word on; none where the last word was taken.
    rest: Option<&'a [u8]>,
}

impl<'a> Model for Words<'a> {
    ghost use Rattle.std.specs.Prelude.{List, ℕ, []};
    ghost use Rattle.std.specs.Option.{option_map_or};
    ghost use Rattle.cal_program.specs.Words.{words};

    ghost Value = { List (List ℕ) };

    ghost view = { λ w. option_map_or (λ bytes. words bytes.now) w.rest [] };
}

impl<'a> Words<'a> {
    /// All words of a line.
    pub fn of(line: &'a [u8]) -> Words<'a>
        ensures words { result ≡ words line.now }
    {
        Words { rest: Some(line) }
    }

    /// The next word, if there is one.
    pub fn next_word(&mut self) -> Option<&'a [u8]>
        ensures next { MatchOption result ((self.old ≡ []) × (self.new ≡ [])) (λ word. self.old ≡ word.now ∷ self.new) }
    {
        let bytes = self.rest?;
        let place = place_of(bytes, b' ');
        if place == bytes.len() {
            self.rest = None;
            return Some(bytes);
        }
        self.rest = Some(&bytes[place + 1..]);
        Some(&bytes[..place])
    }

    /// Nothing where a word is left: a form has exactly as many words as were taken.
    pub fn end(&mut self) -> Option<()>
        ensures end { MatchOption result
            ((word : List ℕ) × ((others : List (List ℕ)) × (self.old ≡ word ∷ others))) (λ _. self.old ≡ []) }
    {
        match self.next_word() {
            Some(_) => None,
            None => Some(()),
        }
    }
}

/// The place of the first separator, or the number of bytes where there is none.
pub fn place_of(bytes: &[u8], separator: u8) -> usize
    ensures within { result ≤ length bytes.now }
    ensures before { (k : ℕ) → k < result → slice_index bytes.now k ≢ separator }
    ensures found { result < length bytes.now → slice_index bytes.now result ≡ separator }
{
    bytes
        .iter()
        .position(|byte| *byte == separator)
        .unwrap_or(bytes.len())
}

/// Whether a word is this text.
pub fn is_text(word: &[u8], text: &[u8]) -> bool
    ensures value { result ≡ bytes_eq word.now text.now }
{
    word == text
}

/// Whether a text is the one word of a command line.
pub fn is_only_word(words: &[String], text: &[u8]) -> bool
    ensures value { result ≡ is_only_word text.now (map string_bytes words.now) }
{
    if words.len() != 1 {
        return false;
    }
    is_text(words[0].as_bytes(), text)
}

/// The number that a word stands for.
pub fn number(word: &[u8]) -> Option<usize>
    ensures value { result ≡ number_of word.now }
{
    if !begins_well(word) {
        return None;
    }
    let mut value: usize = 0;
    for digit in word {
        if !digit.is_ascii_digit() {
            return None;
        }
        value = value.checked_mul(10)?;
        value = value.checked_add((*digit - b'0') as usize)?;
    }
    Some(value)
}

fn begins_well(word: &[u8]) -> bool
    ensures { result ≡ begins_well word.now }
{
    match word {
        [] => false,
        [_] => true,
        [digit, ..] => *digit != b'0',
    }
}

/// The bytes that a word stands for.
pub fn bytes(alloc: Global, word: &[u8]) -> Result<Option<Vec<u8>>, AllocError>
    ensures value { IfOk result (λ found. option_map (λ bytes. bytes.items) found ≡ bytes_of word.now) }
{
    if word.is_empty() {
        return Ok(None);
    }
    if is_text(word, b"-") {
        return Ok(Some(Vec::new(alloc)));
    }
    bytes_of_letters(alloc, word)
}

fn bytes_of_letters(alloc: Global, letters: &[u8]) -> Result<Option<Vec<u8>>, AllocError>
    ensures { IfOk result (λ found. option_map (λ bytes. bytes.items) found ≡ bytes_of_letters letters.now) }
{
    let mut bytes = Vec::with_capacity(alloc, letters.len() / 2)?;
    let mut place = 0;
    while place + 1 < letters.len() {
        let Some(byte) = byte(letters[place], letters[place + 1]) else {
            return Ok(None);
        };
        bytes.push(byte)?;
        place += 2;
    }
    if place < letters.len() {
        return Ok(None);
    }
    Ok(Some(bytes))
}

/// The byte of two letters.
fn byte(high: u8, low: u8) -> Option<u8>
    ensures { result ≡ byte_of high low }
{
    let high = hex_value(high)?;
    let low = hex_value(low)?;
    Some(16 * high + low)
}

fn hex_value(letter: u8) -> Option<u8>
    ensures value { result ≡ hex_value letter }
    ensures half { IfSome result (λ half. half < 16) }
{
    match letter {
        b'0'..=b'9' => Some(letter - b'0'),
        b'a'..=b'f' => Some(letter - b'a' + 10),
        _ => None,
    }
}
