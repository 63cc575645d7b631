//! Scripts: settings and commands, one a line.

ghost use Rattle.std.specs.Prelude.{◌≡◌, [], ◌∷◌, MatchOption, IfOk};
ghost use Rattle.cal_program.specs.Words.{lines};
ghost use Rattle.cal_program.specs.Script.{settings_of, settings_of_words, strategy_of, switch_of, small_number_of, command_of, loan_of, write_of, send_of, receive_of, read_of, release_of, reclaim_of, discard_of, count_of};
ghost use Rattle.cal_program.specs.Parsing.{Parses, ParsesCommands};

use crate::words::{self, Words, is_text, number, place_of};
use cal_alloc::AllocationStrategy;
use cal_transport::{Bytes, Command, Settings};
use std::alloc::{AllocError, Global};
use std::marker::Model;

/// What a script says.
#[derive(Debug, Drop)]
pub struct Script {
    /// The first line.
    settings: Settings,
    /// The further lines, in order.
    commands: Vec<Command>,
}

impl Model for Script {
    ghost use Rattle.cal_program.specs.Script.{ParsedScript};

    ghost Value = { ParsedScript };

    ghost view = { λ s. record { settings = s.settings; commands = s.commands.items } };
}

/// Why bytes aren't read as a script.
#[derive(Clone, Copy, Debug, PartialEq, Eq)]
pub enum ParseError {
    /// This line, counted from one, is the first that is bad.
    BadLine { line: usize },
    /// Memory ran out.
    NoMemory,
}

impl Script {
    /// A script of these settings and commands.
    pub fn new(settings: Settings, commands: Vec<Command>) -> Script
        ensures value { result ≡ record { settings = settings; commands = commands.items } }
    {
        Script { settings, commands }
    }

    /// What these bytes say as a script.
    pub fn parse(alloc: Global, bytes: &[u8]) -> Result<Script, ParseError>
        ensures parsed { Parses bytes.now result }
    {
        let mut lines = Lines { rest: bytes };
        let Some(first) = lines.next_line() else {
            return Err(ParseError::BadLine { line: 1 });
        };
        let Some(settings) = settings(first) else {
            return Err(ParseError::BadLine { line: 1 });
        };
        match commands(alloc, &mut lines) {
            Ok(commands) => Ok(Script { settings, commands }),
            Err(error) => Err(error),
        }
    }

    /// The settings, which are the first line.
    pub fn settings(&self) -> &Settings
        ensures value { result.now ≡ self.now.settings }
    {
        &self.settings
    }

    /// The commands, in the order of their lines.
    pub fn commands(&self) -> &[Command]
        ensures value { result.now ≡ self.now.commands }
    {
        self.commands.as_slice()
    }
}

/// The lines that are left.
#[derive(Drop)]
struct Lines<'a> {
    /// The bytes from the next line on.
    rest: &'a [u8],
}

impl<'a> Model for Lines<'a> {
    ghost use Rattle.std.specs.Prelude.{List, ℕ};
    ghost use Rattle.cal_program.specs.Words.{lines};

    ghost Value = { List (List ℕ) };

    ghost view = { λ l. lines l.rest.now };
}

impl<'a> Lines<'a> {
    /// The next line, if there is one.
    fn next_line(&mut self) -> Option<&'a [u8]>
        ensures { MatchOption result ((self.old ≡ []) × (self.new ≡ [])) (λ line. self.old ≡ line.now ∷ self.new) }
    {
        let bytes = self.rest;
        if bytes.is_empty() {
            return None;
        }
        let place = place_of(bytes, b'\n');
        if place == bytes.len() {
            self.rest = &[];
            return Some(bytes);
        }
        self.rest = &bytes[place + 1..];
        Some(&bytes[..place])
    }
}

/// The settings that a line gives.
fn settings(line: &[u8]) -> Option<Settings>
    ensures { result ≡ settings_of line.now }
{
    let mut words = Words::of(line);
    let name = words.next_word()?;
    if !is_text(name, b"transport") {
        return None;
    }
    settings_of_words(&mut words)
}

fn settings_of_words(words: &mut Words<'_>) -> Option<Settings>
    ensures { result ≡ settings_of_words words.old }
{
    let size = words.next_word()?;
    let alignment = words.next_word()?;
    let count = words.next_word()?;
    let strategy = words.next_word()?;
    let buffer = words.next_word()?;
    let borrow = words.next_word()?;
    let overflow = words.next_word()?;
    let samples = words.next_word()?;
    let segments = words.next_word()?;
    let channels = words.next_word()?;
    words.end()?;
    Some(Settings {
        size: number(size)?,
        alignment: number(alignment)?,
        count: number(count)?,
        strategy: strategy_of(strategy)?,
        buffer: number(buffer)?,
        borrow: number(borrow)?,
        overflow: switch_of(overflow)?,
        samples: number(samples)?,
        segments: small_number(segments)?,
        channels: number(channels)?,
    })
}

fn strategy_of(word: &[u8]) -> Option<AllocationStrategy>
    ensures { result ≡ strategy_of word.now }
{
    if is_text(word, b"best") {
        return Some(AllocationStrategy::BestFit);
    }
    if is_text(word, b"power") {
        return Some(AllocationStrategy::PowerOfTwo);
    }
    if is_text(word, b"static") {
        return Some(AllocationStrategy::Static);
    }
    None
}

fn switch_of(word: &[u8]) -> Option<bool>
    ensures { result ≡ switch_of word.now }
{
    if is_text(word, b"on") {
        return Some(true);
    }
    if is_text(word, b"off") {
        return Some(false);
    }
    None
}

/// A number of at most eight bits.
fn small_number(word: &[u8]) -> Option<u8>
    ensures { result ≡ small_number_of word.now }
{
    let value = number(word)?;
    if value > 255 {
        return None;
    }
    Some(value as u8)
}

/// The commands of the lines that are left, the first of which is the second of the script.
fn commands(alloc: Global, lines: &mut Lines<'_>) -> Result<Vec<Command>, ParseError>
    ensures { ParsesCommands lines.old result }
{
    let mut commands = Vec::new(alloc);
    while let Some(line) = lines.next_line() {
        let Ok(found) = command(alloc, line) else {
            return Err(ParseError::NoMemory);
        };
        let Some(command) = found else {
            return Err(ParseError::BadLine {
                line: commands.len() + 2,
            });
        };
        let Ok(()) = commands.push(command) else {
            return Err(ParseError::NoMemory);
        };
    }
    Ok(commands)
}

/// The command that a line gives.
fn command(alloc: Global, line: &[u8]) -> Result<Option<Command>, AllocError>
    ensures { IfOk result (λ found. found ≡ command_of line.now) }
{
    let mut words = Words::of(line);
    let Some(name) = words.next_word() else {
        return Ok(None);
    };
    if is_text(name, b"loan") {
        return Ok(loan(&mut words));
    }
    if is_text(name, b"write") {
        return write(alloc, &mut words);
    }
    if is_text(name, b"send") {
        return Ok(send(&mut words));
    }
    if is_text(name, b"receive") {
        return Ok(receive(&mut words));
    }
    if is_text(name, b"read") {
        return Ok(read(&mut words));
    }
    if is_text(name, b"release") {
        return Ok(release(&mut words));
    }
    if is_text(name, b"reclaim") {
        return Ok(reclaim(&mut words));
    }
    if is_text(name, b"discard") {
        return Ok(discard(&mut words));
    }
    if is_text(name, b"count") {
        return Ok(count(&mut words));
    }
    Ok(None)
}

fn loan(words: &mut Words<'_>) -> Option<Command>
    ensures { result ≡ loan_of words.old }
{
    let size = words.next_word()?;
    let alignment = words.next_word()?;
    words.end()?;
    Some(Command::Loan {
        size: number(size)?,
        alignment: number(alignment)?,
    })
}

fn write(alloc: Global, words: &mut Words<'_>) -> Result<Option<Command>, AllocError>
    ensures { IfOk result (λ found. found ≡ write_of words.old) }
{
    let Some(chunk) = words.next_word() else {
        return Ok(None);
    };
    let Some(at) = words.next_word() else {
        return Ok(None);
    };
    let Some(bytes) = words.next_word() else {
        return Ok(None);
    };
    if words.next_word().is_some() {
        return Ok(None);
    }
    let Some(chunk) = number(chunk) else {
        return Ok(None);
    };
    let Some(at) = number(at) else {
        return Ok(None);
    };
    let Some(bytes) = words::bytes(alloc, bytes)? else {
        return Ok(None);
    };
    Ok(Some(Command::Write {
        chunk,
        at,
        bytes: Bytes::from(bytes),
    }))
}

fn send(words: &mut Words<'_>) -> Option<Command>
    ensures { result ≡ send_of words.old }
{
    let channel = words.next_word()?;
    let chunk = words.next_word()?;
    words.end()?;
    Some(Command::Send {
        channel: number(channel)?,
        chunk: number(chunk)?,
    })
}

fn receive(words: &mut Words<'_>) -> Option<Command>
    ensures { result ≡ receive_of words.old }
{
    let channel = words.next_word()?;
    words.end()?;
    Some(Command::Receive {
        channel: number(channel)?,
    })
}

fn read(words: &mut Words<'_>) -> Option<Command>
    ensures { result ≡ read_of words.old }
{
    let channel = words.next_word()?;
    let chunk = words.next_word()?;
    let at = words.next_word()?;
    let length = words.next_word()?;
    words.end()?;
    Some(Command::Read {
        channel: number(channel)?,
        chunk: number(chunk)?,
        at: number(at)?,
        length: number(length)?,
    })
}

fn release(words: &mut Words<'_>) -> Option<Command>
    ensures { result ≡ release_of words.old }
{
    let channel = words.next_word()?;
    let chunk = words.next_word()?;
    words.end()?;
    Some(Command::Release {
        channel: number(channel)?,
        chunk: number(chunk)?,
    })
}

fn reclaim(words: &mut Words<'_>) -> Option<Command>
    ensures { result ≡ reclaim_of words.old }
{
    let channel = words.next_word()?;
    words.end()?;
    Some(Command::Reclaim {
        channel: number(channel)?,
    })
}

fn discard(words: &mut Words<'_>) -> Option<Command>
    ensures { result ≡ discard_of words.old }
{
    let chunk = words.next_word()?;
    words.end()?;
    Some(Command::Discard {
        chunk: number(chunk)?,
    })
}

fn count(words: &mut Words<'_>) -> Option<Command>
    ensures { result ≡ count_of words.old }
{
    words.end()?;
    Some(Command::Count)
}
