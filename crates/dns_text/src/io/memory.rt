//! Sources and sinks in memory, which fail at the calls that they are given.

ghost use Rattle.std.specs.Prelude.{◌≡◌, ℕ, ◌+◌, ◌-◌, ◌<◌, ◌≤◌, ◌↔◌, ◌⊎◌, [], ◌++◌, drop, MatchResult, min, length, take, Some, None, false, true, Contains, IsErr, IsOk, OnOk, OnErr, IfOk};
ghost use Rattle.std.specs.Io.{ReadsAtMost, WritesAtMost};
ghost use Rattle.std.specs.Io.KnownBytes.{ReadConsumes, WriteAppends, Keeps};
ghost use Rattle.dns_text.specs.Devices.{Supply, Store};
ghost use Rattle.dns_text.specs.Outside.{HasCause, BecomesFlag, UnchangedAfter, FlagUnchanged, WriteFlag};

use crate::io::traits::{Failed, Sink, Source, count_fault};
use std::marker::Model;

/// Gives a text in pieces, and fails at the calls whose numbers it was given.
#[derive(Drop)]
pub struct TextSource<'a> {
    rest: &'a [u8],
    piece: usize,
    failing: &'a [u64],
    calls: u64,
    faults: u64,
}

impl<'a> Model for TextSource<'a> {
    ghost Value = { Supply };

    ghost view = { λ s. record { left = s.rest.now; piece = s.piece; failing = s.failing.now; calls = s.calls; faults = s.faults } };

    ghost invariant = { λ s. 0 < s.piece };
}

impl<'a> TextSource<'a> {
    /// Gives at most `piece` octets per read, and fails at the calls whose numbers, from 0, are in
    /// `failing`.
    pub fn new(text: &'a [u8], piece: usize, failing: &'a [u64]) -> Self
        requires { 0 < piece }
        ensures { result ≡ record { left = text.now; piece = piece; failing = failing.now; calls = 0; faults = 0 } }
    {
        TextSource {
            rest: text,
            piece,
            failing,
            calls: 0,
            faults: 0,
        }
    }
}

impl<'a> Source for TextSource<'a> {
    ghost left = { λ s. Some s.left };

    ghost faults = { λ s. s.faults };

    fn read(&mut self, into: &mut [u8]) -> Result<usize, Failed>
        ensures bound { ReadsAtMost result into.new }
        ensures bytes { ReadConsumes (Some self.old.left) (Some self.new.left) result into.new }
        ensures cause { HasCause self.old.faults self.new.faults result }
        ensures fails { IsErr result ↔ Contains self.old.failing self.old.calls }
        ensures taken { IfOk result (λ n. n ≡ min (min (length self.old.left) self.old.piece) (length into.new)) }
        ensures trailing { UnchangedAfter into.old into.new result }
        ensures calls { self.new.calls ≡ min (self.old.calls + 1) u64.MAX }
        ensures same { (self.new.piece ≡ self.old.piece) × (self.new.failing ≡ self.old.failing) }
    {
        let call = self.calls;
        self.calls = self.calls.saturating_add(1);
        if self.failing.contains(&call) {
            return Err(count_fault(&mut self.faults));
        }
        let count = self.rest.len().min(self.piece).min(into.len());
        let (prefix, rest) = self.rest.split_at(count);
        into[..count].copy_from_slice(prefix);
        self.rest = rest;
        Ok(count)
    }
}

/// Gives a text, and never fails.
#[derive(Drop)]
pub struct PlainSource<'a> {
    rest: &'a [u8],
}

impl<'a> Model for PlainSource<'a> {
    ghost use Rattle.std.specs.Prelude.{List, ℕ};

    ghost Value = { List ℕ };

    ghost view = { λ s. s.rest.now };
}

impl<'a> PlainSource<'a> {
    /// Gives the text, as much in each read as there is room for.
    pub fn new(text: &'a [u8]) -> Self
        ensures { result ≡ text.now }
    {
        PlainSource { rest: text }
    }
}

impl<'a> Source for PlainSource<'a> {
    ghost left = { λ s. Some s };

    ghost faults = { λ _. 0 };

    fn read(&mut self, into: &mut [u8]) -> Result<usize, Failed>
        ensures bound { ReadsAtMost result into.new }
        ensures bytes { ReadConsumes (Some self.old) (Some self.new) result into.new }
        ensures cause { HasCause 0 0 result }
        ensures ok { IsOk result }
        ensures taken { IfOk result (λ n. n ≡ min (length self.old) (length into.new)) }
        ensures trailing { UnchangedAfter into.old into.new result }
    {
        let count = self.rest.len().min(into.len());
        let (prefix, rest) = self.rest.split_at(count);
        into[..count].copy_from_slice(prefix);
        self.rest = rest;
        Ok(count)
    }
}

/// Takes octets into a buffer, and fails at the calls whose numbers it was given and if the buffer
/// is full.
#[derive(Drop)]
pub struct TextSink<'b> {
    buffer: &'b mut [u8],
    len: usize,
    piece: usize,
    failing: &'b [u64],
    is_flushed: bool,
    calls: u64,
    faults: u64,
}

impl<'b> Model for TextSink<'b> {
    ghost Value = { Store };

    ghost view = { λ s. record {
      written = take s.len s.buffer.now;
      free = drop s.len s.buffer.now;
      piece = s.piece;
      failing = s.failing.now;
      flushed = s.is_flushed;
      calls = s.calls;
      faults = s.faults;
    } };

    ghost invariant = { λ s. (0 < s.piece) × (s.len ≤ length s.buffer.now) };
}

impl<'b> TextSink<'b> {
    /// Takes at most `piece` octets per write, and fails at the calls whose numbers, from 0, are in
    /// `failing`; `write` and `flush` are numbered together.
    pub fn new(buffer: &'b mut [u8], piece: usize, failing: &'b [u64]) -> Self
        requires { 0 < piece }
        ensures { result ≡ record {
          written = [];
          free = buffer.entry.now;
          piece = piece;
          failing = failing.now;
          flushed = false;
          calls = 0;
          faults = 0;
        } }
    {
        TextSink {
            buffer,
            len: 0,
            piece,
            failing,
            is_flushed: false,
            calls: 0,
            faults: 0,
        }
    }

    /// The octets that it has taken.
    pub fn written(&self) -> &[u8]
        ensures { result.now ≡ self.now.written }
    {
        &self.buffer[..self.len]
    }

    /// Whether all that was taken has arrived.
    pub fn flushed(&self) -> bool
        ensures { result ≡ self.now.flushed }
    {
        self.is_flushed
    }

    /// Ends the sink, and gives the buffer back: the octets that were taken, and after them those that
    /// were there before.
    pub fn into_buffer(self) -> &'b mut [u8]
        ensures { result.now ≡ self.entry.written ++ self.entry.free }
    {
        self.buffer
    }
}

impl<'b> Sink for TextSink<'b> {
    ghost written = { λ s. Some s.written };

    ghost is_flushed = { λ s. Some s.flushed };

    ghost faults = { λ s. s.faults };

    fn write(&mut self, piece: &[u8]) -> Result<usize, Failed>
        ensures bound { WritesAtMost result piece.now }
        ensures some { IfOk result (λ n. 0 < length piece.now → 0 < n) }
        ensures bytes { WriteAppends (Some self.old.written) (Some self.new.written) result piece.now }
        ensures flag { WriteFlag (Some self.old.flushed) (Some self.new.flushed) result }
        ensures cause { HasCause self.old.faults self.new.faults result }
        ensures fails { IsErr result ↔ (Contains self.old.failing self.old.calls
            ⊎ ((0 < length piece.now) × (self.old.free ≡ []))) }
        ensures taken { IfOk result (λ n. n ≡ min (min (length piece.now) self.old.piece) (length self.old.free)) }
        ensures free { MatchResult result (λ n. self.new.free ≡ drop n self.old.free) (λ _. self.new.free ≡ self.old.free) }
        ensures calls { self.new.calls ≡ min (self.old.calls + 1) u64.MAX }
        ensures same { (self.new.piece ≡ self.old.piece) × (self.new.failing ≡ self.old.failing) }
    {
        let call = self.calls;
        self.calls = self.calls.saturating_add(1);
        let room = self.buffer.len() - self.len;
        if self.failing.contains(&call) || (room == 0 && !piece.is_empty()) {
            return Err(count_fault(&mut self.faults));
        }
        let count = piece.len().min(self.piece).min(room);
        if count > 0 {
            self.buffer[self.len..self.len + count].copy_from_slice(&piece[..count]);
            self.len += count;
            self.is_flushed = false;
        }
        Ok(count)
    }

    fn flush(&mut self) -> Result<(), Failed>
        ensures bytes { Keeps (Some self.old.written) (Some self.new.written) }
        ensures flushed { OnOk result (BecomesFlag (Some self.old.flushed) (Some self.new.flushed) true) }
        ensures unchanged { OnErr result (FlagUnchanged (Some self.old.flushed) (Some self.new.flushed)) }
        ensures cause { HasCause self.old.faults self.new.faults result }
        ensures fails { IsErr result ↔ Contains self.old.failing self.old.calls }
        ensures calls { self.new.calls ≡ min (self.old.calls + 1) u64.MAX }
        ensures same { (self.new.free ≡ self.old.free) × (self.new.piece ≡ self.old.piece) × (self.new.failing ≡ self.old.failing) }
    {
        let call = self.calls;
        self.calls = self.calls.saturating_add(1);
        if self.failing.contains(&call) {
            return Err(count_fault(&mut self.faults));
        }
        self.is_flushed = true;
        Ok(())
    }
}

/// Takes every piece whole, reports nothing and never fails.
#[derive(Drop)]
pub struct NullSink;

impl Sink for NullSink {
    ghost written = { λ _. None };

    ghost is_flushed = { λ _. None };

    ghost faults = { λ _. 0 };

    fn write(&mut self, piece: &[u8]) -> Result<usize, Failed>
        ensures bound { WritesAtMost result piece.now }
        ensures some { IfOk result (λ n. 0 < length piece.now → 0 < n) }
        ensures bytes { WriteAppends None None result piece.now }
        ensures flag { WriteFlag None None result }
        ensures cause { HasCause 0 0 result }
        ensures whole { result ≡ Ok (length piece.now) }
    {
        Ok(piece.len())
    }

    fn flush(&mut self) -> Result<(), Failed>
        ensures bytes { Keeps None None }
        ensures flushed { OnOk result (BecomesFlag None None true) }
        ensures unchanged { OnErr result (FlagUnchanged None None) }
        ensures cause { HasCause 0 0 result }
        ensures ok { IsOk result }
    {
        Ok(())
    }
}
