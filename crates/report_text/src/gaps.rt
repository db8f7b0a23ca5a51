//! Texts in which long runs of spaces are kept as numbers.

ghost use Rattle.std.specs.Prelude.{◌≡◌, ◌+◌, ◌-◌, ◌<◌, ◌≤◌, ◌++◌, [], length, take};
ghost use Rattle.std.specs.Bool.{OnFalse, OnTrue};
ghost use Rattle.report_text.specs.Gaps.{Puts, left, spread, steps};

use crate::place::{place_spaces, place_text};
use std::alloc::Global;
use std::marker::Model;

/// A run of spaces that isn't written out: how many bytes stand between it and the run before it, and how many spaces it has.
#[derive(Clone, Copy)]
pub struct Gap {
    pub before: u32,
    pub spaces: u32,
}

/// A text in which long runs of spaces are kept as numbers. Where blocks nest deep a listing is mostly spaces, and memory that is touched the first time costs more
/// than what is written there.
#[derive(Drop)]
pub struct Spaced {
    bytes: Vec<u8>,
    gaps: Vec<Gap>,
}

impl Model for Spaced {
    ghost use Rattle.std.specs.Prelude.{List, ℕ};
    ghost use Rattle.report_text.specs.Gaps.{spread};

    ghost Value = { List ℕ };

    ghost view = { λ s. spread s.gaps.items s.bytes.items };
}

impl Spaced {
    /// The text of these bytes with these gaps.
    pub(crate) fn new(bytes: Vec<u8>, gaps: Vec<Gap>) -> Spaced
        ensures { result ≡ spread gaps.items bytes.items }
    {
        Spaced { bytes, gaps }
    }

    /// A text that is written out.
    pub fn of(alloc: Global, bytes: Vec<u8>) -> Spaced
        ensures { result ≡ bytes.items }
    {
        Spaced {
            bytes,
            gaps: Vec::new(alloc),
        }
    }

    /// The whole text.
    pub fn rest(&self) -> Rest
        ensures { left result ≡ self.now }
    {
        let mut rest = Rest {
            text: &[],
            spaces: 0,
            bytes: self.bytes.as_slice(),
            gaps: self.gaps.as_slice(),
        };
        rest.turn();
        rest
    }
}

/// What is left of a text: some bytes, so many spaces behind them, and then other bytes with their gaps.
#[derive(Drop)]
pub struct Rest<'t> {
    pub text: &'t [u8],
    pub spaces: usize,
    pub bytes: &'t [u8],
    pub gaps: &'t [Gap],
}

impl<'t> Rest<'t> {
    /// Goes on to the next gap, or to the end where there is none.
    #[inline(always)]
    fn turn(&mut self)
        requires text { self.old.text.now ≡ [] }
        requires spaces { self.old.spaces ≡ 0 }
        ensures same { left self.new ≡ left self.old }
        ensures less { steps self.new ≤ steps self.old - 1 }
    {
        match self.gaps.first() {
            Some(gap) => {
                let count = (gap.before as usize).min(self.bytes.len());
                self.text = &self.bytes[..count];
                self.spaces = gap.spaces as usize;
                self.bytes = &self.bytes[count..];
                self.gaps = &self.gaps[1..];
            }
            None => {
                self.text = self.bytes;
                self.bytes = &[];
            }
        }
    }

    /// Takes the bytes before the next gap.
    pub fn take_text(&mut self) -> &'t [u8]
        ensures { result.now ++ left self.new ≡ left self.old }
    {
        let text = self.text;
        self.text = &[];
        text
    }

    /// Whether nothing is left.
    pub fn is_over(&self) -> bool
        ensures over { OnTrue result (left self.now ≡ []) }
        ensures more { OnFalse result (0 < length self.now.text.now + self.now.spaces + steps self.now) }
    {
        self.text.is_empty() && self.spaces == 0 && self.gaps.is_empty() && self.bytes.is_empty()
    }

    /// Puts bytes at a place of the buffer, as many as it has room for. What comes out is the place behind them.
    fn put_text(&mut self, buf: &mut [u8], at: usize) -> usize
        requires room { at < length buf.old }
        requires some { 0 < length self.old.text.now }
        ensures { Puts buf.old buf.new at self.old self.new result }
    {
        let count = self.text.len().min(buf.len() - at);
        let now = &self.text[..count];
        self.text = &self.text[count..];
        place_text(buf, at, now)
    }

    /// Puts spaces at a place of the buffer, as many as it has room for. What comes out is the place behind them.
    fn put_spaces(&mut self, buf: &mut [u8], at: usize) -> usize
        requires room { at < length buf.old }
        requires some { 0 < self.old.spaces }
        requires text { self.old.text.now ≡ [] }
        ensures { Puts buf.old buf.new at self.old self.new result }
    {
        let count = self.spaces.min(buf.len() - at);
        self.spaces -= count;
        place_spaces(buf, at, count)
    }

    /// Puts the bytes and the spaces before the next gap at a place of the buffer, which has room for them, and goes on to that gap. What comes out is the place
    /// behind them.
    #[inline(always)]
    fn put_all(&mut self, buf: &mut [u8], at: usize) -> usize
        requires room { at + length self.old.text.now + self.old.spaces ≤ length buf.old }
        requires more { 0 < length self.old.text.now + self.old.spaces + steps self.old }
        ensures { Puts buf.old buf.new at self.old self.new result }
    {
        let behind = place_text(buf, at, self.text);
        let end = place_spaces(buf, behind, self.spaces);
        self.text = &[];
        self.spaces = 0;
        self.turn();
        end
    }

    /// Puts what comes next at a place of the buffer, as much as it has room for. What comes out is the place behind it.
    #[inline(always)]
    fn step(&mut self, buf: &mut [u8], at: usize) -> usize
        requires room { at < length buf.old }
        requires more { 0 < length self.old.text.now + self.old.spaces + steps self.old }
        ensures { Puts buf.old buf.new at self.old self.new result }
    {
        let room = buf.len() - at;
        if self.spaces <= room && self.text.len() <= room - self.spaces {
            return self.put_all(buf, at);
        }
        if self.text.is_empty() {
            return self.put_spaces(buf, at);
        }
        self.put_text(buf, at)
    }

    /// Puts the next bytes into the buffer, as many as it has room for, and answers how many: none only where nothing is left.
    pub fn fill(&mut self, buf: &mut [u8]) -> usize
        ensures within { result ≤ length buf.new }
        ensures put { take result buf.new ++ left self.new ≡ left self.old }
        ensures ended { result ≡ 0 → 0 < length buf.old → left self.old ≡ [] }
    {
        let mut len = 0;
        while len < buf.len() && !self.is_over() {
            len = self.step(buf, len);
        }
        len
    }
}
