// Sources and sinks in memory, which tell their bytes.
ghost use Rattle.std.specs.Prelude.{◌≡◌, ◌<◌, ◌≤◌, ◌-◌, ◌↔◌, ◌⊎◌, List, [], ◌++◌, length, take, drop, Some, IsErr, IsTrue, Contains, min, IfOk, OnOk, OnErr};
ghost use Rattle.std.specs.Io.{ReadsAtMost};
ghost use Rattle.std.specs.Io.KnownBytes.{ReadConsumes, WriteAppends};
ghost use Rattle.outside_io.specs.Causes.{HasCause};
ghost use Rattle.outside_io.specs.Pieces.{TakesPiece};
ghost use Rattle.outside_io.specs.Memory.{Gives, given, taken, after_giving, after_failing, after_taking, after_refusing};

use crate::{Failed, NoMemory, Sink, Source};
use std::alloc::Global;
use std::marker::Model;

/// A source in memory that never fails: each call gives as many bytes as there is room for.
#[derive(Drop)]
pub struct QuietSource {
    bytes: Vec<u8>,
    at: usize,
}

impl Model for QuietSource {
    ghost use Rattle.std.specs.Prelude.{◌≤◌, List, ℕ, drop, length};

    ghost Value = { List ℕ };

    ghost view = { λ s. drop s.at s.bytes.items };

    ghost invariant = { λ s. s.at ≤ length s.bytes.items };
}

impl QuietSource {
    /// A source that has these bytes left.
    pub fn new(bytes: Vec<u8>) -> Self
        ensures { result ≡ bytes.items }
    {
        QuietSource { bytes, at: 0 }
    }

    /// How often it has failed: never.
    pub fn faults(&self) -> u64
        ensures { result ≡ 0 }
    {
        0
    }
}

impl Source for QuietSource {
    ghost left = { λ s. Some s };

    ghost faults = { λ _. 0 };

    /// Gives as many bytes as there is room for and as are left. It doesn't fail.
    fn read(&mut self, buffer: &mut [u8]) -> Result<usize, Failed>
        ensures bound { ReadsAtMost result buffer.new }
        ensures bytes { ReadConsumes (Some self.old) (Some self.new) result buffer.new }
        ensures cause { HasCause 0 0 result }
        ensures given { Gives (min (length buffer.old) (length self.old)) self.old self.new result }
    {
        let count = give(&self.bytes, self.at, usize::MAX, buffer);
        self.at += count;
        Ok(count)
    }
}

/// A source in memory that gives its bytes in small pieces, and fails at the calls that it was told to fail at.
#[derive(Drop)]
pub struct MemSource {
    bytes: Vec<u8>,
    at: usize,
    piece: usize,
    fails: Vec<u32>,
    calls: u64,
    faults: u64,
}

impl Model for MemSource {
    ghost use Rattle.std.specs.Prelude.{◌≤◌, drop, length};
    ghost use Rattle.outside_io.specs.Memory.{SourceInMemory};

    ghost Value = { SourceInMemory };

    ghost view = { λ s. record { left = drop s.at s.bytes.items; piece = s.piece; fails = s.fails.items; calls = s.calls; faults = s.faults } };

    ghost invariant = { λ s. (s.at ≤ length s.bytes.items) × (1 ≤ s.piece) };
}

impl MemSource {
    /// A source that has these bytes left, gives at most `piece` of them in a call (at least 1), and fails exactly at
    /// the calls of `read` whose numbers, counted from 0, are in `fails`.
    pub fn new(bytes: Vec<u8>, piece: usize, fails: Vec<u32>) -> Self
        requires { 1 ≤ piece }
        ensures { result ≡ record { left = bytes.items; piece = piece; fails = fails.items; calls = 0; faults = 0 } }
    {
        MemSource {
            bytes,
            at: 0,
            piece,
            fails,
            calls: 0,
            faults: 0,
        }
    }

    /// The bytes that are left.
    pub fn left(&self) -> &[u8]
        ensures { result.now ≡ self.now.left }
    {
        &self.bytes[self.at..]
    }

    /// How often it has failed, up to 2^64 - 1.
    pub fn faults(&self) -> u64
        ensures { result ≡ self.now.faults }
    {
        self.faults
    }
}

impl Source for MemSource {
    ghost left = { λ s. Some s.left };

    ghost faults = { λ s. s.faults };

    /// Gives as many bytes as a piece has, as there is room for and as are left. `Failed` comes exactly at the calls
    /// that it was told to fail at.
    fn read(&mut self, buffer: &mut [u8]) -> Result<usize, Failed>
        ensures bound { ReadsAtMost result buffer.new }
        ensures bytes { ReadConsumes (Some self.old.left) (Some self.new.left) result buffer.new }
        ensures cause { HasCause self.old.faults self.new.faults result }

        // Which calls fail, and how much each other call gives.
        ensures failed { IsErr result ↔ Contains self.old.fails self.old.calls }
        ensures err { OnErr result (self.new ≡ after_failing self.old) }
        ensures ok { IfOk result (λ n. (n ≡ given self.old (length buffer.old)) × (self.new ≡ after_giving self.old n)) }
    {
        let fails = is_listed(&self.fails, self.calls);
        self.calls = self.calls.saturating_add(1);
        if fails {
            self.faults = self.faults.saturating_add(1);
            return Err(Failed);
        }
        let count = give(&self.bytes, self.at, self.piece, buffer);
        self.at += count;
        Ok(count)
    }
}

// Whether the number of a call is one of those at which to fail.
fn is_listed(calls: &[u32], call: u64) -> bool
    ensures { IsTrue result ↔ Contains calls.now call }
{
    calls.iter().any(|listed| u64::from(*listed) == call)
}

// Copies what stands from `at` on, at most so many bytes and as many as there is room for.
fn give(bytes: &[u8], at: usize, most: usize, buffer: &mut [u8]) -> usize
    requires { at ≤ length bytes.now }
    ensures count { result ≡ min (min most (length buffer.old)) (length bytes.now - at) }
    ensures bytes { take result buffer.new ≡ take result (drop at bytes.now) }
{
    let left = &bytes[at..];
    let count = left.len().min(buffer.len()).min(most);
    buffer[..count].copy_from_slice(&left[..count]);
    count
}

/// A sink in memory that takes small pieces, and fails at the calls that it was told to fail at and where it is full.
#[derive(Drop)]
pub struct MemSink {
    bytes: Vec<u8>,
    room: usize,
    piece: usize,
    fails: Vec<u32>,
    calls: u64,
    faults: u64,
}

impl Model for MemSink {
    ghost use Rattle.std.specs.Prelude.{◌≤◌, ◌-◌, vec_len, vec_capacity};
    ghost use Rattle.outside_io.specs.Memory.{SinkInMemory};

    ghost Value = { SinkInMemory };

    ghost view = { λ k. record { held = k.bytes.items; room = k.room - vec_len k.bytes; piece = k.piece; fails = k.fails.items; calls = k.calls; faults = k.faults } };

    ghost invariant = { λ k. (vec_len k.bytes ≤ k.room) × (k.room ≤ vec_capacity k.bytes) × (1 ≤ k.piece) };
}

impl MemSink {
    /// A sink that holds nothing and has room for `room` bytes. It takes at most `piece` bytes in a call (at least 1),
    /// and fails exactly at the calls of `write` whose numbers, counted from 0, are in `fails`, and where bytes are
    /// handed in and no room is left. All its room is taken now; `NoMemory` comes where that room isn't there.
    pub fn new(
        alloc: Global,
        room: usize,
        piece: usize,
        fails: Vec<u32>,
    ) -> Result<MemSink, NoMemory>
        requires { 1 ≤ piece }
        ensures { IfOk result (λ k. k ≡ record { held = []; room = room; piece = piece; fails = fails.items; calls = 0; faults = 0 }) }
    {
        let Ok(bytes) = Vec::with_capacity(alloc, room) else {
            return Err(NoMemory);
        };
        Ok(MemSink {
            bytes,
            room,
            piece,
            fails,
            calls: 0,
            faults: 0,
        })
    }

    /// The bytes that it holds.
    pub fn held(&self) -> &[u8]
        ensures { result.now ≡ self.now.held }
    {
        &self.bytes
    }

    /// How often it has failed, up to 2^64 - 1.
    pub fn faults(&self) -> u64
        ensures { result ≡ self.now.faults }
    {
        self.faults
    }
}

impl Sink for MemSink {
    ghost held = { λ k. Some k.held };

    ghost faults = { λ k. k.faults };

    /// Appends as many bytes as a piece has, as were handed in and as there is room for. `Failed` comes exactly at the
    /// calls that it was told to fail at, and where bytes are handed in and no room is left.
    fn write(&mut self, piece: &[u8]) -> Result<usize, Failed>
        ensures size { TakesPiece result piece.now }
        ensures bytes { WriteAppends (Some self.old.held) (Some self.new.held) result piece.now }
        ensures cause { HasCause self.old.faults self.new.faults result }

        // Which calls fail, and how much each other call takes.
        ensures failed { IsErr result ↔ (Contains self.old.fails self.old.calls ⊎ ((0 < length piece.now) × (self.old.room ≡ 0))) }
        ensures err { OnErr result (self.new ≡ after_refusing self.old) }
        ensures ok { IfOk result (λ n. (n ≡ taken self.old (length piece.now)) × (self.new ≡ after_taking self.old (take n piece.now))) }
    {
        let fails = is_listed(&self.fails, self.calls);
        self.calls = self.calls.saturating_add(1);
        let room = self.room - self.bytes.len();
        if fails || (room == 0 && !piece.is_empty()) {
            self.faults = self.faults.saturating_add(1);
            return Err(Failed);
        }
        let count = self.piece.min(piece.len()).min(room);
        self.bytes.extend_from_slice(&piece[..count]).unwrap();
        Ok(count)
    }
}
