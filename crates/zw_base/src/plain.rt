//! A source and a sink that never fail. They serve callers that count no faults.

ghost use Rattle.std.specs.Prelude.{◌≡◌, ℕ, ◌<◌, ◌≤◌, ◌++◌, length, min, take, drop, [], IfOk, OnOk, OnErr, IsOk, Some, None};
ghost use Rattle.std.specs.Io.{ReadsAtMost, WritesAtMost};
ghost use Rattle.std.specs.Io.KnownBytes.{ReadConsumes, WriteAppends};
ghost use Rattle.zw_base.specs.Faults.{Rose};

use crate::{Bytes, Failed, NoMemory, Sink, Source};
use std::alloc::Global;
use std::marker::Model;

/// A source that tells its bytes and never fails. Contracts see the bytes left.
#[derive(Debug, Drop)]
pub struct PlainSource {
    bytes: Bytes,
    at: usize,
}

impl Model for PlainSource {
    ghost use Rattle.std.specs.Prelude.{ℕ, List, ◌≤◌, drop, length};

    ghost Value = { List ℕ };

    ghost view = { λ s. drop s.at s.bytes };

    ghost invariant = { λ s. s.at ≤ length s.bytes };
}

impl PlainSource {
    pub fn new(alloc: Global, bytes: &[u8]) -> Result<PlainSource, NoMemory>
        ensures { IfOk result (λ s. s ≡ bytes.now) }
    {
        let bytes = Bytes::from_slice(alloc, bytes)?;
        Ok(PlainSource { bytes, at: 0 })
    }
}

impl Source for PlainSource {
    ghost use Rattle.std.specs.Prelude.{Some};

    ghost left = { λ s. Some s };

    ghost faults = { λ _. 0 };

    fn read(&mut self, into: &mut [u8]) -> Result<usize, Failed>
        ensures at_most { ReadsAtMost result into.new }
        ensures consumes { ReadConsumes (Some self.old) (Some self.new) result into.new }
        ensures never_falls { 0 ≤ 0 }
        ensures failed { OnErr result (Rose 0 0) }
        ensures uncounted { OnOk result (◌≡◌ {A = ℕ} 0 0) }
        ensures gives { IfOk result (λ n. n ≡ min (length into.new) (length self.old)) }
        ensures never_fails { IsOk result }
    {
        let count = copy_prefix(&self.bytes.as_slice()[self.at..], into);
        self.at += count;
        Ok(count)
    }
}

// Copies what fits from the prefix of `from` to the prefix of `into`, and answers how much.
fn copy_prefix(from: &[u8], into: &mut [u8]) -> usize
    ensures count { result ≡ min (length into.new) (length from.now) }
    ensures copied { from.now ≡ take result into.new ++ drop result from.now }
    ensures fits { result ≤ length into.new }
    ensures room { length into.new ≡ length into.old }
    ensures end { result ≡ 0 → 0 < length into.new → from.now ≡ [] }
{
    let count = from.len().min(into.len());
    into[..count].copy_from_slice(&from[..count]);
    count
}

/// A sink that takes every piece whole, keeps nothing, tells nothing and never fails.
#[derive(Clone, Copy, Debug)]
pub struct PlainSink;

impl PlainSink {
    pub fn new() -> PlainSink {
        PlainSink
    }
}

impl Sink for PlainSink {
    ghost use Rattle.std.specs.Prelude.{None};

    ghost written = { λ _. None };

    ghost faults = { λ _. 0 };

    fn write(&mut self, piece: &[u8]) -> Result<usize, Failed>
        ensures at_most { WritesAtMost result piece.now }
        ensures takes { IfOk result (λ taken. 0 < length piece.now → 0 < taken) }
        ensures appends { WriteAppends None None result piece.now }
        ensures never_falls { 0 ≤ 0 }
        ensures failed { OnErr result (Rose 0 0) }
        ensures uncounted { OnOk result (◌≡◌ {A = ℕ} 0 0) }
        ensures whole { result ≡ Ok (length piece.now) }
    {
        Ok(piece.len())
    }
}
