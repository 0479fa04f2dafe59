//! The host's files and standard output, as a library and a sink. Nothing is told of their content.
ghost use Rattle.std.specs.Prelude.{◌≡◌, ◌≤◌, ◌+◌, ℕ, List, Option, None, Ok, OnOk, OnErr, IfErr, length, take};
ghost use Rattle.std.specs.Io.KnownBytes.{Appends as Writes};
ghost use Rattle.sb_base.specs.Outside.{Appends, ReadsWhole, ReadsUpTo, HasPut, Rose};

use crate::outside::{FetchFault, Fetched, Library, PutFault, Sink, counted};
use std::io::{self, ErrorKind, Read, Write};
use std::marker::Model;
use std::rt::Files;
use std::{fs, str};

/// The host's files, by the paths that their names are.
#[derive(Drop)]
pub struct FolderLibrary<'a, R: Files> {
    rt: &'a R,
    faults: u64,
}

impl<'a, R: Files> FolderLibrary<'a, R> {
    pub fn new(rt: &'a R) -> FolderLibrary<'a, R>
        ensures faults { ⟦<FolderLibrary<'a, R> as Library>⟧.faults result ≡ 0 }
        ensures told { ⟦<FolderLibrary<'a, R> as Library>⟧.held result ≡ None }
    {
        FolderLibrary { rt, faults: 0 }
    }

    /// Counts a failure.
    fn failed(&mut self) -> FetchFault
        ensures failed { result ≡ FetchFault.Failed }
        ensures rose { Rose self.old.faults self.new.faults }
        ensures grows { self.old.faults ≤ self.new.faults }
    {
        self.faults = counted(self.faults);
        FetchFault::Failed
    }
}

/// Appends what is left of `file`, unless it is longer than `limit`. At most one byte more is read.
fn read_on<F: Read>(file: &mut F, limit: usize, into: &mut Vec<u8>) -> Result<Fetched, FetchFault>
    ensures before { take (length into.old.items) into.new.items ≡ into.old.items }
    ensures limit { length into.new.items ≤ length into.old.items + limit }
    ensures whole { ReadsWhole (F.remaining file.old) limit into.old.items into.new.items result }
    ensures no_further { ReadsUpTo (limit + 1) (F.remaining file.old) (F.remaining file.new) }
{
    let mut buffer = [0; 4096];
    let mut room = limit;
    loop {
        let wanted = buffer.len().min(room.saturating_add(1));
        let Ok(count) = file.read(&mut buffer[..wanted]) else {
            return Err(FetchFault::Failed);
        };
        if count == 0 {
            return Ok(Fetched::Held);
        }
        if count > room {
            return Ok(Fetched::TooLong);
        }
        into.extend_from_slice(&buffer[..count])?;
        room -= count;
    }
}

/// Appends the whole of `file`, if it is at most `limit` long, and else nothing.
fn read_whole<F: Read>(
    file: &mut F,
    limit: usize,
    into: &mut Vec<u8>,
) -> Result<Fetched, FetchFault>
    ensures appended { Appends result limit into.old.items into.new.items }
    ensures whole { ReadsWhole (F.remaining file.old) limit into.old.items into.new.items result }
    ensures no_further { ReadsUpTo (limit + 1) (F.remaining file.old) (F.remaining file.new) }
{
    let before = into.len();
    let answer = read_on(file, limit, into);
    if answer != Ok(Fetched::Held) {
        into.truncate(before);
    }
    answer
}

impl<'a, R: Files> Library for FolderLibrary<'a, R> {
    ghost use Rattle.std.specs.Prelude.{None};

    ghost held = { λ _. None };

    ghost faults = { λ l. l.faults };

    fn fetch(
        &mut self,
        name: &[u8],
        limit: usize,
        into: &mut Vec<u8>,
    ) -> Result<Fetched, FetchFault> {
        let Ok(path) = str::from_utf8(name) else {
            return Ok(Fetched::Absent);
        };
        let mut file = match fs::open(self.rt, path) {
            Ok(file) => file,
            Err(error) if error.kind() == ErrorKind::NotFound => return Ok(Fetched::Absent),
            Err(_) => return Err(self.failed()),
        };
        match read_whole(&mut file, limit, into) {
            Err(FetchFault::Failed) => Err(self.failed()),
            answer => answer,
        }
    }
}

/// The host's standard output.
#[derive(Drop)]
pub struct OutSink<'a, R: Print> {
    rt: &'a R,
    faults: u64,
}

impl<'a, R: Print> OutSink<'a, R> {
    pub fn new(rt: &'a R) -> OutSink<'a, R>
        ensures faults { ⟦<OutSink<'a, R> as Sink>⟧.faults result ≡ 0 }
        ensures told { ⟦<OutSink<'a, R> as Sink>⟧.written result ≡ None }
    {
        OutSink { rt, faults: 0 }
    }
}

/// Writes the whole of `piece`. A write that takes nothing is a fault.
fn write_whole<W: Write>(out: &mut W, piece: &[u8]) -> Result<(), PutFault>
    ensures whole { OnOk result (Writes (W.contents out.old) (W.contents out.new) piece.now) }
    ensures part { OnErr result
        ((left : List ℕ) × HasPut (W.contents out.old) (W.contents out.new) piece.now left) }
    ensures failed { IfErr result (λ fault. fault ≡ PutFault.Failed) }
{
    let mut rest = piece;
    while !rest.is_empty() {
        match out.write(rest) {
            Ok(0) | Err(_) => return Err(PutFault::Failed),
            Ok(count) => rest = &rest[count..],
        }
    }
    Ok(())
}

impl<'a, R: Print> Sink for OutSink<'a, R> {
    ghost use Rattle.std.specs.Prelude.{None};

    ghost written = { λ _. None };

    ghost faults = { λ s. s.faults };

    fn put(&mut self, piece: &[u8]) -> Result<(), PutFault> {
        let mut out = io::writer(self.rt);
        let answer = write_whole(&mut out, piece);
        if answer.is_err() {
            self.faults = counted(self.faults);
        }
        answer
    }
}
