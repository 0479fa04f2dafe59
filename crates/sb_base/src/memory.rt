//! A library and a sink in memory, which tell what they hold and fail at the calls that they are told to.
ghost use Rattle.std.specs.Prelude.{◌≡◌, ◌↔◌, ◌<◌, ◌≤◌, ◌+◌, ◌-◌, List, [], Option, Some, None, IsTrue, IsErrOf, OnOk, length, map, vec_len, vec_capacity};
ghost use Rattle.std.specs.Option.{option_copied};
ghost use Rattle.sb_base.specs.Outside.{counted, Rose};
ghost use Rattle.sb_base.specs.Memory.{contents, held_in, fails_at, faults_after};

use crate::outside::{FetchFault, Fetched, Library, PutFault, Sink, counted};
use std::marker::Model;

/// The calls of a library or a sink: which of them fail, how many there were, and how many of those failed.
///
/// Both counts stand at the last value of a `u64`.
#[derive(Drop)]
struct Calls {
    failing: Vec<u64>,
    count: u64,
    faults: u64,
}

impl Calls {
    fn new(failing: Vec<u64>) -> Calls
        ensures failing { result.failing.items ≡ failing.items }
        ensures count { result.count ≡ 0 }
        ensures faults { result.faults ≡ 0 }
    {
        Calls {
            failing,
            count: 0,
            faults: 0,
        }
    }

    /// Counts one more call, and says whether it fails.
    fn next_fails(&mut self) -> bool
        ensures fails { result ≡ fails_at self.old.failing.items self.old.count }
        ensures failing { self.new.failing.items ≡ self.old.failing.items }
        ensures count { self.new.count ≡ counted self.old.count }
        ensures faults { self.new.faults ≡ faults_after self.old.failing.items self.old.count
            self.old.faults }
        ensures rose { IsTrue result → Rose self.old.faults self.new.faults }
        ensures grows { self.old.faults ≤ self.new.faults }
    {
        let fails = self.failing.contains(&self.count);
        self.count = counted(self.count);
        if fails {
            self.faults = counted(self.faults);
        }
        fails
    }
}

/// Files in memory, each a name and its bytes. Of equal names the first counts.
///
/// The calls of `fetch` whose number from 0 stands in `failing` fail.
#[derive(Drop)]
pub struct MemLibrary {
    files: Vec<(Vec<u8>, Vec<u8>)>,
    calls: Calls,
}

impl Model for MemLibrary {
    ghost use Rattle.sb_base.specs.Memory.{MemFiles, contents};

    ghost Value = { MemFiles };

    ghost view = { λ l. record { files = contents l.files.items; failing = l.calls.failing.items; calls = l.calls.count; faults = l.calls.faults } };
}

impl MemLibrary {
    pub fn new(files: Vec<(Vec<u8>, Vec<u8>)>, failing: Vec<u64>) -> MemLibrary
        ensures { result ≡ record {
          files = contents files.items;
          failing = failing.items;
          calls
              = 0;
          faults = 0;
        } }
    {
        MemLibrary {
            files,
            calls: Calls::new(failing),
        }
    }
}

/// The bytes of the first file of that name.
fn find<'a>(files: &'a [(Vec<u8>, Vec<u8>)], name: &[u8]) -> Option<&'a [u8]>
    ensures { option_copied result ≡ held_in (contents files.now) name.now }
{
    for (held, bytes) in files {
        if held.as_slice() == name {
            return Some(bytes.as_slice());
        }
    }
    None
}

impl Library for MemLibrary {
    ghost use Rattle.std.specs.Prelude.{Some};
    ghost use Rattle.sb_base.specs.Memory.{held_in};

    ghost held = { λ l. Some (held_in l.files) };

    ghost faults = { λ l. l.faults };

    ghost use Rattle.std.specs.Prelude.{◌≡◌, ◌↔◌, IsTrue, IsErrOf};
    ghost use Rattle.sb_base.specs.Outside.{HasFetchCause, Appends, IsExact};
    ghost use Rattle.sb_base.specs.Memory.{fails_at, after_fetch};

    /// It fails exactly at the calls that it was made to fail at.
    fn fetch(
        &mut self,
        name: &[u8],
        limit: usize,
        into: &mut Vec<u8>,
    ) -> Result<Fetched, FetchFault>
        ensures held { Some (held_in self.new.files) ≡ Some (held_in self.old.files) }
        ensures cause { HasFetchCause self.old.faults self.new.faults result }
        ensures appended { Appends result limit into.old.items into.new.items }
        ensures exact { IsExact (Some (held_in self.old.files)) name.now limit into.old.items
            into.new.items result }
        ensures fails { IsErrOf result FetchFault.Failed
            ↔ IsTrue (fails_at self.old.failing self.old.calls) }
        ensures after { self.new ≡ after_fetch self.old }
    {
        if self.calls.next_fails() {
            return Err(FetchFault::Failed);
        }
        let Some(bytes) = find(&self.files, name) else {
            return Ok(Fetched::Absent);
        };
        if bytes.len() > limit {
            return Ok(Fetched::TooLong);
        }
        into.extend_from_slice(bytes)?;
        Ok(Fetched::Held)
    }
}

/// A sink in memory: the bytes of its buffer, and then those that are put.
///
/// The calls of `put` whose number from 0 stands in `failing` fail, and append nothing.
#[derive(Drop)]
pub struct MemSink {
    buffer: Vec<u8>,
    calls: Calls,
}

impl Model for MemSink {
    ghost use Rattle.std.specs.Prelude.{◌-◌, vec_len, vec_capacity};
    ghost use Rattle.sb_base.specs.Memory.{MemBytes};

    ghost Value = { MemBytes };

    ghost view = { λ s. record { content = s.buffer.items; room = vec_capacity s.buffer - vec_len s.buffer; failing = s.calls.failing.items; calls = s.calls.count; faults = s.calls.faults } };
}

impl MemSink {
    pub fn new(buffer: Vec<u8>, failing: Vec<u64>) -> MemSink
        ensures { result ≡ record {
          content = buffer.items;
          room
              = vec_capacity buffer - vec_len buffer;
          failing = failing.items;
          calls = 0;
          faults
              = 0;
        } }
    {
        MemSink {
            buffer,
            calls: Calls::new(failing),
        }
    }

    /// The bytes written: the buffer's, and then those that were put.
    pub fn bytes(&self) -> &[u8]
        ensures { result.now ≡ self.now.content }
    {
        self.buffer.as_slice()
    }
}

impl Sink for MemSink {
    ghost use Rattle.std.specs.Prelude.{Some};

    ghost written = { λ s. Some s.content };

    ghost faults = { λ s. s.faults };

    ghost use Rattle.std.specs.Prelude.{◌≡◌, ◌↔◌, ◌<◌, ◌≤◌, ◌+◌, IsTrue, IsErrOf, OnOk, OnErr, length};
    ghost use Rattle.sb_base.specs.Outside.{counted, HasPutCause, PutsPiece};
    ghost use Rattle.sb_base.specs.Memory.{fails_at, faults_after};

    /// It fails exactly at the calls that it was made to fail at, and takes no memory where the spare room of the
    /// buffer holds the piece.
    fn put(&mut self, piece: &[u8]) -> Result<(), PutFault>
        ensures puts { PutsPiece (Some self.old.content) (Some self.new.content) piece.now result }
        ensures cause { HasPutCause self.old.faults self.new.faults result }
        ensures fails { IsErrOf result PutFault.Failed
            ↔ IsTrue (fails_at self.old.failing self.old.calls) }
        ensures memory_only_without_room { IsErrOf result PutFault.Memory → self.old.room
            < length piece.now }
        ensures unchanged { OnErr result (self.new.content ≡ self.old.content) }
        ensures room { OnOk result (self.old.room ≤ self.new.room + length piece.now) }
        ensures kept_room { OnErr result (self.old.room ≤ self.new.room) }
        ensures failing { self.new.failing ≡ self.old.failing }
        ensures calls { self.new.calls ≡ counted self.old.calls }
        ensures faults { self.new.faults ≡ faults_after self.old.failing self.old.calls
            self.old.faults }
    {
        if self.calls.next_fails() {
            return Err(PutFault::Failed);
        }
        self.buffer.extend_from_slice(piece)?;
        Ok(())
    }
}
