//! Files in memory, whose faults are listed.

ghost use Rattle.std.specs.Prelude.{◌≡◌, ◌+◌, ◌-◌, ◌^◌, ◌<◌, ◌≤◌, ◌↔◌, min, ℕ, List as ListOf, [], length, take, drop, map, Some, None, IfOk, OnOk, OnErr, IsErr, IsTrue, IfSome, option_copied};
ghost use Rattle.mw_outside.specs.Contents.{get};
ghost use Rattle.mw_outside.specs.FilesInMemory.{named};

use crate::faults::FaultCount;
use crate::{Failed, Files};
use mw_text::List;
use std::alloc::Global;

/// A file in memory.
#[derive(Drop)]
pub struct TestFile {
    pub name: List<u8>,
    pub bytes: List<u8>,
}

/// Files in memory. A read fails where its number is listed, and where no file has the name.
#[derive(Drop)]
pub struct TestFiles {
    alloc: Global,
    files: List<TestFile>,
    fail: List<u64>,
    calls: u64,
    reach: u64,
    faults: FaultCount,
    last_failed: Option<List<u8>>,
}

impl TestFiles {
    ghost use Rattle.mw_outside.specs.FilesInMemory.{named, files_in, reads_of, reach_of, failing_reads, read_faults, last_name};

    /// These files, of which the first of a name counts. `fail` lists the reads that fail, counted from 1.
    pub fn new(alloc: Global, files: List<TestFile>, fail: List<u64>) -> TestFiles
        ensures files { files_in result ≡ map named files }
        ensures fail { failing_reads result ≡ fail }
        ensures unread { reads_of result ≡ 0 }
        ensures unasked { reach_of result ≡ 0 }
        ensures faultless { read_faults result ≡ 0 }
        ensures nameless { last_name result ≡ None }
    {
        TestFiles {
            alloc,
            files,
            fail,
            calls: 0,
            reach: 0,
            faults: FaultCount::new(),
            last_failed: None,
        }
    }
}

impl Files for TestFiles {
    ghost use Rattle.mw_outside.specs.Faults.{HasCause, next_call};
    ghost use Rattle.mw_outside.specs.Contents.{Contents, Has, TellsOnly};
    ghost use Rattle.mw_outside.specs.Asked.{AsksTo};
    ghost use Rattle.mw_outside.specs.FilesInMemory.{files_in, reads_of, reach_of, failing_reads, read_faults, last_name, FailsAt};

    ghost contents = { λ files. Some (files_in files) };

    ghost faults = { read_faults };

    ghost last_failed = { last_name };

    ghost reach = { λ files. Some (reach_of files) };

    fn read_at(&mut self, name: &str, at: u64, into: &mut [u8]) -> Result<usize, Failed>
        ensures kept { files_in self.new ≡ files_in self.old }
        ensures cause { HasCause (read_faults self.old) (read_faults self.new) result }
        ensures stays { OnOk result (read_faults self.new ≡ read_faults self.old) }
        ensures counted { read_faults self.new ≤ 2 ^ 64 - 1 }

        ensures failed_name { OnErr result (TellsOnly name.now (last_name self.new)) }
        ensures name_stays { OnOk result (last_name self.new ≡ last_name self.old) }

        ensures asks { AsksTo (Some (reach_of self.old)) (Some (reach_of self.new)) (at + length into.old) }
        ensures within { IfOk result (λ count. count ≤ length into.old) }
        ensures bytes { IfOk result (λ count. Has (Some (files_in self.old)) name.now
            (λ file. take count into.new ≡ take count (drop at file))) }
        ensures end { IfOk result (λ count. 0 < length into.old → Has (Some (files_in self.old)) name.now
            (λ file. (count ≡ 0) ↔ (length file ≤ at))) }

        // It fails exactly so.
        ensures fails { IsErr result ↔ FailsAt self.old name.now }
        ensures calls { reads_of self.new ≡ next_call (reads_of self.old) }
        ensures listed { failing_reads self.new ≡ failing_reads self.old }
    {
        self.calls = self.calls.saturating_add(1);
        self.reach = self.reach.max(at.saturating_add(into.len() as u64));
        if self.fail.items.contains(&self.calls) {
            self.count_fault(name);
            return Err(Failed);
        }
        match bytes_named(&self.files.items, name.as_bytes()) {
            Some(bytes) => Ok(copy_piece(bytes, at, into)),
            None => {
                self.count_fault(name);
                Err(Failed)
            }
        }
    }
}

impl TestFiles {
    // Counts a fault and keeps the name, where there is memory for it.
    fn count_fault(&mut self, name: &str)
        ensures counted { self.new.faults.value ≡ min (self.old.faults.value + 1) (2 ^ 64 - 1) }
        ensures named { IfSome self.new.last_failed (λ told. told ≡ name.now) }
        ensures files { self.new.files ≡ self.old.files }
        ensures fail { self.new.fail ≡ self.old.fail }
        ensures calls { self.new.calls ≡ self.old.calls }
        ensures reach { self.new.reach ≡ self.old.reach }
    {
        self.faults.rise();
        self.last_failed = match name.as_bytes().to_vec(self.alloc) {
            Ok(items) => Some(List { items }),
            Err(_) => None,
        };
    }
}

// The bytes of the first file of a name.
fn bytes_named<'a>(files: &'a [TestFile], name: &[u8]) -> Option<&'a [u8]>
    ensures { option_copied result ≡ get (map named files.now) name.now }
{
    for file in files {
        if file.name.items.as_slice() == name {
            return Some(&file.bytes.items);
        }
    }
    None
}

// Copies bytes from a place on, as many as there are and as the piece takes, and says how many.
fn copy_piece(bytes: &[u8], at: u64, into: &mut [u8]) -> usize
    ensures within { result ≤ length into.old }
    ensures bytes { take result into.new ≡ take result (drop at bytes.now) }
    ensures end { 0 < length into.old → ((result ≡ 0) ↔ (length bytes.now ≤ at)) }
{
    let at = at.min(bytes.len() as u64) as usize;
    let count = (bytes.len() - at).min(into.len());
    into[..count].copy_from_slice(&bytes[at..at + count]);
    count
}
