//! The files of the machine.

ghost use Rattle.std.specs.Prelude.{◌≡◌, ◌<◌, ◌≤◌, ◌↔◌, Some, None, length, take, drop, IfOk, IfSome};
ghost use Rattle.std.proofs.Props.{props};
ghost use Rattle.mw_outside.specs.Contents.{Has};

use crate::faults::FaultCount;
use crate::folder::{Folder, Stamp};
use crate::{Failed, Files};
use mw_text::{List, list_of, same_bytes};
use std::io;
use std::io::ErrorKind;

/// The files of a folder, as those of the machine by their paths. A read from a file's start opens it, and the reads
/// behind go through that one handle, to the file's end or until another name is read. It is a fault where the file
/// was written to since it was opened.
#[derive(Drop)]
pub struct DirFiles<D: Folder + Drop> {
    folder: D,
    reading: Option<Reading<D>>,
    faults: FaultCount,
    ghost named: { IfSome reading (λ it. Has (D.contents folder) it.name (λ file. D.held it.handle ≡ Some file)) } by { Prim.hlevel props },
}

// A file that is being read: its name, its handle, and its stamp when it was opened.
#[derive(Drop)]
struct Reading<D: Folder> {
    name: List<u8>,
    handle: D::Handle,
    stamp: Stamp,
}

impl<D: Folder + Drop> DirFiles<D> {
    /// The files that a folder reaches, as the machine's that the runtime hands in.
    pub fn new(folder: D) -> DirFiles<D>
        ensures faultless { ⟦<DirFiles<D> as Files>⟧.faults result ≡ 0 }
        ensures contents { ⟦<DirFiles<D> as Files>⟧.contents result ≡ D.contents folder }
    {
        DirFiles {
            folder,
            reading: None,
            faults: FaultCount::new(),
        }
    }

    // Reads a piece through the handle of the file, which is let go at the end of the file.
    fn read_piece(&mut self, name: &str, at: u64, into: &mut [u8]) -> io::Result<usize>
        ensures kept { self.new.folder ≡ self.old.folder }
        ensures faults { self.new.faults ≡ self.old.faults }
        ensures within { IfOk result (λ count. count ≤ length into.old) }
        ensures bytes { IfOk result (λ count. Has (D.contents self.old.folder) name.now
            (λ file. take count into.new ≡ take count (drop at file))) }
        ensures end { IfOk result (λ count. 0 < length into.old → Has (D.contents self.old.folder) name.now
            (λ file. (count ≡ 0) ↔ (length file ≤ at))) }
    {
        let mut reading = self.take_reading(name, at)?;
        let count = reading.read_from(at, into)?;
        if count > 0 || into.is_empty() {
            self.reading = Some(reading);
        }
        Ok(count)
    }

    // Takes the file that is being read, where it has this name, and else opens it. The start is read anew.
    fn take_reading(&mut self, name: &str, at: u64) -> io::Result<Reading<D>>
        ensures kept { self.new.folder ≡ self.old.folder }
        ensures faults { self.new.faults ≡ self.old.faults }
        ensures name { IfOk result (λ it. it.name ≡ name.now) }
        ensures held { IfOk result (λ it. Has (D.contents self.old.folder) name.now (λ file. D.held it.handle ≡ Some file)) }
    {
        match self.reading.take() {
            Some(reading) if at > 0 && same_bytes(reading.name.as_slice(), name.as_bytes()) => {
                Ok(reading)
            }
            _ => open_reading(&self.folder, name),
        }
    }
}

impl<D: Folder + Drop> Files for DirFiles<D> {
    ghost contents = { λ files. D.contents files.folder };

    ghost faults = { λ files. files.faults.value };

    ghost last_failed = { λ _. None };

    fn read_at(&mut self, name: &str, at: u64, into: &mut [u8]) -> Result<usize, Failed> {
        match self.read_piece(name, at, into) {
            Ok(count) => Ok(count),
            Err(_) => {
                self.faults.rise();
                Err(Failed)
            }
        }
    }
}

// Opens a file and takes its stamp.
fn open_reading<D: Folder>(folder: &D, name: &str) -> io::Result<Reading<D>>
    ensures name { IfOk result (λ it. it.name ≡ name.now) }
    ensures held { IfOk result (λ it. Has (D.contents folder.now) name.now (λ file. D.held it.handle ≡ Some file)) }
{
    let handle = folder.open(name)?;
    let stamp = D::stamp(&handle)?;
    let name = list_of(folder.memory(), name.as_bytes())?;
    Ok(Reading {
        name,
        handle,
        stamp,
    })
}

impl<D: Folder> Reading<D> {
    // Reads a piece. It is an error where the file was written to since it was opened.
    fn read_from(&mut self, at: u64, into: &mut [u8]) -> io::Result<usize>
        ensures name { self.new.name ≡ self.old.name }
        ensures held { D.held self.new.handle ≡ D.held self.old.handle }
        ensures within { IfOk result (λ count. count ≤ length into.old) }
        ensures bytes { IfOk result (λ count. IfSome (D.held self.old.handle)
            (λ file. take count into.new ≡ take count (drop at file))) }
        ensures end { IfOk result (λ count. 0 < length into.old → IfSome (D.held self.old.handle)
            (λ file. (count ≡ 0) ↔ (length file ≤ at))) }
    {
        let count = D::read_from(&mut self.handle, at, into)?;
        if D::stamp(&self.handle)? != self.stamp {
            return Err(io::Error::from(ErrorKind::StaleNetworkFileHandle));
        }
        Ok(count)
    }
}
