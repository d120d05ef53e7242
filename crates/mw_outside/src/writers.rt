//! Sinks over writers of std: the standard output, and files that are written.
//!
//! What such a sink has taken is what its writer holds, where the writer tells it.

ghost use Rattle.std.specs.Prelude.{◌≡◌, ◌≤◌, [], length, take, IfOk, IfErr, OnOk, MatchResult};
ghost use Rattle.mw_outside.specs.Taken.{Takes, TakesPart};

use crate::faults::FaultCount;
use crate::{Failed, Sink};
use std::io::{ErrorKind, Write};
use std::rt::Files as System;
use std::{fs, io};

/// The standard output, or whatever else is written to.
#[derive(Drop)]
pub struct OutSink<W: Write + Drop> {
    writer: W,
    faults: FaultCount,
}

impl<W: Write + Drop> OutSink<W> {
    /// A sink over a writer, as the standard output that the runtime hands in.
    pub fn new(writer: W) -> OutSink<W>
        ensures faultless { ⟦<OutSink<W> as Sink>⟧.faults result ≡ 0 }
        ensures taken { ⟦<OutSink<W> as Sink>⟧.taken result ≡ W.contents writer }
    {
        OutSink {
            writer,
            faults: FaultCount::new(),
        }
    }
}

impl<W: Write + Drop> Sink for OutSink<W> {
    ghost taken = { λ sink. W.contents sink.writer };

    ghost faults = { λ sink. sink.faults.value };

    fn write(&mut self, bytes: &[u8]) -> Result<(), Failed> {
        match write_whole(&mut self.writer, bytes) {
            Ok(()) => Ok(()),
            Err(_) => {
                self.faults.rise();
                Err(Failed)
            }
        }
    }
}

/// A file that is written from its start.
#[derive(Drop)]
pub struct FileSink<R: System> {
    file: R::File,
    faults: FaultCount,
}

impl<R: System> FileSink<R> {
    /// Creates the named file, or empties it. `Failed` where that cannot be done.
    pub fn new(system: &R, name: &str) -> Result<FileSink<R>, Failed>
        ensures { IfOk result (λ sink. ⟦<FileSink<R> as Sink>⟧.faults sink ≡ 0) }
    {
        match fs::create(system, name) {
            Ok(file) => Ok(FileSink {
                file,
                faults: FaultCount::new(),
            }),
            Err(_) => Err(Failed),
        }
    }
}

impl<R: System> Sink for FileSink<R> {
    ghost taken = { λ sink. R.File.contents sink.file };

    ghost faults = { λ sink. sink.faults.value };

    fn write(&mut self, bytes: &[u8]) -> Result<(), Failed> {
        match write_whole(&mut self.file, bytes) {
            Ok(()) => Ok(()),
            Err(_) => {
                self.faults.rise();
                Err(Failed)
            }
        }
    }
}

// Hands a piece to a writer until all of it is taken, or a call fails.
#[tactic(auto, using(crate::proofs::Writing::writing))]
fn write_whole<W: Write>(writer: &mut W, bytes: &[u8]) -> io::Result<()>
    ensures takes { OnOk result (Takes (W.contents writer.old) (W.contents writer.new) bytes.now) }
    ensures part { TakesPart (W.contents writer.old) (W.contents writer.new) bytes.now }
{
    let mut count = 0;
    for _ in 0..u64::MAX {
        if count == bytes.len() {
            return Ok(());
        }
        count += write_some(writer, &bytes[count..])?;
    }
    Err(io::Error::from(ErrorKind::TimedOut))
}

// Hands a piece to a writer once, and says how many bytes of it are taken. A call that is interrupted takes none.
#[tactic(auto, using(crate::proofs::Writing::writing))]
fn write_some<W: Write>(writer: &mut W, bytes: &[u8]) -> io::Result<usize>
    ensures within { IfOk result (λ count. count ≤ length bytes.now) }
    ensures takes { IfOk result (λ count. Takes (W.contents writer.old) (W.contents writer.new) (take count bytes.now)) }
    ensures nothing { IfErr result (λ _. Takes (W.contents writer.old) (W.contents writer.new) []) }
{
    match writer.write(bytes) {
        Ok(0) => Err(io::Error::from(ErrorKind::WriteZero)),
        Ok(count) => Ok(count),
        Err(error) if error.kind() == ErrorKind::Interrupted => Ok(0),
        Err(error) => Err(error),
    }
}
