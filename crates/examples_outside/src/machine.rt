//! Calls over the files of the machine.

use crate::copies::{Copied, copy_two};
use mw_outside::{Failed, FileSink, Files, OutSink, ReadRefused, Sink, read_whole};
use std::fs::File;
use std::time::UNIX_EPOCH;
use std::{fs, io};

fn show_done(rt: &HostRuntime, done: Result<(), Failed>) -> io::Result<()> {
    match done {
        Ok(()) => println!(rt; "done"),
        Err(_) => println!(rt; "failed"),
    }
}

fn write_new(rt: &HostRuntime, name: &str, bytes: &[u8]) -> Result<(), Failed> {
    match FileSink::new(rt, name) {
        Ok(mut sink) => sink.write(bytes),
        Err(failed) => Err(failed),
    }
}

/// Creates a file with these bytes.
pub fn create(rt: &HostRuntime, name: &str, bytes: &[u8]) -> io::Result<()> {
    show_done(rt, write_new(rt, name, bytes))
}

/// Creates a file of so many bytes.
pub fn fill(rt: &HostRuntime, name: &str, size: u64) -> io::Result<()> {
    let bytes = vec![in rt.alloc(); b'!'; size as usize]?;
    create(rt, name, bytes.as_slice())
}

fn show_refused(rt: &HostRuntime, refused: ReadRefused) -> io::Result<()> {
    match refused {
        ReadRefused::Failed => println!(rt; "failed"),
        ReadRefused::TooLong => println!(rt; "too long"),
        ReadRefused::Memory => println!(rt; "memory"),
    }
}

fn show_text(rt: &HostRuntime, bytes: &[u8]) -> io::Result<()> {
    match std::str::from_utf8(bytes) {
        Ok(text) => println!(rt; "{text}"),
        Err(_) => println!(rt; "no UTF-8"),
    }
}

/// Reads a file whole.
pub fn read(rt: &HostRuntime, files: &mut impl Files, name: &str, limit: u64) -> io::Result<()> {
    match read_whole(rt.alloc(), files, name, limit) {
        Ok(bytes) => show_text(rt, bytes.as_slice()),
        Err(refused) => show_refused(rt, refused),
    }
}

/// Reads a file whole, and says how many bytes came.
pub fn count(rt: &HostRuntime, files: &mut impl Files, name: &str, limit: u64) -> io::Result<()> {
    match read_whole(rt.alloc(), files, name, limit) {
        Ok(bytes) => println!(rt; "{} bytes", bytes.as_slice().len()),
        Err(refused) => show_refused(rt, refused),
    }
}

/// Reads a piece of four bytes.
pub fn piece(rt: &HostRuntime, files: &mut impl Files, name: &str, at: u64) -> io::Result<()> {
    let mut piece = *b"....";
    match files.read_at(name, at, &mut piece) {
        Ok(_) => show_text(rt, &piece),
        Err(_) => println!(rt; "failed"),
    }
}

/// Gives a file the name of another.
pub fn rename(rt: &HostRuntime, name: &str, other: &str) -> io::Result<()> {
    fs::rename(rt, name, other)
}

/// Removes a file.
pub fn remove(rt: &HostRuntime, name: &str) -> io::Result<()> {
    fs::remove_file(rt, name)
}

/// Sets the time of the last change of a file back.
pub fn age(rt: &HostRuntime, name: &str) -> io::Result<()> {
    let file = File::open(rt, name)?;
    file.set_modified(UNIX_EPOCH)
}

fn show_copied(rt: &HostRuntime, copied: Copied) -> io::Result<()> {
    match copied {
        Copied::Done => println!(rt; "copied"),
        Copied::ReadFault => println!(rt; "failed"),
        Copied::TooLong => println!(rt; "too long"),
        Copied::WriteFault => println!(rt; "write fault"),
        Copied::Memory => println!(rt; "memory"),
    }
}

/// Copies two files to the standard output.
pub fn copy(rt: &HostRuntime, files: &mut impl Files, name: &str, other: &str) -> io::Result<()> {
    let mut out = OutSink::new(rt.stdout());
    let copied = copy_two(rt.alloc(), files, &mut out, name, other);
    show_copied(rt, copied)
}
