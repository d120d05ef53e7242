//! The files of a script.

use mw_outside::TestFile;
use mw_text::{List, list_of};
use std::alloc::Global;
use std::io;

fn copy_file(alloc: Global, file: &TestFile) -> io::Result<TestFile> {
    let name = list_of(alloc, file.name.as_slice())?;
    let bytes = list_of(alloc, file.bytes.as_slice())?;
    Ok(TestFile { name, bytes })
}

/// Copies of the files, of which a run takes its own.
pub fn copy_files(alloc: Global, files: &[TestFile]) -> io::Result<List<TestFile>> {
    let mut all = List::new(alloc);
    for file in files {
        all.items.push(copy_file(alloc, file)?)?;
    }
    Ok(all)
}

/// Begins a file of that name, which takes the place of an earlier one.
pub fn begin_file(alloc: Global, files: &mut List<TestFile>, name: &str) -> io::Result<()> {
    files
        .items
        .retain(|file| file.name.as_slice() != name.as_bytes());
    let name = list_of(alloc, name.as_bytes())?;
    let bytes = List::new(alloc);
    files.items.push(TestFile { name, bytes })?;
    Ok(())
}

/// Adds a line to the last file.
pub fn add_line(files: &mut List<TestFile>, line: &str) -> io::Result<()> {
    if let Some(file) = files.items.last_mut() {
        file.bytes.items.extend_from_slice(line.as_bytes())?;
        file.bytes.items.push(b'\n')?;
    }
    Ok(())
}

/// Keeps these bytes as the file of that name.
pub fn keep_bytes(
    alloc: Global,
    files: &mut List<TestFile>,
    name: &str,
    bytes: &[u8],
) -> io::Result<()> {
    begin_file(alloc, files, name)?;
    if let Some(file) = files.items.last_mut() {
        file.bytes.items.extend_from_slice(bytes)?;
    }
    Ok(())
}

fn raw_byte(byte: u8) -> u8 {
    match byte {
        b'|' => b'\n',
        b'~' => b'\r',
        b'^' => 0,
        byte => byte,
    }
}

/// Adds a text to the last file: `|` is the end of a line, `~` a carriage return and `^` a byte 0.
pub fn add_raw(files: &mut List<TestFile>, raw: &str) -> io::Result<()> {
    if let Some(file) = files.items.last_mut() {
        for byte in raw.as_bytes() {
            file.bytes.items.push(raw_byte(*byte))?;
        }
    }
    Ok(())
}

/// Fills the last file up to so many bytes.
pub fn pad(files: &mut List<TestFile>, size: u64) -> io::Result<()> {
    if let Some(file) = files.items.last_mut() {
        for _ in file.bytes.items.len() as u64..size {
            file.bytes.items.push(b'!')?;
        }
    }
    Ok(())
}
