//! Files as they are: they tell no content. Each form has a count of faults, which a call that fails raises, or finds at
//! its greatest value.

ghost use Rattle.std.specs.Prelude.{◌≡◌, ◌≤◌, ◌<◌, None, length};
ghost use Rattle.lx_outside.specs.Calls.{longest};
ghost use Rattle.lx_command.specs.Reading.{Fetches, Reads};

use crate::writers::write_whole;
use lx_outside::{Failed, LoadFault, Sink, Source};
use lx_text::List;
use std::alloc::Global;
use std::fs;
use std::io::{ErrorKind, Read};
use std::rt::Files;

/// Files that are read from the file system.
#[derive(Drop)]
pub struct FileSource<'a, R: Files> {
    rt: &'a R,
    faults: u64,
}

impl<'a, R: Files> FileSource<'a, R> {
    /// The files of this runtime. No call has failed yet.
    pub fn new(rt: &'a R) -> FileSource<'a, R> {
        FileSource { rt, faults: 0 }
    }
}

impl<'a, R: Files> Source for FileSource<'a, R> {
    ghost files = { λ _. None };

    ghost faults = { λ s. s.faults };

    fn load(&mut self, alloc: Global, name: &[u8], limit: u64) -> Result<List<u8>, LoadFault> {
        match read_file(self.rt, alloc, name, limit as usize) {
            Ok(bytes) => Ok(bytes),
            Err(LoadFault::TooLong(front)) => Err(LoadFault::TooLong(front)),
            Err(LoadFault::NoMemory) => Err(LoadFault::NoMemory),
            Err(LoadFault::NoFile) => {
                self.faults = self.faults.saturating_add(1);
                Err(LoadFault::NoFile)
            }
            Err(LoadFault::Failed) => {
                self.faults = self.faults.saturating_add(1);
                Err(LoadFault::Failed)
            }
        }
    }
}

// The bytes of a file, of which there may be so many. A name that isn't UTF-8 fails.
fn read_file<R: Files>(
    rt: &R,
    alloc: Global,
    name: &[u8],
    limit: usize,
) -> Result<List<u8>, LoadFault>
    requires { limit ≤ longest }
    ensures { Fetches limit None result }
{
    let Ok(path) = str::from_utf8(name) else {
        return Err(LoadFault::Failed);
    };
    match fs::open(rt, path) {
        Ok(mut file) => read_up_to(&mut file, alloc, limit),
        Err(error) => Err(if error.kind() == ErrorKind::NotFound {
            LoadFault::NoFile
        } else {
            LoadFault::Failed
        }),
    }
}

/// All bytes that a reader has left, or one more than the limit where there are more.
pub fn read_up_to<F: Read>(file: &mut F, alloc: Global, limit: usize) -> Result<List<u8>, LoadFault>
    requires { limit ≤ longest }
    ensures { Fetches limit (F.remaining file.old) result }
{
    let mut bytes = Vec::new(alloc);
    let mut buffer = [0u8; 8192];
    for _ in 0..=limit {
        let room = (limit + 1 - bytes.len()).min(8192);
        let count = match read_some(file, &mut bytes, &mut buffer[..room]) {
            Ok(count) => count,
            Err(fault) => return Err(fault),
        };
        if count == 0 {
            return Ok(List::from_vec(bytes));
        }
        if bytes.len() > limit {
            return Err(LoadFault::TooLong(List::from_vec(bytes)));
        }
    }
    Err(LoadFault::Failed)
}

// One read into the buffer: what it gave is appended to the bytes.
fn read_some<F: Read>(
    file: &mut F,
    bytes: &mut Vec<u8>,
    buffer: &mut [u8],
) -> Result<usize, LoadFault>
    requires { 0 < length buffer.old }
    ensures { Reads (F.remaining file.old) (F.remaining file.new) bytes.old.items bytes.new.items (length buffer.old) result }
{
    let count = match file.read(buffer) {
        Ok(count) => count,
        Err(_) => return Err(LoadFault::Failed),
    };
    if bytes.extend_from_slice(&buffer[..count]).is_err() {
        return Err(LoadFault::NoMemory);
    }
    Ok(count)
}

/// Files that are stored in the file system.
#[derive(Drop)]
pub struct FileSink<'a, R: Files> {
    rt: &'a R,
    faults: u64,
}

impl<'a, R: Files> FileSink<'a, R> {
    /// The files of this runtime. No call has failed yet.
    pub fn new(rt: &'a R) -> FileSink<'a, R> {
        FileSink { rt, faults: 0 }
    }
}

impl<'a, R: Files> Sink for FileSink<'a, R> {
    ghost stored = { λ _. None };

    ghost faults = { λ s. s.faults };

    fn store(&mut self, name: &[u8], bytes: &[u8]) -> Result<(), Failed> {
        match write_file(self.rt, name, bytes) {
            Ok(()) => Ok(()),
            Err(_) => {
                self.faults = self.faults.saturating_add(1);
                Err(Failed)
            }
        }
    }
}

// Makes a file of these bytes. A name that isn't UTF-8 fails.
fn write_file<R: Files>(rt: &R, name: &[u8], bytes: &[u8]) -> Result<(), Failed> {
    let Ok(path) = str::from_utf8(name) else {
        return Err(Failed);
    };
    match fs::create(rt, path) {
        Ok(mut file) => write_whole(&mut file, bytes),
        Err(_) => Err(Failed),
    }
}
