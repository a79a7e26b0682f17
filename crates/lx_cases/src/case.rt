//! What a case holds.

use lx_outside::{Fail, Pair};
use lx_text::{List, NoMemory, Word};
use std::alloc::Global;

/// A file that grows line by line.
#[derive(Drop)]
pub(crate) struct Growing {
    pub(crate) name: Word,
    pub(crate) bytes: Vec<u8>,
}

/// What is asked of a case.
#[derive(Drop)]
pub(crate) enum Ask {
    /// A run over the words.
    Run,
    /// A letter for each token of a file.
    Kinds(Word),
    /// The places of the tokens of a file.
    Places(Word),
}

/// The calls of each form that fail.
#[derive(Drop)]
pub(crate) struct Fails {
    pub(crate) loads: List<u64>,
    pub(crate) stores: List<Fail>,
    pub(crate) says: List<Fail>,
    pub(crate) tells: List<Fail>,
}

impl Fails {
    /// No call fails.
    pub(crate) fn new(alloc: Global) -> Fails {
        Fails {
            loads: List::new(alloc),
            stores: List::new(alloc),
            says: List::new(alloc),
            tells: List::new(alloc),
        }
    }
}

/// A case: its words or what else is asked, its files, and the calls that fail.
#[derive(Drop)]
pub(crate) struct Case {
    pub(crate) ask: Ask,
    pub(crate) words: List<Word>,
    pub(crate) files: Vec<Growing>,
    pub(crate) fails: Fails,
    /// The first line that can't be read.
    pub(crate) unread: Option<u64>,
}

impl Case {
    /// A case without words and files, in which no call fails.
    pub(crate) fn new(alloc: Global) -> Case {
        Case {
            ask: Ask::Run,
            words: List::new(alloc),
            files: Vec::new(alloc),
            fails: Fails::new(alloc),
            unread: None,
        }
    }
}

/// The files of a case behind those that all cases share.
pub(crate) fn pairs(
    alloc: Global,
    shared: &[Growing],
    own: &[Growing],
) -> Result<List<Pair>, NoMemory> {
    let mut files = List::new(alloc);
    add_pairs(alloc, shared, &mut files)?;
    add_pairs(alloc, own, &mut files)?;
    Ok(files)
}

fn add_pairs(alloc: Global, more: &[Growing], files: &mut List<Pair>) -> Result<(), NoMemory> {
    for file in more {
        add_pair(alloc, file, files)?;
    }
    Ok(())
}

fn add_pair(alloc: Global, file: &Growing, files: &mut List<Pair>) -> Result<(), NoMemory> {
    let name = Word::new(alloc, file.name.as_bytes())?;
    let bytes = Vec::from_slice(alloc, file.bytes.as_slice())?;
    let bytes = List::from_vec(bytes);
    files.push(Pair { name, bytes })?;
    Ok(())
}

/// The bytes of the file of a name, or none.
pub(crate) fn bytes_of<'a>(files: &'a [Pair], name: &[u8]) -> &'a [u8] {
    for file in files {
        if file.name.as_bytes() == name {
            return file.bytes.as_slice();
        }
    }
    b""
}
