//! The bytes of a file, or why there are none.

ghost use Rattle.std.specs.Prelude.{◌≡◌, ◌≤◌};
ghost use Rattle.lx_command.specs.Fetching.{Fetched, IsNotBuilt};

use lx_outside::{LoadFault, Source};
use lx_text::{Fault, Kind, List, MAX_BYTES};
use std::alloc::Global;

/// Why a command has no texts.
#[derive(Drop)]
pub enum Stop<'a> {
    /// The file of this name couldn't be read, or there is none.
    Read(&'a [u8]),
    /// The file of this name has this fault.
    Fault(&'a [u8], Fault),
    NoMemory,
}

/// The refusal of a command that isn't built yet, by its word.
pub fn not_built<'a>(word: &'a [u8]) -> Stop<'a>
    ensures { IsNotBuilt word.now result }
{
    Stop::Fault(word, whole(Kind::NotYetBuilt))
}

/// A fault of a file as a whole.
pub fn whole(kind: Kind) -> Fault
    ensures { result ≡ record { line = 0; kind = kind } }
{
    Fault { line: 0, kind }
}

/// The bytes of the file of this name. The source's files stay, and its count of faults never falls.
pub fn fetch<'a, S: Source>(
    alloc: Global,
    name: &'a [u8],
    src: &mut S,
) -> Result<List<u8>, Stop<'a>>
    ensures fetched { Fetched name.now (S.files src.old) (S.faults src.old) (S.faults src.new) result }
    ensures files_stay { S.files src.new ≡ S.files src.old }
    ensures never_falls { S.faults src.old ≤ S.faults src.new }
{
    match src.load(alloc, name, MAX_BYTES) {
        Ok(bytes) => Ok(bytes),
        Err(LoadFault::NoFile) => Err(Stop::Read(name)),
        Err(LoadFault::TooLong(_)) => Err(Stop::Fault(name, whole(Kind::TooLong))),
        Err(LoadFault::Failed) => Err(Stop::Read(name)),
        Err(LoadFault::NoMemory) => Err(Stop::NoMemory),
    }
}
