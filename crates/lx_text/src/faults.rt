//! The faults that a description can have, and the limits.

ghost use Rattle.std.specs.Prelude.{◌≡◌};
ghost use Rattle.lx_text.specs.Limits.{limit_number};

use crate::lists::{List, NoMemory, Word};

/// The most bytes of a description, a trace or a script.
pub const MAX_BYTES: u64 = 1_048_576;

/// What is limited. Each has a greatest number.
#[derive(Clone, Copy)]
pub enum LimitKind {
    Work,
    Nodes,
    Depth,
    Signals,
    Modules,
    Items,
    States,
    Domains,
    Memories,
    MemoryWords,
    Regions,
    Sources,
    Name,
}

/// A fault, with the values that its line shows.
#[derive(Drop)]
pub enum Kind {
    NotYetBuilt,
    BadByte(u32),
    BadIndent,
    NumberRange,
    TooLong,
    TooDeep,
    Syntax(u32),
    NoTop,
    WrongKind,
    WrongCount,
    DivZero,
    BadSlice,
    BadWidth,
    SignedShift,
    BadKey,
    NoStates,
    TraceSyntax,
    TraceValue,
    UnknownName(Word),
    BadOption(Word),
    UnknownState(Word),
    TopRegister(Word),
    NameTaken(Word),
    UnknownBank(Word),
    UnknownEvent(Word),
    StorageDriven(Word),
    MemoryClocks(Word),
    RegionRange(Word),
    WrongWindow(Word),
    TraceName(Word),
    UnknownAccessor(Word),
    TooWide(u32),
    Limit(LimitKind),
    FieldOverlap(Word, Word),
    RegionOverlap(Word, Word),
    RegionMisaligned {
        name: Word,
        origin: u64,
        rounded: u64,
    },
    RegionExhausted {
        cached: bool,
        size: u64,
        free: u64,
        wanted: u64,
    },
    IrqRange(Word, u32),
    BankRange(Word, u32),
    IrqTaken(u32, Word, Word),
    BankTaken(u32, Word, Word),
    IrqExhausted(u32),
    BankExhausted(u32),
    BankFull(Word, u32),
    TwoDrivers(Word, u32),
    CombLoop(List<Word>),
}

/// A fault and the line of the file at which it stands; line 0 is the file as a whole.
#[derive(Drop)]
pub struct Fault {
    pub line: u32,
    pub kind: Kind,
}

/// Why a call gave no result.
#[derive(Drop)]
pub enum Refusal {
    Fault(Fault),
    NoMemory,
}

impl From<NoMemory> for Refusal {
    ghost use Rattle.std.specs.Prelude.{◌≡◌};
    ghost use Rattle.lx_text.specs.declared.faults.Refusal.{Refusal};

    ghost from_gives = { λ _ refusal. refusal ≡ Refusal.NoMemory };

    fn from(_error: NoMemory) -> Refusal {
        Refusal::NoMemory
    }
}

/// The greatest number of what is limited.
pub fn greatest(limit: LimitKind) -> u32
    ensures { result ≡ limit_number limit }
{
    match limit {
        LimitKind::Work => 1_000_000,
        LimitKind::Nodes => 262_144,
        LimitKind::Depth => 64,
        LimitKind::Signals => 65_536,
        LimitKind::Modules => 4_096,
        LimitKind::Items => 1_024,
        LimitKind::States => 256,
        LimitKind::Domains => 16,
        LimitKind::Memories => 1_024,
        LimitKind::MemoryWords => 131_072,
        LimitKind::Regions => 64,
        LimitKind::Sources => 32,
        LimitKind::Name => 64,
    }
}
