//! Registers with the words that the bus reaches them by, in banks before the banks have their numbers, and in the map.

ghost use Rattle.std.specs.Prelude.{◌≡◌, []};
ghost use Rattle.lx_csr.specs.Places.{AreBanks, IsMap};
ghost use Rattle.lx_csr.specs.Mapped.{Finds, FindsWord};

use lx_description::{Field, RegKind};
use lx_fhdl::{BankWish, SigId};
use lx_text::{List, Word};
use std::alloc::Global;
use std::marker::Model;

/// A word of the bus with bits of a register.
#[derive(Clone, Copy, PartialEq, Eq)]
pub struct WordPlace {
    /// The address of its first byte: from the bank's start on, or in the map the bus's own.
    pub addr: u32,
    /// The lowest of the bits.
    pub low: u8,
    /// How many bits: at most 32.
    pub len: u8,
}

/// A register that software reaches.
#[derive(Drop)]
pub struct Register {
    /// Its full name: the bank's, those of the submodules in it that it stands in, and its own, joined by `_`.
    pub name: Word,
    /// The bank's place in declared order; in the map the bank's number.
    pub bank: u32,
    pub kind: RegKind,
    /// Its bits, 1 to 64.
    pub size: u8,
    /// Its first value, one of its bits.
    pub reset: i128,
    /// Whether it takes all its words at once, with its last.
    pub atomic: bool,
    /// Whether the circuit may write it too.
    pub from_dev: bool,
    pub fields: List<Field>,
    /// In order of address, the most significant first.
    pub words: List<WordPlace>,
    /// The signals of its declaration. Of an event manager's registers: of `status` those of its sources; of `pending`
    /// the sources' `pending`, then their `clear`; of `enable` the manager's.
    pub signals: List<SigId>,
    /// The line of the call that made it, or its event manager.
    pub line: u32,
}

/// The registers of a peripheral, one after the other.
#[derive(Drop)]
pub struct Bank {
    /// Its name, how many words it has, and the line of its first register.
    pub wish: BankWish,
    /// At least one.
    pub registers: List<Register>,
}

/// The registers of a system before its banks have their numbers. A contract sees the list of the banks, in declared
/// order.
#[derive(Drop)]
pub struct Registers {
    banks: List<Bank>,
}

impl Model for Registers {
    ghost use Rattle.std.specs.Prelude.{List};
    ghost use Rattle.lx_csr.specs.declared.registers.Bank.{Bank};

    ghost Value = { List Bank };

    ghost use Rattle.lx_csr.specs.Places.{AreBanks};

    ghost view = { λ r. r.banks };

    ghost invariant = { λ r. AreBanks r.banks };
}

impl Registers {
    /// These banks.
    pub(crate) fn of(banks: List<Bank>) -> Registers
        requires { AreBanks banks }
        ensures { result ≡ banks }
    {
        Registers { banks }
    }

    /// The banks in declared order. The words of each follow one another from its start on.
    pub fn banks(&self) -> &[Bank]
        ensures banks { result.now ≡ self.now }
        ensures kept { AreBanks self.now }
    {
        self.banks.as_slice()
    }
}

/// The registers of a system in order of address. A contract sees the list of them.
#[derive(Drop)]
pub struct RegisterMap {
    registers: List<Register>,
}

impl Model for RegisterMap {
    ghost use Rattle.std.specs.Prelude.{List};
    ghost use Rattle.lx_csr.specs.declared.registers.Register.{Register};

    ghost Value = { List Register };

    ghost use Rattle.lx_csr.specs.Places.{IsMap};

    ghost view = { λ m. m.registers };

    ghost invariant = { λ m. IsMap m.registers };
}

// The first of these words that has the address.
fn find_word(words: &[WordPlace], addr: u32) -> Option<usize>
    ensures { FindsWord words.now addr result }
{
    for (j, word) in words.iter().enumerate() {
        if word.addr == addr {
            return Some(j);
        }
    }
    None
}

impl RegisterMap {
    /// No registers.
    pub fn none(alloc: Global) -> RegisterMap
        ensures { result ≡ [] }
    {
        RegisterMap::of(List::new(alloc))
    }

    /// These registers.
    pub(crate) fn of(registers: List<Register>) -> RegisterMap
        requires { IsMap registers }
        ensures { result ≡ registers }
    {
        RegisterMap { registers }
    }

    /// The registers in order of address. The addresses of all their words rise, so no two words have one address.
    pub fn registers(&self) -> &[Register]
        ensures registers { result.now ≡ self.now }
        ensures kept { IsMap self.now }
    {
        self.registers.as_slice()
    }

    /// The places of the register, and of the word in it, that have the address; None exactly where no word has it.
    pub fn find(&self, addr: u32) -> Option<(usize, usize)>
        ensures { Finds self.now addr result }
    {
        for (i, register) in self.registers().iter().enumerate() {
            if let Some(j) = find_word(register.words.as_slice(), addr) {
                return Some((i, j));
            }
        }
        None
    }
}
