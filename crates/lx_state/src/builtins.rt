//! The built-in names.

ghost use Rattle.std.specs.Prelude.{◌≡◌};
ghost use Rattle.lx_state.specs.Builtins.{builtin_name, builtin_of, first_named};

use crate::values::Builtin;

/// The name of a built-in.
#[tactic(auto, unfolding(crate::specs::Builtins::builtin_name))]
pub fn builtin_name(builtin: Builtin) -> &'static [u8]
    ensures { result.now ≡ builtin_name builtin }
{
    match builtin {
        Builtin::Range => b"range",
        Builtin::Len => b"len",
        Builtin::Enumerate => b"enumerate",
        Builtin::Zip => b"zip",
        Builtin::Reversed => b"reversed",
        Builtin::List => b"list",
        Builtin::Min => b"min",
        Builtin::Max => b"max",
        Builtin::Int => b"int",
        Builtin::Str => b"str",
        Builtin::BitsFor => b"bits_for",
        Builtin::Log2Int => b"log2_int",
        Builtin::SetAttr => b"setattr",
        Builtin::GetAttr => b"getattr",
        Builtin::Super => b"super",
        Builtin::Signal => b"Signal",
        Builtin::C => b"C",
        Builtin::Constant => b"Constant",
        Builtin::Cat => b"Cat",
        Builtin::Replicate => b"Replicate",
        Builtin::Mux => b"Mux",
        Builtin::Array => b"Array",
        Builtin::If => b"If",
        Builtin::Case => b"Case",
        Builtin::Memory => b"Memory",
        Builtin::WriteFirst => b"WRITE_FIRST",
        Builtin::ReadFirst => b"READ_FIRST",
        Builtin::NoChange => b"NO_CHANGE",
        Builtin::ClockDomain => b"ClockDomain",
        Builtin::MultiReg => b"MultiReg",
        Builtin::Fsm => b"FSM",
        Builtin::NextState => b"NextState",
        Builtin::NextValue => b"NextValue",
        Builtin::Csr => b"CSR",
        Builtin::CsrStorage => b"CSRStorage",
        Builtin::CsrStatus => b"CSRStatus",
        Builtin::CsrConstant => b"CSRConstant",
        Builtin::CsrField => b"CSRField",
        Builtin::EventManager => b"EventManager",
        Builtin::EventSourcePulse => b"EventSourcePulse",
        Builtin::EventSourceProcess => b"EventSourceProcess",
        Builtin::EventSourceLevel => b"EventSourceLevel",
        Builtin::SocRegion => b"SoCRegion",
        Builtin::Wishbone => b"wishbone",
    }
}

/// The built-in with a name.
#[tactic(auto, unfolding(crate::specs::Builtins::builtin_of, crate::specs::Builtins::builtins))]
pub fn builtin_of(name: &[u8]) -> Option<Builtin>
    ensures { result ≡ builtin_of name.now }
{
    let builtins = [
        Builtin::Range,
        Builtin::Len,
        Builtin::Enumerate,
        Builtin::Zip,
        Builtin::Reversed,
        Builtin::List,
        Builtin::Min,
        Builtin::Max,
        Builtin::Int,
        Builtin::Str,
        Builtin::BitsFor,
        Builtin::Log2Int,
        Builtin::SetAttr,
        Builtin::GetAttr,
        Builtin::Super,
        Builtin::Signal,
        Builtin::C,
        Builtin::Constant,
        Builtin::Cat,
        Builtin::Replicate,
        Builtin::Mux,
        Builtin::Array,
        Builtin::If,
        Builtin::Case,
        Builtin::Memory,
        Builtin::WriteFirst,
        Builtin::ReadFirst,
        Builtin::NoChange,
        Builtin::ClockDomain,
        Builtin::MultiReg,
        Builtin::Fsm,
        Builtin::NextState,
        Builtin::NextValue,
        Builtin::Csr,
        Builtin::CsrStorage,
        Builtin::CsrStatus,
        Builtin::CsrConstant,
        Builtin::CsrField,
        Builtin::EventManager,
        Builtin::EventSourcePulse,
        Builtin::EventSourceProcess,
        Builtin::EventSourceLevel,
        Builtin::SocRegion,
        Builtin::Wishbone,
    ];
    first_named(name, &builtins)
}

// The first of some built-ins with a name.
fn first_named(name: &[u8], builtins: &[Builtin]) -> Option<Builtin>
    ensures { result ≡ first_named name.now builtins.now }
{
    for builtin in builtins {
        if builtin_name(*builtin) == name {
            return Some(*builtin);
        }
    }
    None
}
