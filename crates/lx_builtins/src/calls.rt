//! What can be called, but for classes.

ghost use Rattle.std.specs.Prelude.{◌≡◌};
ghost use Rattle.lx_state.specs.Step.{Gives};
ghost use Rattle.lx_builtins.specs.Calls.{builtin_called, method_called};

use crate::arguments::Arguments;
use crate::domains::{clock_domain_called, multireg_called};
use crate::events::{event_manager_called, finalize_called, source_called, source_process_called};
use crate::exprs::{array_called, cat_called, constant_called, mux_called, replicate_called};
use crate::fsms::{act_called, fsm_called, next_state_called, next_value_called, ongoing_called};
use crate::memories::{get_port_called, memory_called};
use crate::numbers::{
    bits_for_called, int_called, log2_int_called, max_called, min_called, range_called, str_called,
};
use crate::objects::{
    case_called, elif_called, else_called, eq_called, getattr_called, if_called, init_called,
    setattr_called, super_called,
};
use crate::registers::{
    csr_called, csr_constant_called, csr_field_called, csr_status_called, csr_storage_called,
};
use crate::sequences::{enumerate_called, len_called, list_called, reversed_called, zip_called};
use crate::signals::signal_called;
use crate::systems::{
    add_bank_called, add_constant_called, add_interrupt_called, add_slave_called, interface_called,
    region_called, store_called,
};
use lx_description::SourceKind;
use lx_state::work::fault;
use lx_state::{Builtin, Machine, Method, Value};
use lx_text::{Kind, Refusal};
use std::alloc::Global;

/// Calls a built-in name. The modes of ports and `wishbone` can't be called.
#[tactic(auto, unfolding(crate::specs::Calls::builtin_called))]
pub fn builtin_called(
    machine: &mut Machine,
    alloc: Global,
    line: u32,
    builtin: Builtin,
    args: Arguments,
) -> Result<Value, Refusal>
    ensures { Gives result machine.new (builtin_called line builtin args machine.old) }
{
    match builtin {
        Builtin::Range => range_called(machine, alloc, line, args),
        Builtin::Len => len_called(machine, alloc, line, &args),
        Builtin::Enumerate => enumerate_called(machine, alloc, line, &args),
        Builtin::Zip => zip_called(machine, alloc, line, &args),
        Builtin::Reversed => reversed_called(machine, alloc, line, &args),
        Builtin::List => list_called(machine, alloc, line, &args),
        Builtin::Min => min_called(machine, alloc, line, args),
        Builtin::Max => max_called(machine, alloc, line, args),
        Builtin::Int => int_called(machine, alloc, line, &args),
        Builtin::Str => str_called(machine, alloc, line, &args),
        Builtin::BitsFor => bits_for_called(machine, alloc, line, &args),
        Builtin::Log2Int => log2_int_called(machine, alloc, line, &args),
        Builtin::SetAttr => setattr_called(machine, alloc, line, &args),
        Builtin::GetAttr => getattr_called(machine, alloc, line, &args),
        Builtin::Super => super_called(machine, line, &args),
        Builtin::Signal => signal_called(machine, alloc, line, &args),
        Builtin::C => constant_called(machine, alloc, line, &args),
        Builtin::Constant => constant_called(machine, alloc, line, &args),
        Builtin::Cat => cat_called(machine, alloc, line, args),
        Builtin::Replicate => replicate_called(machine, alloc, line, &args),
        Builtin::Mux => mux_called(machine, alloc, line, &args),
        Builtin::Array => array_called(machine, alloc, line, args),
        Builtin::If => if_called(machine, alloc, line, args),
        Builtin::Case => case_called(machine, alloc, line, &args),
        Builtin::Memory => memory_called(machine, alloc, line, &args),
        Builtin::ClockDomain => clock_domain_called(machine, alloc, line, &args),
        Builtin::MultiReg => multireg_called(machine, alloc, line, &args),
        Builtin::Fsm => fsm_called(machine, alloc, line, &args),
        Builtin::NextState => next_state_called(machine, alloc, line, &args),
        Builtin::NextValue => next_value_called(machine, alloc, line, &args),
        Builtin::Csr => csr_called(machine, alloc, line, &args),
        Builtin::CsrStorage => csr_storage_called(machine, alloc, line, &args),
        Builtin::CsrStatus => csr_status_called(machine, alloc, line, &args),
        Builtin::CsrConstant => csr_constant_called(machine, alloc, line, &args),
        Builtin::CsrField => csr_field_called(machine, alloc, line, &args),
        Builtin::EventManager => event_manager_called(machine, alloc, line, &args),
        Builtin::EventSourcePulse => source_called(machine, alloc, line, SourceKind::Pulse, &args),
        Builtin::EventSourceProcess => source_process_called(machine, alloc, line, &args),
        Builtin::EventSourceLevel => source_called(machine, alloc, line, SourceKind::Level, &args),
        Builtin::WriteFirst => Err(fault(line, Kind::WrongKind)),
        Builtin::ReadFirst => Err(fault(line, Kind::WrongKind)),
        Builtin::NoChange => Err(fault(line, Kind::WrongKind)),
        Builtin::SocRegion => region_called(machine, alloc, line, &args),
        Builtin::Wishbone => Err(fault(line, Kind::WrongKind)),
    }
}

/// Calls a method of an object.
#[tactic(auto, unfolding(crate::specs::Calls::method_called))]
pub fn method_called(
    machine: &mut Machine,
    alloc: Global,
    line: u32,
    method: Method,
    args: Arguments,
) -> Result<Value, Refusal>
    ensures { Gives result machine.new (method_called line method args machine.old) }
{
    match method {
        Method::Eq(id) => eq_called(machine, alloc, line, id, &args),
        Method::Elif(at) => elif_called(machine, alloc, line, at, args),
        Method::Else(at) => else_called(machine, alloc, line, at, args),
        Method::Init(at) => init_called(machine, alloc, line, at, &args),
        Method::Act(at) => act_called(machine, alloc, line, at, args),
        Method::Ongoing(at) => ongoing_called(machine, alloc, line, at, &args),
        Method::GetPort(at) => get_port_called(machine, alloc, line, at, &args),
        Method::Finalize => finalize_called(machine, line, &args),
        Method::Interface => interface_called(machine, alloc, line, &args),
        Method::AddRam => store_called(machine, alloc, line, true, &args),
        Method::AddRom => store_called(machine, alloc, line, false, &args),
        Method::AddConstant => add_constant_called(machine, alloc, line, &args),
        Method::AddSlave => add_slave_called(machine, alloc, line, &args),
        Method::AddBank => add_bank_called(machine, alloc, line, &args),
        Method::AddInterrupt => add_interrupt_called(machine, alloc, line, &args),
    }
}
