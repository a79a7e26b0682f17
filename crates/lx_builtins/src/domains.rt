//! `ClockDomain` and `MultiReg`.

ghost use Rattle.std.specs.Prelude.{◌≡◌, IfOk};
ghost use Rattle.lx_state.specs.Step.{Gives};
ghost use Rattle.lx_builtins.specs.Domains.{clock_domain_called, clock_domain_params, count_looked_at, domain_or, each_looked_at, multireg_called, multireg_from, multireg_looked_at, multireg_names, multireg_params, name_there, operand_bits, register_fits, shape_of, signal_looked_at, some_registers, source_looked_at};

use crate::arguments::{Arguments, argument, bound_to, given, identifier_of, optional, required};
use crate::numbers::is_zero;
use crate::signals::{integer_or, name_looked_at};
use lx_fhdl::ExprId;
use lx_num::Shape;
use lx_objects::crossings::multireg_made;
use lx_objects::domains::clock_domain_made;
use lx_objects::ios::signal_of;
use lx_ops::exprs::{expr_of, fewest};
use lx_ops::items::bits_of;
use lx_ops::signs::{is_below_zero, magnitude};
use lx_state::work::fault;
use lx_state::{Machine, Value};
use lx_text::{Kind, List, NoMemory, Refusal, Word};
use lx_value::Param;
use std::alloc::Global;

fn clock_domain_params(alloc: Global) -> Result<List<Param>, NoMemory>
    ensures { IfOk result (λ params. params ≡ clock_domain_params) }
{
    List::of_one(alloc, optional(alloc, b"reset_less")?)
}

/// `ClockDomain(reset_less=False)`.
#[tactic(auto, unfolding(crate::specs::Domains::clock_domain_called))]
pub fn clock_domain_called(
    machine: &mut Machine,
    alloc: Global,
    line: u32,
    args: &Arguments,
) -> Result<Value, Refusal>
    ensures { Gives result machine.new (clock_domain_called line args.now machine.old) }
{
    let params = clock_domain_params(alloc)?;
    let values = bound_to(machine, alloc, line, params.as_slice(), args)?;
    let reset_less = integer_or(machine, line, 0, argument(values.as_slice(), 0))?;
    clock_domain_made(machine, line, is_zero(reset_less))
}

fn multireg_params(alloc: Global) -> Result<List<Param>, NoMemory>
    ensures { IfOk result (λ params. params ≡ multireg_params) }
{
    let mut params = List::of_one(alloc, required(alloc, b"i")?)?;
    params.push(required(alloc, b"o")?)?;
    params.push(optional(alloc, b"odomain")?)?;
    params.push(optional(alloc, b"n")?)?;
    Ok(params)
}

fn multireg_names(alloc: Global) -> Result<List<Word>, NoMemory>
    ensures { IfOk result (λ names. names ≡ multireg_names) }
{
    let mut names = List::of_one(alloc, Word::new(alloc, b"i")?)?;
    names.push(Word::new(alloc, b"o")?)?;
    names.push(Word::new(alloc, b"odomain")?)?;
    names.push(Word::new(alloc, b"n")?)?;
    Ok(names)
}

// The bits of an expression, or of an integer.
fn operand_bits(machine: &Machine, line: u32, value: Value) -> Result<u8, Refusal>
    ensures { Gives result machine.now (operand_bits line value machine.now) }
{
    match value {
        Value::Expr(id) => bits_of(machine, line, id),
        Value::Int(number) => Ok(fewest(number)),
        _ => Err(fault(line, Kind::WrongKind)),
    }
}

fn register_fits(machine: &Machine, line: u32, bits: u8) -> Result<(), Refusal>
    ensures { Gives result machine.now (register_fits line bits machine.now) }
{
    let _machine = machine;
    if bits > 127 {
        Err(fault(line, Kind::TooWide(bits as u32)))
    } else if bits > 64 {
        Err(fault(line, Kind::BadWidth))
    } else {
        Ok(())
    }
}

#[tactic(auto, unfolding(crate::specs::Domains::source_looked_at))]
fn source_looked_at(machine: &Machine, line: u32, value: Value) -> Result<(), Refusal>
    ensures { Gives result machine.now (source_looked_at line value machine.now) }
{
    let bits = operand_bits(machine, line, value)?;
    register_fits(machine, line, bits)
}

#[tactic(auto, unfolding(crate::specs::Domains::signal_looked_at))]
fn signal_looked_at(machine: &Machine, line: u32, value: Value) -> Result<(), Refusal>
    ensures { Gives result machine.now (signal_looked_at line value machine.now) }
{
    signal_of(machine, line, value)?;
    Ok(())
}

fn some_registers(machine: &Machine, line: u32, count: i128) -> Result<(), Refusal>
    ensures { Gives result machine.now (some_registers line count machine.now) }
{
    let _machine = machine;
    if is_below_zero(count) || is_zero(count) {
        Err(fault(line, Kind::BadWidth))
    } else {
        Ok(())
    }
}

#[tactic(auto, unfolding(crate::specs::Domains::count_looked_at))]
fn count_looked_at(machine: &Machine, line: u32, value: Value) -> Result<(), Refusal>
    ensures { Gives result machine.now (count_looked_at line value machine.now) }
{
    let count = machine.int_of(line, value)?;
    some_registers(machine, line, count)
}

// Looks at an argument that is bound to this name.
fn multireg_looked_at(
    machine: &Machine,
    alloc: Global,
    line: u32,
    name: &[u8],
    value: Value,
) -> Result<(), Refusal>
    ensures { Gives result machine.now (multireg_looked_at line name.now value machine.now) }
{
    if name == b"i".as_slice() {
        source_looked_at(machine, line, value)
    } else if name == b"o".as_slice() {
        signal_looked_at(machine, line, value)
    } else if name == b"odomain".as_slice() {
        name_looked_at(machine, alloc, line, value)
    } else {
        count_looked_at(machine, line, value)
    }
}

pub(crate) fn name_there(names: &[Word], place: usize) -> &[u8]
    ensures { result.now ≡ name_there names.now place }
{
    match names.get(place) {
        Some(name) => name.as_bytes(),
        None => b"",
    }
}

// Looks at arguments that are bound to these names, in their order.
#[tactic(auto, unfolding(crate::specs::Domains::each_looked_at))]
fn each_looked_at(
    machine: &Machine,
    alloc: Global,
    line: u32,
    names: &[Word],
    values: &[Value],
) -> Result<(), Refusal>
    ensures { Gives result machine.now (each_looked_at line names.now 0 values.now machine.now) }
{
    for (place, value) in values.iter().enumerate() {
        multireg_looked_at(machine, alloc, line, name_there(names, place), *value)?;
    }
    Ok(())
}

// The name of a domain, which is `sys` where none is given.
pub(crate) fn domain_or(
    machine: &Machine,
    alloc: Global,
    line: u32,
    value: Option<Value>,
) -> Result<Word, Refusal>
    ensures { Gives result machine.now (domain_or line value machine.now) }
{
    match value {
        Some(value) => identifier_of(machine, alloc, line, value),
        None => Ok(Word::new(alloc, b"sys")?),
    }
}

#[tactic(auto, unfolding(crate::specs::Domains::shape_of))]
fn shape_of(machine: &Machine, line: u32, id: ExprId) -> Result<Shape, Refusal>
    ensures { Gives result machine.now (shape_of line id machine.now) }
{
    match machine.shaped.shape(id) {
        Some(shape) => Ok(shape),
        None => Err(fault(line, Kind::WrongKind)),
    }
}

#[tactic(auto, unfolding(crate::specs::Domains::multireg_from))]
fn multireg_from(
    machine: &mut Machine,
    alloc: Global,
    line: u32,
    source: Value,
    to: Value,
    values: &[Option<Value>],
) -> Result<Value, Refusal>
    ensures { Gives result machine.new (multireg_from line source to values.now machine.old) }
{
    let name = domain_or(machine, alloc, line, argument(values, 2))?;
    let count = integer_or(machine, line, 2, argument(values, 3))?;
    let to = signal_of(machine, line, to)?;
    let source = expr_of(machine, line, source)?;
    let shape = shape_of(machine, line, source)?;
    multireg_made(
        machine,
        alloc,
        line,
        source,
        shape,
        to,
        name.as_bytes(),
        magnitude(count),
    )
}

/// `MultiReg(i, o, odomain="sys", n=2)`. The argument that stands first has the first fault.
#[tactic(auto, unfolding(crate::specs::Domains::multireg_called))]
pub fn multireg_called(
    machine: &mut Machine,
    alloc: Global,
    line: u32,
    args: &Arguments,
) -> Result<Value, Refusal>
    ensures { Gives result machine.new (multireg_called line args.now machine.old) }
{
    let params = multireg_params(alloc)?;
    let names = multireg_names(alloc)?;
    let values = bound_to(machine, alloc, line, params.as_slice(), args)?;
    each_looked_at(
        machine,
        alloc,
        line,
        names.as_slice(),
        args.placed.as_slice(),
    )?;
    each_looked_at(
        machine,
        alloc,
        line,
        args.names.as_slice(),
        args.named.as_slice(),
    )?;
    let source = given(machine, line, values.as_slice(), 0)?;
    let to = given(machine, line, values.as_slice(), 1)?;
    multireg_from(machine, alloc, line, source, to, values.as_slice())
}
