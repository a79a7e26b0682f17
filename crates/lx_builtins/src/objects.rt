//! Built-in names and methods of statements and modules.

ghost use Rattle.std.specs.Prelude.{◌≡◌, slice_get};
ghost use Rattle.lx_state.specs.Step.{Gives};
ghost use Rattle.lx_builtins.specs.Objects.{can_hold, case_called, elif_called, elif_from, elif_under, else_called, eq_called, getattr_called, held_by, holds_attributes, if_called, if_from, if_under, init_called, is_system_there, plain_init, setattr_called, setattr_on, super_called, super_of, this_super};

use crate::arguments::{Arguments, identifier_of, no_argument, one, three, two, unnamed};
use crate::systems::options_called;
use lx_fhdl::ExprId;
use lx_objects::cases::case_made;
use lx_objects::modules::module_of;
use lx_objects::statements::{elif_made, else_made, if_made};
use lx_ops::attributes::is_system;
use lx_ops::places::manager_of;
use lx_ops::{Holder, Part, assign, attribute_of, bind_at, expr_of};
use lx_state::work::fault;
use lx_state::{Machine, Value};
use lx_text::{Kind, Refusal};
use std::alloc::Global;

/// `eq` of an expression.
#[tactic(auto, unfolding(crate::specs::Objects::eq_called))]
pub fn eq_called(
    machine: &mut Machine,
    alloc: Global,
    line: u32,
    id: ExprId,
    args: &Arguments,
) -> Result<Value, Refusal>
    ensures { Gives result machine.new (eq_called line id args.now machine.old) }
{
    let value = one(machine, alloc, line, b"e", args)?;
    assign(machine, alloc, line, Value::Expr(id), value)
}

#[tactic(auto, unfolding(crate::specs::Objects::if_under))]
fn if_under(
    machine: &mut Machine,
    alloc: Global,
    line: u32,
    condition: Value,
    values: &[Value],
) -> Result<Value, Refusal>
    ensures { Gives result machine.new (if_under line condition values.now machine.old) }
{
    let cond = expr_of(machine, line, condition)?;
    if_made(machine, alloc, line, cond, values)
}

fn if_from(
    machine: &mut Machine,
    alloc: Global,
    line: u32,
    values: &[Value],
) -> Result<Value, Refusal>
    ensures { Gives result machine.new (if_from line values.now machine.old) }
{
    match values {
        [] => Err(fault(line, Kind::WrongCount)),
        [condition, rest @ ..] => if_under(machine, alloc, line, *condition, rest),
    }
}

/// `If(c, ..)`.
#[tactic(auto, unfolding(crate::specs::Objects::if_called))]
pub fn if_called(
    machine: &mut Machine,
    alloc: Global,
    line: u32,
    args: Arguments,
) -> Result<Value, Refusal>
    ensures { Gives result machine.new (if_called line args machine.old) }
{
    let values = unnamed(machine, line, args)?;
    if_from(machine, alloc, line, values.as_slice())
}

#[tactic(auto, unfolding(crate::specs::Objects::elif_under))]
fn elif_under(
    machine: &mut Machine,
    alloc: Global,
    line: u32,
    before: usize,
    condition: Value,
    values: &[Value],
) -> Result<Value, Refusal>
    ensures { Gives result machine.new (elif_under line before condition values.now machine.old) }
{
    let cond = expr_of(machine, line, condition)?;
    elif_made(machine, alloc, line, before, cond, values)
}

fn elif_from(
    machine: &mut Machine,
    alloc: Global,
    line: u32,
    before: usize,
    values: &[Value],
) -> Result<Value, Refusal>
    ensures { Gives result machine.new (elif_from line before values.now machine.old) }
{
    match values {
        [] => Err(fault(line, Kind::WrongCount)),
        [condition, rest @ ..] => elif_under(machine, alloc, line, before, *condition, rest),
    }
}

/// `Elif` of an `If`.
#[tactic(auto, unfolding(crate::specs::Objects::elif_called))]
pub fn elif_called(
    machine: &mut Machine,
    alloc: Global,
    line: u32,
    before: usize,
    args: Arguments,
) -> Result<Value, Refusal>
    ensures { Gives result machine.new (elif_called line before args machine.old) }
{
    let values = unnamed(machine, line, args)?;
    elif_from(machine, alloc, line, before, values.as_slice())
}

/// `Else` of an `If`.
#[tactic(auto, unfolding(crate::specs::Objects::else_called))]
pub fn else_called(
    machine: &mut Machine,
    alloc: Global,
    line: u32,
    before: usize,
    args: Arguments,
) -> Result<Value, Refusal>
    ensures { Gives result machine.new (else_called line before args machine.old) }
{
    let values = unnamed(machine, line, args)?;
    else_made(machine, alloc, line, before, values.as_slice())
}

/// `Case(e, d)`.
#[tactic(auto, unfolding(crate::specs::Objects::case_called))]
pub fn case_called(
    machine: &mut Machine,
    alloc: Global,
    line: u32,
    args: &Arguments,
) -> Result<Value, Refusal>
    ensures { Gives result machine.new (case_called line args.now machine.old) }
{
    let (value, keys) = two(machine, alloc, line, b"e", b"d", args)?;
    let on = expr_of(machine, line, value)?;
    let pairs = machine.pairs_of(alloc, line, keys)?;
    case_made(machine, alloc, line, on, pairs.as_slice())
}

fn held_by(part: Option<Part>, value: Value) -> Holder
    ensures { result ≡ held_by part value }
{
    match part {
        Some(part) => Holder::Part(part),
        None => Holder::Plain(value),
    }
}

fn can_hold(machine: &Machine, holder: Holder) -> bool
    ensures { result ≡ can_hold machine.now holder }
{
    match holder {
        Holder::Plain(of) => module_of(machine, of).is_some() || manager_of(machine, of).is_some(),
        Holder::Part(_) => true,
    }
}

#[tactic(auto, unfolding(crate::specs::Objects::holds_attributes))]
fn holds_attributes(machine: &Machine, line: u32, holder: Holder) -> Result<(), Refusal>
    ensures { Gives result machine.now (holds_attributes line holder machine.now) }
{
    if can_hold(machine, holder) {
        Ok(())
    } else {
        Err(fault(line, Kind::WrongKind))
    }
}

#[tactic(auto, unfolding(crate::specs::Objects::setattr_on))]
fn setattr_on(
    machine: &mut Machine,
    alloc: Global,
    line: u32,
    holder: Holder,
    text: Value,
    value: Value,
) -> Result<Value, Refusal>
    ensures { Gives result machine.new (setattr_on line holder text value machine.old) }
{
    holds_attributes(machine, line, holder)?;
    let name = identifier_of(machine, alloc, line, text)?;
    bind_at(machine, alloc, line, holder, name.as_bytes(), value)?;
    Ok(Value::Nothing)
}

/// `setattr(o, t, v)`.
#[tactic(auto, unfolding(crate::specs::Objects::setattr_called))]
pub fn setattr_called(
    machine: &mut Machine,
    alloc: Global,
    line: u32,
    args: &Arguments,
) -> Result<Value, Refusal>
    ensures { Gives result machine.new (setattr_called line args.now machine.old) }
{
    let given = three(machine, alloc, line, b"o", b"t", b"v", args)?;
    let holder = held_by(args.part, given.first);
    setattr_on(machine, alloc, line, holder, given.second, given.third)
}

/// `getattr(o, t)`.
#[tactic(auto, unfolding(crate::specs::Objects::getattr_called))]
pub fn getattr_called(
    machine: &Machine,
    alloc: Global,
    line: u32,
    args: &Arguments,
) -> Result<Value, Refusal>
    ensures { Gives result machine.now (getattr_called line args.now machine.now) }
{
    let (object, text) = two(machine, alloc, line, b"o", b"t", args)?;
    let name = identifier_of(machine, alloc, line, text)?;
    attribute_of(machine, alloc, line, object, name.as_bytes())
}

fn super_of(machine: &Machine, line: u32, this: Option<usize>) -> Result<Value, Refusal>
    ensures { Gives result machine.now (super_of line this machine.now) }
{
    let _machine = machine;
    match this {
        Some(at) => Ok(Value::Super(at)),
        None => Err(fault(line, Kind::WrongKind)),
    }
}

#[tactic(auto, unfolding(crate::specs::Objects::this_super))]
fn this_super(machine: &Machine, line: u32) -> Result<Value, Refusal>
    ensures { Gives result machine.now (this_super line machine.now) }
{
    super_of(machine, line, machine.frame.this)
}

/// `super()`; no default has one.
#[tactic(auto, unfolding(crate::specs::Objects::super_called))]
pub fn super_called(machine: &Machine, line: u32, args: &Arguments) -> Result<Value, Refusal>
    ensures { Gives result machine.now (super_called line args.now machine.now) }
{
    no_argument(machine, line, args)?;
    this_super(machine, line)
}

fn is_system_there(machine: &Machine, at: usize) -> bool
    ensures { result ≡ is_system_there (slice_get machine.now.modules at) }
{
    match machine.modules.get(at) {
        Some(module) => is_system(module.kind),
        None => false,
    }
}

#[tactic(auto, unfolding(crate::specs::Objects::plain_init))]
fn plain_init(machine: &Machine, line: u32, args: &Arguments) -> Result<Value, Refusal>
    ensures { Gives result machine.now (plain_init line args.now machine.now) }
{
    no_argument(machine, line, args)?;
    Ok(Value::Nothing)
}

/// `super().__init__()`, with the options of a system.
#[tactic(auto, unfolding(crate::specs::Objects::init_called))]
pub fn init_called(
    machine: &mut Machine,
    alloc: Global,
    line: u32,
    at: usize,
    args: &Arguments,
) -> Result<Value, Refusal>
    ensures { Gives result machine.new (init_called line at args.now machine.old) }
{
    if is_system_there(machine, at) {
        return options_called(machine, alloc, line, args);
    }
    plain_init(machine, line, args)
}
