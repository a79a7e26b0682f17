//! The arguments of a call, and the parameters that they are bound to.

ghost use Rattle.std.specs.Prelude.{◌≡◌, [], ◌∷◌, IfOk, map, slice_get};
ghost use Rattle.lx_state.specs.Step.{Gives};
ghost use Rattle.lx_builtins.specs.Arguments.{an_identifier, argument, bound_to, given, identifier_of, no_argument, one, one_or_two, optional, required, three, two, unnamed, value_of};

use lx_ops::Part;
use lx_parts::is_identifier;
use lx_state::work::fault;
use lx_state::{Machine, Value};
use lx_text::{Kind, List, NoMemory, Refusal, Word};
use lx_value::arguments::are_bindable;
use lx_value::{BindFault, Bound, Param, bind};
use std::alloc::Global;

/// The arguments of a call.
#[derive(Drop)]
pub struct Arguments {
    pub placed: List<Value>,
    /// The names of the others, in the order of the text.
    pub names: List<Word>,
    /// The arguments with these names.
    pub named: List<Value>,
    /// The fragment that stands as the first argument of `setattr`, whose own value is then None.
    pub part: Option<Part>,
}

/// Three arguments.
#[derive(Clone, Copy)]
pub struct Triple {
    pub first: Value,
    pub second: Value,
    pub third: Value,
}

// The argument that a parameter is bound to.
fn value_of(args: &Arguments, bound: Bound) -> Option<Value>
    ensures { result ≡ value_of args.now bound }
{
    match bound {
        Bound::Placed(place) => args.placed.get(place).copied(),
        Bound::Key(place) => args.named.get(place).copied(),
        Bound::Missing => None,
    }
}

// The arguments that the parameters are bound to.
fn values_of(
    alloc: Global,
    args: &Arguments,
    bounds: &[Bound],
) -> Result<List<Option<Value>>, NoMemory>
    ensures { IfOk result (λ values. values ≡ map (value_of args.now) bounds.now) }
{
    let mut values = List::new(alloc);
    for bound in bounds {
        values.push(value_of(args, *bound))?;
    }
    Ok(values)
}

/// Binds the arguments to parameters: one for each of them, in their order.
#[tactic(auto, unfolding(crate::specs::Arguments::bound_to))]
pub fn bound_to(
    machine: &Machine,
    alloc: Global,
    line: u32,
    params: &[Param],
    args: &Arguments,
) -> Result<List<Option<Value>>, Refusal>
    ensures { Gives result machine.now (bound_to line params.now args.now machine.now) }
{
    let _machine = machine;
    if !are_bindable(alloc, params)? {
        return Err(fault(line, Kind::WrongCount));
    }
    match bind(alloc, params, args.placed.len(), args.names.as_slice()) {
        Ok(bounds) => Ok(values_of(alloc, args, bounds.as_slice())?),
        Err(BindFault::WrongCount) => Err(fault(line, Kind::WrongCount)),
        Err(BindFault::NoMemory) => Err(Refusal::NoMemory),
    }
}

/// The arguments of a call whose arguments have no names.
#[tactic(auto, unfolding(crate::specs::Arguments::unnamed))]
pub fn unnamed(machine: &Machine, line: u32, args: Arguments) -> Result<List<Value>, Refusal>
    ensures { Gives result machine.now (unnamed line args machine.now) }
{
    let _machine = machine;
    let Arguments { placed, names, .. } = args;
    if names.is_empty() {
        Ok(placed)
    } else {
        Err(fault(line, Kind::WrongCount))
    }
}

/// Tells whether a call that takes nothing has arguments.
#[tactic(auto, unfolding(crate::specs::Arguments::no_argument))]
pub fn no_argument(machine: &Machine, line: u32, args: &Arguments) -> Result<(), Refusal>
    ensures { Gives result machine.now (no_argument line args.now machine.now) }
{
    let _machine = machine;
    if args.names.is_empty() && args.placed.is_empty() {
        Ok(())
    } else {
        Err(fault(line, Kind::WrongCount))
    }
}

/// A parameter that must be given.
pub fn required(alloc: Global, name: &[u8]) -> Result<Param, NoMemory>
    ensures { IfOk result (λ param. param ≡ required name.now) }
{
    Ok(Param {
        name: Word::new(alloc, name)?,
        by_place: true,
        required: true,
    })
}

/// A parameter that need not be given.
pub fn optional(alloc: Global, name: &[u8]) -> Result<Param, NoMemory>
    ensures { IfOk result (λ param. param ≡ optional name.now) }
{
    Ok(Param {
        name: Word::new(alloc, name)?,
        by_place: true,
        required: false,
    })
}

/// The argument of the parameter at a place.
pub fn argument(values: &[Option<Value>], place: usize) -> Option<Value>
    ensures { result ≡ argument values.now place }
{
    match values.get(place) {
        Some(value) => *value,
        None => None,
    }
}

/// An argument that must be there.
pub fn given(
    machine: &Machine,
    line: u32,
    values: &[Option<Value>],
    place: usize,
) -> Result<Value, Refusal>
    ensures { Gives result machine.now (given line values.now place machine.now) }
{
    let _machine = machine;
    match argument(values, place) {
        Some(value) => Ok(value),
        None => Err(fault(line, Kind::WrongCount)),
    }
}

// One parameter.
fn one_param(alloc: Global, name: &[u8]) -> Result<List<Param>, NoMemory>
    ensures { IfOk result (λ params. params ≡ required name.now ∷ []) }
{
    Ok(List::of_one(alloc, required(alloc, name)?)?)
}

// Two parameters.
fn two_params(alloc: Global, first: &[u8], second: &[u8]) -> Result<List<Param>, NoMemory>
    ensures { IfOk result (λ params. params ≡ required first.now ∷ required second.now ∷ []) }
{
    let mut params = one_param(alloc, first)?;
    params.push(required(alloc, second)?)?;
    Ok(params)
}

// A parameter, and one that need not be given.
fn optional_params(alloc: Global, first: &[u8], second: &[u8]) -> Result<List<Param>, NoMemory>
    ensures { IfOk result (λ params. params ≡ required first.now ∷ optional second.now ∷ []) }
{
    let mut params = one_param(alloc, first)?;
    params.push(optional(alloc, second)?)?;
    Ok(params)
}

// Three parameters.
fn three_params(
    alloc: Global,
    first: &[u8],
    second: &[u8],
    third: &[u8],
) -> Result<List<Param>, NoMemory>
    ensures { IfOk result (λ params. params ≡ required first.now ∷ required second.now ∷ required third.now ∷ []) }
{
    let mut params = two_params(alloc, first, second)?;
    params.push(required(alloc, third)?)?;
    Ok(params)
}

/// The one argument of a call.
#[tactic(auto, unfolding(crate::specs::Arguments::one))]
pub fn one(
    machine: &Machine,
    alloc: Global,
    line: u32,
    name: &[u8],
    args: &Arguments,
) -> Result<Value, Refusal>
    ensures { Gives result machine.now (one line name.now args.now machine.now) }
{
    let params = one_param(alloc, name)?;
    let values = bound_to(machine, alloc, line, params.as_slice(), args)?;
    given(machine, line, values.as_slice(), 0)
}

/// The two arguments of a call.
#[tactic(auto, unfolding(crate::specs::Arguments::two))]
pub fn two(
    machine: &Machine,
    alloc: Global,
    line: u32,
    first: &[u8],
    second: &[u8],
    args: &Arguments,
) -> Result<(Value, Value), Refusal>
    ensures { Gives result machine.now (two line first.now second.now args.now machine.now) }
{
    let params = two_params(alloc, first, second)?;
    let values = bound_to(machine, alloc, line, params.as_slice(), args)?;
    let one = given(machine, line, values.as_slice(), 0)?;
    let other = given(machine, line, values.as_slice(), 1)?;
    Ok((one, other))
}

/// The argument of a call, and a second one that may be missing.
#[tactic(auto, unfolding(crate::specs::Arguments::one_or_two))]
pub fn one_or_two(
    machine: &Machine,
    alloc: Global,
    line: u32,
    first: &[u8],
    second: &[u8],
    args: &Arguments,
) -> Result<(Value, Option<Value>), Refusal>
    ensures { Gives result machine.now (one_or_two line first.now second.now args.now machine.now) }
{
    let params = optional_params(alloc, first, second)?;
    let values = bound_to(machine, alloc, line, params.as_slice(), args)?;
    let one = given(machine, line, values.as_slice(), 0)?;
    Ok((one, argument(values.as_slice(), 1)))
}

/// The three arguments of a call.
#[tactic(auto, unfolding(crate::specs::Arguments::three))]
pub fn three(
    machine: &Machine,
    alloc: Global,
    line: u32,
    first: &[u8],
    second: &[u8],
    third: &[u8],
    args: &Arguments,
) -> Result<Triple, Refusal>
    ensures { Gives result machine.now (three line first.now second.now third.now args.now machine.now) }
{
    let params = three_params(alloc, first, second, third)?;
    let values = bound_to(machine, alloc, line, params.as_slice(), args)?;
    let one = given(machine, line, values.as_slice(), 0)?;
    let two = given(machine, line, values.as_slice(), 1)?;
    let last = given(machine, line, values.as_slice(), 2)?;
    Ok(Triple {
        first: one,
        second: two,
        third: last,
    })
}

fn an_identifier(machine: &Machine, line: u32, name: Word) -> Result<Word, Refusal>
    ensures { Gives result machine.now (an_identifier line name machine.now) }
{
    if !is_identifier(name.as_bytes()) {
        return Err(fault(line, Kind::BadKey));
    }
    machine.name_fits(line, name.as_bytes())?;
    Ok(name)
}

/// A text that is an identifier, of at most as many bytes as a name may have.
#[tactic(auto, unfolding(crate::specs::Arguments::identifier_of))]
pub fn identifier_of(
    machine: &Machine,
    alloc: Global,
    line: u32,
    value: Value,
) -> Result<Word, Refusal>
    ensures { Gives result machine.now (identifier_of line value machine.now) }
{
    let name = machine.text_of(alloc, line, value)?;
    an_identifier(machine, line, name)
}
