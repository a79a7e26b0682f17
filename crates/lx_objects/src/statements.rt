//! Statements of FHDL as a description makes them, and what hangs in lists.

ghost use Rattle.std.specs.Prelude.{◌≡◌, slice_get, ◌≤◌};
ghost use Rattle.lx_state.specs.Step.{Gives};
ghost use Rattle.lx_objects.specs.Statements.{Gathers, all_hanging, all_of, any_in_state, are_all, assign_made, body_made, deepest_made, elif_made, else_made, hanging, if_made, is_in_state, is_nothing, items_hanging, keep_assigning, keep_made, leaf_place, list_hanging, made_depth, next_state_made, next_value_made, node_sum, only, outline_of, single, statements_of};

use lx_fhdl::{ExprId, TargetId};
use lx_state::machine::{Form, Items, Leaves, Machine, Made};
use lx_state::values::Value;
use lx_state::work::{fault, limit};
use lx_text::faults::greatest;
use lx_text::{Kind, LimitKind, List, Refusal};
use std::alloc::Global;

/// The statements of an `If` or an `Else`.
#[derive(Drop)]
pub struct Body {
    pub made: List<usize>,
    /// The nodes that they count, with those of what they stand in.
    pub size: u32,
    /// The levels with them.
    pub depth: u8,
    /// Whether one of them stands in a state of an FSM alone.
    pub in_state: bool,
}

/// What a statement counts, and its line.
#[derive(Clone, Copy)]
pub struct Outline {
    pub line: u32,
    pub size: u32,
    pub depth: u8,
    pub in_state: bool,
}

/// Whether there are things of one kind alone.
pub fn are_all(what: Leaves, leaves: Leaves) -> bool
    ensures { result ≡ are_all what leaves }
{
    match (what, leaves) {
        (Leaves::Statements, Leaves::Nothing | Leaves::Statements) => true,
        (Leaves::StateStatements, Leaves::Nothing | Leaves::Statements | Leaves::StateStatements) =>
            true,
        (Leaves::Modules, Leaves::Nothing | Leaves::Modules) => true,
        (Leaves::ClockDomains, Leaves::Nothing | Leaves::ClockDomains) => true,
        (Leaves::Specials, Leaves::Nothing | Leaves::Specials) => true,
        _ => false,
    }
}

// The place of a statement, or of an object.
fn leaf_place(what: Leaves, value: Value) -> Option<usize>
    ensures { result ≡ leaf_place what value }
{
    match (what, value) {
        (Leaves::Statements, Value::Made(at)) => Some(at),
        (Leaves::StateStatements, Value::Made(at)) => Some(at),
        (Leaves::Modules, Value::Object(at)) => Some(at),
        _ => None,
    }
}

fn is_nothing(leaves: Leaves) -> bool
    ensures { result ≡ is_nothing leaves }
{
    match leaves {
        Leaves::Nothing => true,
        _ => false,
    }
}

// Adds what hangs in a value, within so many levels of lists, where it is of one kind alone.
#[cycle(gather)]
fn gather(
    line: u32,
    what: Leaves,
    lists: &List<Items>,
    levels: u8,
    value: Value,
    into: &mut List<usize>,
) -> Result<(), Refusal>
    ensures { Gathers result into.old into.new (hanging line what lists.now levels value) }
{
    match value {
        Value::List(at) => gather_list(line, what, lists, levels, at, into),
        Value::Tuple(at) => gather_list(line, what, lists, levels, at, into),
        _ => gather_leaf(line, what, value, into),
    }
}

// Adds what hangs in a list, within so many levels.
#[cycle(gather)]
#[tactic(auto, unfolding(crate::specs::Statements::list_hanging))]
fn gather_list(
    line: u32,
    what: Leaves,
    lists: &List<Items>,
    levels: u8,
    at: usize,
    into: &mut List<usize>,
) -> Result<(), Refusal>
    ensures { Gathers result into.old into.new (list_hanging line what lists.now levels at) }
{
    if levels == 0 {
        return Err(fault(line, Kind::WrongKind));
    }
    gather_items(line, what, lists, levels - 1, at, into)
}

// Adds a statement or an object.
fn gather_leaf(line: u32, what: Leaves, value: Value, into: &mut List<usize>) -> Result<(), Refusal>
    ensures { Gathers result into.old into.new (single line (leaf_place what value)) }
{
    match leaf_place(what, value) {
        Some(at) => {
            into.push(at)?;
            Ok(())
        }
        None => Err(fault(line, Kind::WrongKind)),
    }
}

// Adds what hangs in a list.
#[cycle(gather)]
fn gather_items(
    line: u32,
    what: Leaves,
    lists: &List<Items>,
    levels: u8,
    at: usize,
    into: &mut List<usize>,
) -> Result<(), Refusal>
    ensures { Gathers result into.old into.new (items_hanging line (hanging line what lists.now levels) (slice_get lists.now at)) }
{
    match lists.get(at) {
        Some(items) => {
            if is_nothing(items.leaves) {
                return Ok(());
            }
            gather_all(line, what, lists, levels, items.values.as_slice(), into)
        }
        None => Err(fault(line, Kind::WrongKind)),
    }
}

// Adds what hangs in some values.
#[cycle(gather)]
#[tactic(auto, unfolding(crate::specs::Statements::all_hanging), using(crate::proofs::Behind::behind_both, crate::proofs::Behind::behind_err))]
fn gather_all(
    line: u32,
    what: Leaves,
    lists: &List<Items>,
    levels: u8,
    values: &[Value],
    into: &mut List<usize>,
) -> Result<(), Refusal>
    ensures { Gathers result into.old into.new (all_hanging (hanging line what lists.now levels) values.now) }
{
    for value in values {
        gather(line, what, lists, levels, *value, into)?;
    }
    Ok(())
}

/// Tells whether things of one kind alone hang in some values.
#[tactic(auto, unfolding(crate::specs::Statements::only))]
pub fn only(machine: &Machine, what: Leaves, line: u32, values: &[Value]) -> Result<(), Refusal>
    ensures { Gives result machine.now (only what line values.now machine.now) }
{
    if are_all(what, machine.all_leaves(values)) {
        Ok(())
    } else {
        Err(fault(line, Kind::WrongKind))
    }
}

/// The statements, or the objects, that hang in some values, in their order.
#[tactic(auto, unfolding(crate::specs::Statements::all_of))]
pub fn all_of(
    machine: &Machine,
    alloc: Global,
    what: Leaves,
    line: u32,
    values: &[Value],
) -> Result<List<usize>, Refusal>
    ensures { Gives result machine.now (all_of what line values.now machine.now) }
{
    let mut found = List::new(alloc);
    gather_all(line, what, &machine.lists, 64, values, &mut found)?;
    Ok(found)
}

/// The sum of two numbers of nodes.
#[tactic(auto, unfolding(crate::specs::Statements::node_sum))]
pub fn node_sum(machine: &Machine, line: u32, first: u32, second: u32) -> Result<u32, Refusal>
    ensures { Gives result machine.now (node_sum line first second machine.now) }
{
    let sum = first as u64 + second as u64;
    if sum > greatest(LimitKind::Nodes) as u64 {
        return Err(limit(line, LimitKind::Nodes));
    }
    Ok(sum as u32)
}

/// The statements of a kind in some values, which count their nodes and some more, and these nodes.
#[tactic(auto, unfolding(crate::specs::Statements::statements_of))]
pub fn statements_of(
    machine: &mut Machine,
    alloc: Global,
    what: Leaves,
    line: u32,
    own: u32,
    values: &[Value],
) -> Result<(List<usize>, u32), Refusal>
    ensures { Gives result machine.new (statements_of what line own values.now machine.old) }
{
    only(machine, what, line, values)?;
    let size = machine.sizes_of(values);
    let total = node_sum(machine, line, own, size)?;
    machine.spend_nodes(line, total)?;
    let made = all_of(machine, alloc, what, line, values)?;
    Ok((made, total))
}

fn made_depth(machine: &Machine, at: usize) -> u8
    ensures { result ≡ made_depth (slice_get machine.now.made at) }
{
    match machine.made.get(at) {
        Some(made) => made.depth,
        None => 0,
    }
}

/// The levels of the deepest of some statements.
pub fn deepest_made(machine: &Machine, made: &[usize]) -> u8
    ensures { result ≡ deepest_made machine.now made.now }
{
    let mut depth = 0;
    for at in made {
        depth = made_depth(machine, *at).max(depth);
    }
    depth
}

fn is_in_state(leaves: Leaves) -> bool
    ensures { result ≡ is_in_state leaves }
{
    match leaves {
        Leaves::StateStatements => true,
        _ => false,
    }
}

/// Whether one of the statements in some values stands in a state of an FSM alone.
pub fn any_in_state(machine: &Machine, values: &[Value]) -> bool
    ensures { result ≡ any_in_state machine.now values.now }
{
    is_in_state(machine.all_leaves(values))
}

/// The statements of an `If` or an `Else`.
#[tactic(auto, unfolding(crate::specs::Statements::body_made))]
pub fn body_made(
    machine: &mut Machine,
    alloc: Global,
    line: u32,
    own: u32,
    values: &[Value],
) -> Result<Body, Refusal>
    ensures { Gives result machine.new (body_made line own values.now machine.old) }
{
    let (made, size) = statements_of(machine, alloc, Leaves::StateStatements, line, own, values)?;
    let below = deepest_made(machine, made.as_slice());
    let depth = machine.deeper(line, below)?;
    let in_state = any_in_state(machine, values);
    Ok(Body {
        made,
        size,
        depth,
        in_state,
    })
}

/// A statement as a value.
#[tactic(auto, unfolding(crate::specs::Statements::keep_made))]
pub fn keep_made(machine: &mut Machine, made: Made) -> Result<Value, Refusal>
    ensures { Gives result machine.new (keep_made made machine.old) }
{
    let place = machine.made.len();
    machine.made.push(made)?;
    Ok(Value::Made(place))
}

// Keeps what assigns. So many targets stand inside its target, on so many levels.
#[tactic(auto, unfolding(crate::specs::Statements::keep_assigning))]
fn keep_assigning(
    machine: &mut Machine,
    line: u32,
    form: Form,
    in_state: bool,
    inside: u32,
    levels: u8,
) -> Result<Value, Refusal>
    ensures { Gives result machine.new (keep_assigning line form in_state inside levels machine.old) }
{
    let size = node_sum(machine, line, 1, inside)?;
    machine.spend_nodes(line, size)?;
    let depth = machine.deeper(line, levels)?;
    keep_made(
        machine,
        Made {
            form,
            line,
            size,
            depth,
            in_state,
        },
    )
}

/// Makes an assignment. So many targets stand inside its target, on so many levels.
#[tactic(auto, unfolding(crate::specs::Statements::assign_made))]
pub fn assign_made(
    machine: &mut Machine,
    line: u32,
    target: TargetId,
    source: ExprId,
    inside: u32,
    levels: u8,
) -> Result<Value, Refusal>
    ensures { Gives result machine.new (assign_made line target source inside levels machine.old) }
{
    let form = Form::Assign {
        target,
        value: source,
    };
    keep_assigning(machine, line, form, false, inside, levels)
}

/// Makes a `NextValue`, which counts as an assignment does.
#[tactic(auto, unfolding(crate::specs::Statements::next_value_made))]
pub fn next_value_made(
    machine: &mut Machine,
    line: u32,
    target: TargetId,
    source: ExprId,
    inside: u32,
    levels: u8,
) -> Result<Value, Refusal>
    ensures { Gives result machine.new (next_value_made line target source inside levels machine.old) }
{
    let form = Form::NextValue {
        target,
        value: source,
    };
    keep_assigning(machine, line, form, true, inside, levels)
}

/// Makes a `NextState` of the name at a place among the texts.
#[tactic(auto, unfolding(crate::specs::Statements::next_state_made))]
pub fn next_state_made(machine: &mut Machine, line: u32, name: usize) -> Result<Value, Refusal>
    ensures { Gives result machine.new (next_state_made line name machine.old) }
{
    machine.spend_nodes(line, 1)?;
    keep_made(
        machine,
        Made {
            form: Form::NextState { name },
            line,
            size: 1,
            depth: 1,
            in_state: true,
        },
    )
}

/// Makes an `If`.
#[tactic(auto, unfolding(crate::specs::Statements::if_made))]
pub fn if_made(
    machine: &mut Machine,
    alloc: Global,
    line: u32,
    condition: ExprId,
    values: &[Value],
) -> Result<Value, Refusal>
    ensures { Gives result machine.new (if_made line condition values.now machine.old) }
{
    let Body {
        made,
        size,
        depth,
        in_state,
    } = body_made(machine, alloc, line, 1, values)?;
    keep_made(
        machine,
        Made {
            form: Form::If {
                before: None,
                cond: condition,
                body: made,
            },
            line,
            size,
            depth,
            in_state,
        },
    )
}

/// What a statement counts, and its line.
pub fn outline_of(machine: &Machine, line: u32, at: usize) -> Result<Outline, Refusal>
    ensures { Gives result machine.now (outline_of line at machine.now) }
{
    match machine.made.get(at) {
        Some(made) => Ok(Outline {
            line: made.line,
            size: made.size,
            depth: made.depth,
            in_state: made.in_state,
        }),
        None => Err(fault(line, Kind::WrongKind)),
    }
}

/// Makes a further branch of an `If`, which stays as it is.
#[tactic(auto, unfolding(crate::specs::Statements::elif_made))]
pub fn elif_made(
    machine: &mut Machine,
    alloc: Global,
    line: u32,
    before: usize,
    condition: ExprId,
    values: &[Value],
) -> Result<Value, Refusal>
    ensures { Gives result machine.new (elif_made line before condition values.now machine.old) }
{
    let first = outline_of(machine, line, before)?;
    let Body {
        made,
        size,
        depth,
        in_state,
    } = body_made(machine, alloc, line, 0, values)?;
    let size = node_sum(machine, line, first.size, size)?;
    keep_made(
        machine,
        Made {
            form: Form::If {
                before: Some(before),
                cond: condition,
                body: made,
            },
            line: first.line,
            size,
            depth: first.depth.max(depth),
            in_state: first.in_state || in_state,
        },
    )
}

/// Makes the `Else` of an `If`, which stays as it is.
#[tactic(auto, unfolding(crate::specs::Statements::else_made))]
pub fn else_made(
    machine: &mut Machine,
    alloc: Global,
    line: u32,
    before: usize,
    values: &[Value],
) -> Result<Value, Refusal>
    ensures { Gives result machine.new (else_made line before values.now machine.old) }
{
    let first = outline_of(machine, line, before)?;
    let Body {
        made,
        size,
        depth,
        in_state,
    } = body_made(machine, alloc, line, 0, values)?;
    let size = node_sum(machine, line, first.size, size)?;
    keep_made(
        machine,
        Made {
            form: Form::Else { before, body: made },
            line: first.line,
            size,
            depth: first.depth.max(depth),
            in_state: first.in_state || in_state,
        },
    )
}
