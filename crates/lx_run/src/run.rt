//! Running expressions and statements, and making the modules of classes. `depth` says how far a run may still go down.

ghost use Rattle.std.specs.Prelude.{◌≡◌, ◌<◌, ◌≤◌, ◌++◌, All, IfOk, [], length, option_to_list};
ghost use Rattle.lx_token.specs.Meanings.{quoted_bytes};
ghost use Rattle.lx_syntax.specs.Convert.{text_of};
ghost use Rattle.lx_syntax.specs.Forms.{choices_at, class_of, expr_of, items_at, links_at, pairs_at, stmt_of, trailers_at};
ghost use Rattle.lx_state.specs.Lists.{text_made};
ghost use Rattle.lx_state.specs.Step.{Gives, go_on};
ghost use Rattle.lx_run.specs.Calls.{called};
ghost use Rattle.lx_run.specs.Classes.{body_run, module_run};
ghost use Rattle.lx_run.specs.Meant.{AreLower, IsLowerArgument, IsLowerBranch, IsLowerBranching, IsLowerClass, IsLowerCouple, IsLowerLink, IsLowerOption, IsLowerPlace, IsLowerTrailer, all_run, argument_run, block_run, bound_meant, branches_meant, call_meant, hold_run, kept_of, last_run, makes, object_meant, place_of, run_plain, texts, trailer_run, value_meant};
ghost use Rattle.lx_run.specs.Running.{attribute_sum, base_run, chosen, comprehended, entries, entry_run, evals, exec, first_standing, first_that, fragment_added, gathered, held_value, is_text, is_wanted, item_run, kept, last_attribute, link_run, linked, loop_run, name_added, nothing_told, number, place_added, place_bound, run_alone, slice_run, some_value, tested, trailed, turn, turn_gathered, turns, weighed};
ghost use Rattle.lx_run.specs.Signs.{all_applied};

use crate::arguments::{no_arguments, with_held, with_items, with_named};
use crate::classes::{class_bound, module_begun, params_bound};
use crate::descent::Levels;
use crate::loops::{names_bound, names_hidden, names_restored};
use crate::reading::{Operand, Tail, class_at, expr_at, operand_of, stmt_at, tail_of};
use crate::signs::{Pending, all_applied, comparison_of, python_op, with_nots, with_signs};
use lx_arena::Id;
use lx_builtins::{Arguments, builtin_called, method_called};
use lx_ops::{
    Holder, add_at, adds, attribute_of, binary, bind_at, compare, holder_of, item_of, read_at,
    setattr_holder, slice_of, truth, truth_value,
};
use lx_pytree::PyNodes;
use lx_state::machine::{Machine, Pair};
use lx_state::values::{Builtin, Value};
use lx_state::work::{fault, limit};
use lx_syntax::{
    Argument, Branch, Branching, ClassForm, Couple, ExprForm, Link, Place, StmtForm, Syntax,
    Trailer,
};
use lx_text::{Kind, LimitKind, List, NoMemory, Refusal};
use lx_token::{Token, quoted_word};
use lx_value::PyOp;
use std::alloc::Global;

// ---- expressions

/// Where an expression stands, which says what its last attribute may be.
#[derive(Clone, Copy)]
pub enum Standing {
    /// It gives a value.
    Plain,
    /// Before an attribute that is bound or added to.
    Place,
    /// As the first argument of `setattr`.
    First,
}

// A number, which may be too great.
fn number(machine: &Machine, line: u32, value: Option<i128>) -> Result<Value, Refusal>
    ensures { Gives result machine.now (number line value machine.now) }
{
    let _machine = machine;
    match value {
        Some(number) => Ok(Value::Int(number)),
        None => Err(fault(line, Kind::NumberRange)),
    }
}

// What a text stands for.
fn quoted(
    machine: &mut Machine,
    alloc: Global,
    syntax: &Syntax,
    line: u32,
    token: &Token,
) -> Result<Value, Refusal>
    ensures { Gives result machine.new (text_made line (quoted_bytes (text_of syntax.now.src token.now)) machine.old) }
{
    let bytes = quoted_word(alloc, syntax.text(token))?;
    machine.text_made(line, bytes)
}

/// Runs an expression.
#[cycle(run)]
#[tactic(auto, using(crate::proofs::Spine::nots_end, crate::proofs::Spine::signs_end), unfolding(crate::specs::Running::eval, crate::specs::Signs::all_applied, lx_syntax::specs::Forms::expr_form))]
pub fn eval(
    machine: &mut Machine,
    alloc: Global,
    syntax: &Syntax,
    depth: Levels,
    id: Id<PyNodes>,
) -> Result<Value, Refusal>
    requires { id.place < length syntax.now.nodes }
    ensures { Gives result machine.new (run_plain syntax.now depth.classes id machine.old) }
{
    if depth.nested == 0 {
        return Err(Refusal::NoMemory);
    }
    let depth = Levels {
        classes: depth.classes,
        nested: depth.nested - 1,
    };
    let node = expr_at(syntax, id);
    let line = node.line;
    match &node.expr {
        ExprForm::Misshapen => Err(fault(0, Kind::WrongKind)),
        ExprForm::Same(inner) => eval(machine, alloc, syntax, depth, *inner),
        ExprForm::Name(name) => machine.named(alloc, line, syntax.text(name)),
        ExprForm::Number(value) => number(machine, line, *value),
        ExprForm::Quoted(token) => quoted(machine, alloc, syntax, line, token),
        ExprForm::Nothing => Ok(Value::Nothing),
        ExprForm::Truth(holds) => Ok(truth_value(*holds)),
        ExprForm::Tuple(ids) => {
            let values = evals(machine, alloc, syntax, depth, id.place, ids.as_slice())?;
            machine.tuple_made(line, values)
        }
        ExprForm::Listed(ids) => {
            let values = evals(machine, alloc, syntax, depth, id.place, ids.as_slice())?;
            machine.list_made(line, values)
        }
        ExprForm::Dictionary(pairs) => {
            let entries = entries(machine, alloc, syntax, depth, id.place, pairs.as_slice())?;
            machine.dictionary_made(entries)
        }
        ExprForm::Comprehension {
            item,
            names,
            source,
            filter,
        } => {
            let source = eval(machine, alloc, syntax, depth, *source)?;
            let names = names.as_slice();
            comprehended(
                machine, alloc, syntax, depth, id.place, line, names, *item, *filter, source,
            )
        }
        ExprForm::Choice { value, rest } => {
            chosen(
                machine,
                alloc,
                syntax,
                depth,
                id.place,
                *value,
                rest.as_slice(),
            )
        }
        ExprForm::Either(ids) => {
            first_that(
                machine,
                alloc,
                syntax,
                depth,
                id.place,
                true,
                line,
                ids.as_slice(),
            )
        }
        ExprForm::Both(ids) => {
            first_that(
                machine,
                alloc,
                syntax,
                depth,
                id.place,
                false,
                line,
                ids.as_slice(),
            )
        }
        ExprForm::Not { words, of } => {
            let waiting = with_nots(List::new(alloc), words.as_slice())?;
            spine(machine, alloc, syntax, depth, waiting, *of)
        }
        ExprForm::Compare { by, left, right } => {
            let first = eval(machine, alloc, syntax, depth, *left)?;
            let second = eval(machine, alloc, syntax, depth, *right)?;
            compare(machine, alloc, line, comparison_of(*by), first, second)
        }
        ExprForm::IsNothing { negated, of } => {
            let value = eval(machine, alloc, syntax, depth, *of)?;
            Ok(nothing_told(*negated, value))
        }
        ExprForm::Chain { first, rest } => {
            let value = eval(machine, alloc, syntax, depth, *first)?;
            linked(
                machine,
                alloc,
                syntax,
                depth,
                id.place,
                line,
                value,
                rest.as_slice(),
            )
        }
        ExprForm::Prefixed { signs, of } => {
            let waiting = with_signs(List::new(alloc), signs.as_slice())?;
            spine(machine, alloc, syntax, depth, waiting, *of)
        }
        ExprForm::Power { base, exponent } => {
            let value = eval(machine, alloc, syntax, depth, *base)?;
            let waiting = List::of_one(alloc, Pending::Power(line, value))?;
            spine(machine, alloc, syntax, depth, waiting, *exponent)
        }
        ExprForm::Post { of, trailers } => {
            let value = eval(machine, alloc, syntax, depth, *of)?;
            let plain = Standing::Plain;
            let trailers = trailers.as_slice();
            let held = trailed(
                machine, alloc, syntax, depth, id.place, plain, line, value, trailers,
            )?;
            held_value(machine, line, held)
        }
    }
}

// Whether a value is None, or is not.
fn nothing_told(negated: bool, value: Value) -> Value
    ensures { result ≡ nothing_told negated value }
{
    match value {
        Value::Nothing => truth_value(!negated),
        _ => truth_value(negated),
    }
}

// A base is run, and its power waits.
#[cycle(run)]
#[tactic(auto, unfolding(crate::specs::Running::base_run))]
fn base_run(
    machine: &mut Machine,
    alloc: Global,
    syntax: &Syntax,
    depth: Levels,
    waiting: List<Pending>,
    line: u32,
    base: Id<PyNodes>,
) -> Result<List<Pending>, Refusal>
    requires { base.place < length syntax.now.nodes }
    ensures { Gives result machine.new (base_run waiting line (run_plain syntax.now depth.classes base) machine.old) }
{
    let value = eval(machine, alloc, syntax, depth, base)?;
    let mut pending = waiting;
    pending.push(Pending::Power(line, value))?;
    Ok(pending)
}

// Runs an operand for which something waits. Powers and signs nest without a bound: they are gone down one by one.
#[cycle(run)]
#[tactic(auto, using(crate::proofs::Spine::spine_signs, crate::proofs::Spine::spine_power), unfolding(lx_syntax::specs::Forms::expr_form))]
fn spine(
    machine: &mut Machine,
    alloc: Global,
    syntax: &Syntax,
    depth: Levels,
    waiting: List<Pending>,
    operand: Id<PyNodes>,
) -> Result<Value, Refusal>
    requires { operand.place < length syntax.now.nodes }
    ensures { Gives result machine.new (go_on (run_plain syntax.now depth.classes operand machine.old) (all_applied waiting)) }
{
    let mut pending = waiting;
    let mut id = operand;
    'spine: loop {
        let node = expr_at(syntax, id);
        match &node.expr {
            ExprForm::Prefixed { signs, of } => {
                pending = with_signs(pending, signs.as_slice())?;
                id = *of;
            }
            ExprForm::Power { base, exponent } => {
                pending = base_run(machine, alloc, syntax, depth, pending, node.line, *base)?;
                id = *exponent;
            }
            _ => {
                let value = eval(machine, alloc, syntax, depth, id)?;
                return all_applied(machine, alloc, pending, value);
            }
        }
    }
}

// Runs expressions from the left.
#[cycle(run)]
#[tactic(auto, unfolding(crate::specs::Running::evals, lx_syntax::specs::Forms::items_at))]
fn evals(
    machine: &mut Machine,
    alloc: Global,
    syntax: &Syntax,
    depth: Levels,
    bound: usize,
    ids: &[Id<PyNodes>],
) -> Result<List<Value>, Refusal>
    requires within { bound ≤ length syntax.now.nodes }
    requires lower { AreLower bound ids.now }
    ensures { Gives result machine.new (evals (makes syntax.now depth.classes) (items_at (expr_of syntax.now) ids.now) machine.old) }
{
    let mut values = List::new(alloc);
    for id in ids {
        let value = eval(machine, alloc, syntax, depth, *id)?;
        values.push(value)?;
    }
    Ok(values)
}

// Runs a key, and then its value.
#[cycle(run)]
#[tactic(auto, unfolding(crate::specs::Running::entry_run))]
fn entry_run(
    machine: &mut Machine,
    alloc: Global,
    syntax: &Syntax,
    depth: Levels,
    pair: Couple,
) -> Result<Pair, Refusal>
    requires { IsLowerCouple (length syntax.now.nodes) pair }
    ensures { Gives result machine.new (entry_run (run_plain syntax.now depth.classes pair.first) (run_plain syntax.now depth.classes pair.second) machine.old) }
{
    let key = eval(machine, alloc, syntax, depth, pair.first)?;
    let value = eval(machine, alloc, syntax, depth, pair.second)?;
    Ok(Pair { key, value })
}

// Runs keys and values pair by pair.
#[cycle(run)]
#[tactic(auto, unfolding(crate::specs::Running::entries, lx_syntax::specs::Forms::pairs_at))]
fn entries(
    machine: &mut Machine,
    alloc: Global,
    syntax: &Syntax,
    depth: Levels,
    bound: usize,
    pairs: &[Couple],
) -> Result<List<Pair>, Refusal>
    requires within { bound ≤ length syntax.now.nodes }
    requires lower { All (IsLowerCouple bound) pairs.now }
    ensures { Gives result machine.new (entries (makes syntax.now depth.classes) (pairs_at (expr_of syntax.now) pairs.now) machine.old) }
{
    let mut made = List::new(alloc);
    for pair in pairs {
        let entry = entry_run(machine, alloc, syntax, depth, *pair)?;
        made.push(entry)?;
    }
    Ok(made)
}

// Runs a condition, which is tested on this line.
#[cycle(run)]
#[tactic(auto, unfolding(crate::specs::Running::tested))]
fn tested(
    machine: &mut Machine,
    alloc: Global,
    syntax: &Syntax,
    depth: Levels,
    line: u32,
    id: Id<PyNodes>,
) -> Result<bool, Refusal>
    requires { id.place < length syntax.now.nodes }
    ensures { Gives result machine.new (tested line (run_plain syntax.now depth.classes id) machine.old) }
{
    let value = eval(machine, alloc, syntax, depth, id)?;
    truth(machine, line, value)
}

// Of a conditional, a condition is run before what is chosen.
#[cycle(run)]
#[tactic(auto, unfolding(crate::specs::Running::chosen, lx_syntax::specs::Forms::choices_at))]
fn chosen(
    machine: &mut Machine,
    alloc: Global,
    syntax: &Syntax,
    depth: Levels,
    bound: usize,
    first: Id<PyNodes>,
    rest: &[Branching],
) -> Result<Value, Refusal>
    requires within { bound ≤ length syntax.now.nodes }
    requires first { first.place < bound }
    requires lower { All (IsLowerBranching bound) rest.now }
    ensures { Gives result machine.new (chosen (makes syntax.now depth.classes) (run_plain syntax.now depth.classes first) (choices_at (expr_of syntax.now) rest.now) machine.old) }
{
    let mut value = first;
    for branching in rest {
        let holds = tested(
            machine,
            alloc,
            syntax,
            depth,
            branching.line,
            branching.condition,
        )?;
        if holds {
            return eval(machine, alloc, syntax, depth, value);
        }
        value = branching.value;
    }
    eval(machine, alloc, syntax, depth, value)
}

// Runs an operand of `or` or `and`, and tells whether it is true.
#[cycle(run)]
#[tactic(auto, unfolding(crate::specs::Running::weighed))]
fn weighed(
    machine: &mut Machine,
    alloc: Global,
    syntax: &Syntax,
    depth: Levels,
    line: u32,
    id: Id<PyNodes>,
) -> Result<(Value, bool), Refusal>
    requires { id.place < length syntax.now.nodes }
    ensures { Gives result machine.new (weighed line (run_plain syntax.now depth.classes id) machine.old) }
{
    let value = eval(machine, alloc, syntax, depth, id)?;
    let holds = truth(machine, line, value)?;
    Ok((value, holds))
}

// Whether an operand is what its chain looks for.
fn is_wanted(wanted: bool, holds: bool) -> bool
    ensures { result ≡ is_wanted wanted holds }
{
    if wanted { holds } else { !holds }
}

// The first operand that is true, or the first that is false; else the last one, which isn't tested.
#[cycle(run)]
#[tactic(auto, using(crate::proofs::Operands::none_first, crate::proofs::Operands::last_first, crate::proofs::Operands::more_first, crate::proofs::Operands::found_first, crate::proofs::Operands::passed_first))]
fn first_that(
    machine: &mut Machine,
    alloc: Global,
    syntax: &Syntax,
    depth: Levels,
    bound: usize,
    wanted: bool,
    line: u32,
    ids: &[Id<PyNodes>],
) -> Result<Value, Refusal>
    requires within { bound ≤ length syntax.now.nodes }
    requires lower { AreLower bound ids.now }
    ensures { Gives result machine.new (first_that (makes syntax.now depth.classes) wanted line (items_at (expr_of syntax.now) ids.now) machine.old) }
{
    let mut rest = ids;
    'operands: loop {
        match operand_of(rest) {
            Operand::Nothing => return Err(fault(0, Kind::WrongKind)),
            Operand::Last(id) => {
                return eval(machine, alloc, syntax, depth, id);
            }
            Operand::More(id, left) => {
                let (value, holds) = weighed(machine, alloc, syntax, depth, line, id)?;
                if is_wanted(wanted, holds) {
                    return Ok(value);
                }
                rest = left;
            }
        }
    }
}

// An operator of a chain, whose left operand was run.
#[cycle(run)]
#[tactic(auto, unfolding(crate::specs::Running::link_run))]
fn link_run(
    machine: &mut Machine,
    alloc: Global,
    syntax: &Syntax,
    depth: Levels,
    line: u32,
    value: Value,
    link: Link,
) -> Result<Value, Refusal>
    requires { link.operand.place < length syntax.now.nodes }
    ensures { Gives result machine.new (link_run line link.operator value (run_plain syntax.now depth.classes link.operand) machine.old) }
{
    let operand = eval(machine, alloc, syntax, depth, link.operand)?;
    binary(
        machine,
        alloc,
        line,
        python_op(link.operator),
        value,
        operand,
    )
}

// A chain of operators, from the left.
#[cycle(run)]
#[tactic(auto, unfolding(crate::specs::Running::linked, lx_syntax::specs::Forms::links_at))]
fn linked(
    machine: &mut Machine,
    alloc: Global,
    syntax: &Syntax,
    depth: Levels,
    bound: usize,
    line: u32,
    first: Value,
    rest: &[Link],
) -> Result<Value, Refusal>
    requires within { bound ≤ length syntax.now.nodes }
    requires lower { All (IsLowerLink bound) rest.now }
    ensures { Gives result machine.new (linked (makes syntax.now depth.classes) line first (links_at (expr_of syntax.now) rest.now) machine.old) }
{
    let mut value = first;
    for link in rest {
        value = link_run(machine, alloc, syntax, depth, line, value, *link)?;
    }
    Ok(value)
}

// ---- comprehensions

// Runs a part that may be missing, where it is there.
#[cycle(run)]
fn some_run(
    machine: &mut Machine,
    alloc: Global,
    syntax: &Syntax,
    depth: Levels,
    id: Id<PyNodes>,
) -> Result<Option<Value>, Refusal>
    requires { id.place < length syntax.now.nodes }
    ensures { Gives result machine.new (some_value (run_plain syntax.now depth.classes id) machine.old) }
{
    let value = eval(machine, alloc, syntax, depth, id)?;
    Ok(Some(value))
}

// The item of a comprehension, where the filter holds.
#[cycle(run)]
#[tactic(auto, unfolding(crate::specs::Running::kept, lx_syntax::specs::Forms::bound_at))]
fn kept(
    machine: &mut Machine,
    alloc: Global,
    syntax: &Syntax,
    depth: Levels,
    bound: usize,
    line: u32,
    item: Id<PyNodes>,
    filter: Option<Id<PyNodes>>,
) -> Result<Option<Value>, Refusal>
    requires within { bound ≤ length syntax.now.nodes }
    requires item { item.place < bound }
    requires filter { IsLowerOption bound filter }
    ensures { Gives result machine.new (kept_of syntax.now depth.classes line item filter machine.old) }
{
    match filter {
        None => some_run(machine, alloc, syntax, depth, item),
        Some(filter) => {
            let holds = tested(machine, alloc, syntax, depth, line, filter)?;
            if holds {
                some_run(machine, alloc, syntax, depth, item)
            } else {
                Ok(None)
            }
        }
    }
}

// Values, and one more where it is there.
fn with_more(so_far: List<Value>, more: Option<Value>) -> Result<List<Value>, NoMemory>
    ensures { IfOk result (λ values. values ≡ so_far ++ option_to_list more) }
{
    let Some(value) = more else {
        return Ok(so_far);
    };
    let mut values = so_far;
    values.push(value)?;
    Ok(values)
}

// What one item of the source adds to the values so far.
#[cycle(run)]
#[tactic(auto, unfolding(crate::specs::Running::turn_gathered))]
fn turn_gathered(
    machine: &mut Machine,
    alloc: Global,
    syntax: &Syntax,
    depth: Levels,
    bound: usize,
    line: u32,
    names: &[Token],
    item: Id<PyNodes>,
    filter: Option<Id<PyNodes>>,
    so_far: List<Value>,
    value: Value,
) -> Result<List<Value>, Refusal>
    requires within { bound ≤ length syntax.now.nodes }
    requires item { item.place < bound }
    requires filter { IsLowerOption bound filter }
    ensures { Gives result machine.new (turn_gathered line (texts syntax.now names.now) (kept_of syntax.now depth.classes line item filter) so_far value machine.old) }
{
    machine.spend(line, 1)?;
    names_bound(machine, alloc, syntax, line, names, value)?;
    let more = kept(machine, alloc, syntax, depth, bound, line, item, filter)?;
    Ok(with_more(so_far, more)?)
}

// What all items of the source add.
#[cycle(run)]
#[tactic(auto, unfolding(crate::specs::Running::gathered))]
fn gathered(
    machine: &mut Machine,
    alloc: Global,
    syntax: &Syntax,
    depth: Levels,
    bound: usize,
    line: u32,
    names: &[Token],
    item: Id<PyNodes>,
    filter: Option<Id<PyNodes>>,
    items: &[Value],
) -> Result<List<Value>, Refusal>
    requires within { bound ≤ length syntax.now.nodes }
    requires item { item.place < bound }
    requires filter { IsLowerOption bound filter }
    ensures { Gives result machine.new (gathered line (texts syntax.now names.now) (kept_of syntax.now depth.classes line item filter) [] items.now machine.old) }
{
    let mut values = List::new(alloc);
    for value in items {
        values = turn_gathered(
            machine, alloc, syntax, depth, bound, line, names, item, filter, values, *value,
        )?;
    }
    Ok(values)
}

// The list that a comprehension makes of the items of a value.
#[cycle(run)]
#[tactic(auto, unfolding(crate::specs::Running::comprehended))]
fn comprehended(
    machine: &mut Machine,
    alloc: Global,
    syntax: &Syntax,
    depth: Levels,
    bound: usize,
    line: u32,
    names: &[Token],
    item: Id<PyNodes>,
    filter: Option<Id<PyNodes>>,
    source: Value,
) -> Result<Value, Refusal>
    requires within { bound ≤ length syntax.now.nodes }
    requires item { item.place < bound }
    requires filter { IsLowerOption bound filter }
    ensures { Gives result machine.new (comprehended line (texts syntax.now names.now) (kept_of syntax.now depth.classes line item filter) source machine.old) }
{
    let items = machine.items_of(alloc, line, source)?;
    let hidden = names_hidden(machine, alloc, syntax, names)?;
    let values = gathered(
        machine,
        alloc,
        syntax,
        depth,
        bound,
        line,
        names,
        item,
        filter,
        items.as_slice(),
    )?;
    names_restored(machine, hidden)?;
    machine.list_made(line, values)
}

// ---- attributes, calls and subscripts

// A bound of a slice, where it is there.
#[cycle(run)]
#[tactic(auto, unfolding(crate::specs::Running::bound_run, lx_syntax::specs::Forms::bound_at))]
fn bound_run(
    machine: &mut Machine,
    alloc: Global,
    syntax: &Syntax,
    depth: Levels,
    bound: usize,
    id: Option<Id<PyNodes>>,
) -> Result<Option<Value>, Refusal>
    requires within { bound ≤ length syntax.now.nodes }
    requires lower { IsLowerOption bound id }
    ensures { Gives result machine.new (bound_meant syntax.now depth.classes id machine.old) }
{
    match id {
        None => Ok(None),
        Some(id) => some_run(machine, alloc, syntax, depth, id),
    }
}

// A subscript of a value that was run.
#[cycle(run)]
#[tactic(auto, unfolding(crate::specs::Running::item_run))]
fn item_run(
    machine: &mut Machine,
    alloc: Global,
    syntax: &Syntax,
    depth: Levels,
    line: u32,
    value: Value,
    id: Id<PyNodes>,
) -> Result<Value, Refusal>
    requires { id.place < length syntax.now.nodes }
    ensures { Gives result machine.new (item_run line value (run_plain syntax.now depth.classes id) machine.old) }
{
    let index = eval(machine, alloc, syntax, depth, id)?;
    item_of(machine, alloc, line, value, index)
}

// A slice of a value that was run.
#[cycle(run)]
#[tactic(auto, unfolding(crate::specs::Running::slice_run))]
fn slice_run(
    machine: &mut Machine,
    alloc: Global,
    syntax: &Syntax,
    depth: Levels,
    bound: usize,
    line: u32,
    value: Value,
    low: Option<Id<PyNodes>>,
    high: Option<Id<PyNodes>>,
) -> Result<Value, Refusal>
    requires within { bound ≤ length syntax.now.nodes }
    requires low { IsLowerOption bound low }
    requires high { IsLowerOption bound high }
    ensures { Gives result machine.new (slice_run line value (bound_meant syntax.now depth.classes low) (bound_meant syntax.now depth.classes high) machine.old) }
{
    let first = bound_run(machine, alloc, syntax, depth, bound, low)?;
    let past = bound_run(machine, alloc, syntax, depth, bound, high)?;
    slice_of(machine, line, value, first, past)
}

// Where the first argument of a call stands.
fn first_standing(callee: Value) -> Standing
    ensures { result ≡ first_standing callee }
{
    match callee {
        Value::Builtin(Builtin::SetAttr) => Standing::First,
        _ => Standing::Plain,
    }
}

// A value that is no fragment.
#[tactic(auto, unfolding(crate::specs::Running::held_value))]
fn held_value(machine: &Machine, line: u32, held: Holder) -> Result<Value, Refusal>
    ensures { Gives result machine.now (held_value line held machine.now) }
{
    let _machine = machine;
    match held {
        Holder::Plain(value) => Ok(value),
        Holder::Part(_) => Err(fault(line, Kind::WrongKind)),
    }
}

/// Runs an expression where a fragment may stand.
#[cycle(run)]
#[tactic(auto, using(crate::proofs::Plain::hold_plain), unfolding(crate::specs::Running::hold, lx_syntax::specs::Forms::expr_form))]
pub fn hold(
    machine: &mut Machine,
    alloc: Global,
    syntax: &Syntax,
    depth: Levels,
    at: Standing,
    id: Id<PyNodes>,
) -> Result<Holder, Refusal>
    requires { id.place < length syntax.now.nodes }
    ensures { Gives result machine.new (hold_run syntax.now depth.classes at id machine.old) }
{
    if depth.nested == 0 {
        return Err(Refusal::NoMemory);
    }
    let depth = Levels {
        classes: depth.classes,
        nested: depth.nested - 1,
    };
    let node = expr_at(syntax, id);
    match &node.expr {
        ExprForm::Same(inner) => hold(machine, alloc, syntax, depth, at, *inner),
        ExprForm::Post { of, trailers } => {
            let value = eval(machine, alloc, syntax, depth, *of)?;
            let trailers = trailers.as_slice();
            trailed(
                machine, alloc, syntax, depth, id.place, at, node.line, value, trailers,
            )
        }
        _ => {
            let value = eval(machine, alloc, syntax, depth, id)?;
            Ok(Holder::Plain(value))
        }
    }
}

// Runs an argument behind those so far.
#[cycle(run)]
#[tactic(auto, unfolding(crate::specs::Running::held_run, crate::specs::Running::starred_run, crate::specs::Running::named_run))]
fn argument_run(
    machine: &mut Machine,
    alloc: Global,
    syntax: &Syntax,
    depth: Levels,
    at: Standing,
    line: u32,
    so_far: Arguments,
    argument: Argument,
) -> Result<Arguments, Refusal>
    requires { IsLowerArgument (length syntax.now.nodes) argument }
    ensures { Gives result machine.new (argument_run syntax.now depth.classes at line so_far argument machine.old) }
{
    match argument {
        Argument::Placed(id) => {
            let held = hold(machine, alloc, syntax, depth, at, id)?;
            Ok(with_held(so_far, held)?)
        }
        Argument::Starred(id) => {
            let value = eval(machine, alloc, syntax, depth, id)?;
            let items = machine.items_of(alloc, line, value)?;
            Ok(with_items(so_far, items.as_slice())?)
        }
        Argument::Keyed(name, id) => {
            let value = eval(machine, alloc, syntax, depth, id)?;
            Ok(with_named(alloc, so_far, syntax.text(&name), value)?)
        }
    }
}

// Runs arguments in the order of the text.
#[cycle(run)]
#[tactic(auto, using(crate::proofs::Arguing::argument_more), unfolding(crate::specs::Running::arguments_run, lx_syntax::specs::Forms::arguments_at))]
fn arguments_run(
    machine: &mut Machine,
    alloc: Global,
    syntax: &Syntax,
    depth: Levels,
    bound: usize,
    first: Standing,
    line: u32,
    arguments: &[Argument],
) -> Result<Arguments, Refusal>
    requires within { bound ≤ length syntax.now.nodes }
    requires lower { All (IsLowerArgument bound) arguments.now }
    ensures { Gives result machine.new (all_run syntax.now depth.classes first line arguments.now machine.old) }
{
    let mut at = first;
    let mut args = no_arguments(alloc);
    for argument in arguments {
        args = argument_run(machine, alloc, syntax, depth, at, line, args, *argument)?;
        at = Standing::Plain;
    }
    Ok(args)
}

// Calls a value.
#[cycle(run)]
#[tactic(auto, unfolding(crate::specs::Calls::called))]
fn called(
    machine: &mut Machine,
    alloc: Global,
    syntax: &Syntax,
    depth: Levels,
    line: u32,
    callee: Value,
    args: Arguments,
) -> Result<Value, Refusal>
    ensures { Gives result machine.new (called (makes syntax.now depth.classes) line callee args machine.old) }
{
    match callee {
        Value::Class(at) => make(machine, alloc, syntax, depth, line, at, &args),
        Value::Builtin(builtin) => builtin_called(machine, alloc, line, builtin, args),
        Value::Method(method) => method_called(machine, alloc, line, method, args),
        _ => Err(fault(line, Kind::WrongKind)),
    }
}

// Runs the arguments of a call, and calls a value that was run.
#[cycle(run)]
#[tactic(auto, unfolding(crate::specs::Running::call_run))]
fn call_run(
    machine: &mut Machine,
    alloc: Global,
    syntax: &Syntax,
    depth: Levels,
    bound: usize,
    line: u32,
    callee: Value,
    arguments: &[Argument],
) -> Result<Value, Refusal>
    requires within { bound ≤ length syntax.now.nodes }
    requires lower { All (IsLowerArgument bound) arguments.now }
    ensures { Gives result machine.new (call_meant syntax.now depth.classes line callee arguments.now machine.old) }
{
    let at = first_standing(callee);
    let args = arguments_run(machine, alloc, syntax, depth, bound, at, line, arguments)?;
    machine.spend(line, 1)?;
    called(machine, alloc, syntax, depth, line, callee, args)
}

// An attribute, a call or a subscript of a value that was run.
#[cycle(run)]
fn trailer_run(
    machine: &mut Machine,
    alloc: Global,
    syntax: &Syntax,
    depth: Levels,
    bound: usize,
    line: u32,
    value: Value,
    trailer: &Trailer,
) -> Result<Value, Refusal>
    requires within { bound ≤ length syntax.now.nodes }
    requires lower { IsLowerTrailer bound trailer.now }
    ensures { Gives result machine.new (trailer_run syntax.now depth.classes line value trailer.now machine.old) }
{
    match trailer {
        Trailer::Attribute(name) => attribute_of(machine, alloc, line, value, syntax.text(name)),
        Trailer::Call(arguments) => {
            call_run(
                machine,
                alloc,
                syntax,
                depth,
                bound,
                line,
                value,
                arguments.as_slice(),
            )
        }
        Trailer::Item(id) => item_run(machine, alloc, syntax, depth, line, value, *id),
        Trailer::Slice(low, high) => {
            slice_run(
                machine, alloc, syntax, depth, bound, line, value, *low, *high,
            )
        }
    }
}

// The last attribute of an expression.
fn last_attribute(
    machine: &Machine,
    alloc: Global,
    at: Standing,
    line: u32,
    value: Value,
    name: &[u8],
) -> Result<Holder, Refusal>
    ensures { Gives result machine.now (last_attribute at line value name.now machine.now) }
{
    match at {
        Standing::Plain => {
            let value = attribute_of(machine, alloc, line, value, name)?;
            Ok(Holder::Plain(value))
        }
        Standing::Place => holder_of(machine, alloc, line, value, name),
        Standing::First => setattr_holder(machine, alloc, line, value, name),
    }
}

// The last attribute, call or subscript of an expression.
#[cycle(run)]
fn last_run(
    machine: &mut Machine,
    alloc: Global,
    syntax: &Syntax,
    depth: Levels,
    bound: usize,
    at: Standing,
    line: u32,
    value: Value,
    trailer: &Trailer,
) -> Result<Holder, Refusal>
    requires within { bound ≤ length syntax.now.nodes }
    requires lower { IsLowerTrailer bound trailer.now }
    ensures { Gives result machine.new (last_run syntax.now depth.classes at line value trailer.now machine.old) }
{
    match trailer {
        Trailer::Attribute(name) => {
            last_attribute(machine, alloc, at, line, value, syntax.text(name))
        }
        _ => {
            let made = trailer_run(machine, alloc, syntax, depth, bound, line, value, trailer)?;
            Ok(Holder::Plain(made))
        }
    }
}

// Attributes, calls and subscripts of a value that was run, from the left.
#[cycle(run)]
#[tactic(auto, using(crate::proofs::Trailing::trailed_none, crate::proofs::Trailing::trailed_last, crate::proofs::Trailing::trailed_more))]
fn trailed(
    machine: &mut Machine,
    alloc: Global,
    syntax: &Syntax,
    depth: Levels,
    bound: usize,
    at: Standing,
    line: u32,
    first: Value,
    trailers: &[Trailer],
) -> Result<Holder, Refusal>
    requires within { bound ≤ length syntax.now.nodes }
    requires lower { All (IsLowerTrailer bound) trailers.now }
    ensures { Gives result machine.new (trailed (makes syntax.now depth.classes) at line first (trailers_at syntax.now.src (expr_of syntax.now) trailers.now) machine.old) }
{
    let mut value = first;
    let mut rest = trailers;
    'trailers: loop {
        match tail_of(rest) {
            Tail::Nothing => return Ok(Holder::Plain(value)),
            Tail::Last(trailer) => {
                return last_run(
                    machine, alloc, syntax, depth, bound, at, line, value, trailer,
                );
            }
            Tail::More(trailer, left) => {
                value = trailer_run(machine, alloc, syntax, depth, bound, line, value, trailer)?;
                rest = left;
            }
        }
    }
}

// ---- statements

// Whether a node is a text.
#[tactic(auto, using(crate::proofs::Plain::no_text), unfolding(lx_syntax::specs::Forms::expr_form))]
fn is_text(syntax: &Syntax, node: Id<PyNodes>) -> bool
    requires { node.place < length syntax.now.nodes }
    ensures { result ≡ is_text (expr_of syntax.now node.place) }
{
    let mut id = node;
    'brackets: loop {
        match &expr_at(syntax, id).expr {
            ExprForm::Same(inner) => id = *inner,
            ExprForm::Quoted(_) => return true,
            _ => return false,
        }
    }
}

// Runs an expression that stands alone. A text isn't made.
#[cycle(run)]
#[tactic(auto, unfolding(crate::specs::Running::run_alone))]
fn run_alone(
    machine: &mut Machine,
    alloc: Global,
    syntax: &Syntax,
    depth: Levels,
    id: Id<PyNodes>,
) -> Result<(), Refusal>
    requires { id.place < length syntax.now.nodes }
    ensures { Gives result machine.new (run_alone (makes syntax.now depth.classes) (expr_of syntax.now id.place) machine.old) }
{
    if is_text(syntax, id) {
        return Ok(());
    }
    eval(machine, alloc, syntax, depth, id)?;
    Ok(())
}

// Binds a value where a statement says.
#[cycle(run)]
#[tactic(auto, unfolding(crate::specs::Running::place_bound))]
fn place_bound(
    machine: &mut Machine,
    alloc: Global,
    syntax: &Syntax,
    depth: Levels,
    line: u32,
    place: Place,
    value: Value,
) -> Result<(), Refusal>
    requires { IsLowerPlace (length syntax.now.nodes) place }
    ensures { Gives result machine.new (place_bound (makes syntax.now depth.classes) line (place_of syntax.now place) value machine.old) }
{
    match place {
        Place::Name(name) => machine.set_local(alloc, line, syntax.text(&name), value),
        Place::Attribute(of, name) => {
            let held = hold(machine, alloc, syntax, depth, Standing::Place, of)?;
            bind_at(machine, alloc, line, held, syntax.text(&name), value)
        }
    }
}

// Adds to a name.
#[cycle(run)]
#[tactic(auto, unfolding(crate::specs::Running::name_added))]
fn name_added(
    machine: &mut Machine,
    alloc: Global,
    syntax: &Syntax,
    depth: Levels,
    line: u32,
    name: &[u8],
    id: Id<PyNodes>,
) -> Result<(), Refusal>
    requires { id.place < length syntax.now.nodes }
    ensures { Gives result machine.new (name_added line name.now (run_plain syntax.now depth.classes id) machine.old) }
{
    let first = machine.named(alloc, line, name)?;
    let second = eval(machine, alloc, syntax, depth, id)?;
    let sum = binary(machine, alloc, line, PyOp::Add, first, second)?;
    machine.set_local(alloc, line, name, sum)
}

// Adds to a fragment.
#[cycle(run)]
#[tactic(auto, unfolding(crate::specs::Running::fragment_added))]
fn fragment_added(
    machine: &mut Machine,
    alloc: Global,
    syntax: &Syntax,
    depth: Levels,
    line: u32,
    held: Holder,
    name: &[u8],
    id: Id<PyNodes>,
) -> Result<(), Refusal>
    requires { id.place < length syntax.now.nodes }
    ensures { Gives result machine.new (fragment_added line held name.now (run_plain syntax.now depth.classes id) machine.old) }
{
    let value = eval(machine, alloc, syntax, depth, id)?;
    add_at(machine, alloc, line, held, name, value)
}

// The sum of an attribute and what is added.
#[cycle(run)]
#[tactic(auto, unfolding(crate::specs::Running::attribute_sum))]
fn attribute_sum(
    machine: &mut Machine,
    alloc: Global,
    syntax: &Syntax,
    depth: Levels,
    line: u32,
    held: Holder,
    name: &[u8],
    id: Id<PyNodes>,
) -> Result<Value, Refusal>
    requires { id.place < length syntax.now.nodes }
    ensures { Gives result machine.new (attribute_sum line held name.now (run_plain syntax.now depth.classes id) machine.old) }
{
    let first = read_at(machine, alloc, line, held, name)?;
    let second = eval(machine, alloc, syntax, depth, id)?;
    binary(machine, alloc, line, PyOp::Add, first, second)
}

// Adds to an attribute, whose object is run once more to be bound.
#[cycle(run)]
#[tactic(auto, unfolding(crate::specs::Running::value_added))]
fn value_added(
    machine: &mut Machine,
    alloc: Global,
    syntax: &Syntax,
    depth: Levels,
    line: u32,
    of: Id<PyNodes>,
    held: Holder,
    name: Token,
    id: Id<PyNodes>,
) -> Result<(), Refusal>
    requires of { of.place < length syntax.now.nodes }
    requires value { id.place < length syntax.now.nodes }
    ensures { Gives result machine.new (value_meant syntax.now depth.classes line of name id held machine.old) }
{
    let text = syntax.text(&name);
    let sum = attribute_sum(machine, alloc, syntax, depth, line, held, text, id)?;
    place_bound(
        machine,
        alloc,
        syntax,
        depth,
        line,
        Place::Attribute(of, name),
        sum,
    )
}

// Adds to an attribute of an object that was run.
#[cycle(run)]
#[tactic(auto, unfolding(crate::specs::Running::object_added))]
fn object_added(
    machine: &mut Machine,
    alloc: Global,
    syntax: &Syntax,
    depth: Levels,
    line: u32,
    of: Id<PyNodes>,
    held: Holder,
    name: Token,
    id: Id<PyNodes>,
) -> Result<(), Refusal>
    requires of { of.place < length syntax.now.nodes }
    requires value { id.place < length syntax.now.nodes }
    ensures { Gives result machine.new (object_meant syntax.now depth.classes line of name id held machine.old) }
{
    if adds(machine, held, syntax.text(&name)) {
        fragment_added(
            machine,
            alloc,
            syntax,
            depth,
            line,
            held,
            syntax.text(&name),
            id,
        )
    } else {
        value_added(machine, alloc, syntax, depth, line, of, held, name, id)
    }
}

// Adds a value where a statement says.
#[cycle(run)]
#[tactic(auto, unfolding(crate::specs::Running::place_added))]
fn place_added(
    machine: &mut Machine,
    alloc: Global,
    syntax: &Syntax,
    depth: Levels,
    line: u32,
    place: Place,
    id: Id<PyNodes>,
) -> Result<(), Refusal>
    requires place { IsLowerPlace (length syntax.now.nodes) place }
    requires value { id.place < length syntax.now.nodes }
    ensures { Gives result machine.new (place_added (makes syntax.now depth.classes) line (place_of syntax.now place) (expr_of syntax.now id.place) machine.old) }
{
    match place {
        Place::Name(name) => {
            name_added(machine, alloc, syntax, depth, line, syntax.text(&name), id)
        }
        Place::Attribute(of, name) => {
            let held = hold(machine, alloc, syntax, depth, Standing::Place, of)?;
            object_added(machine, alloc, syntax, depth, line, of, held, name, id)
        }
    }
}

/// Runs a statement.
#[cycle(run)]
#[tactic(auto, unfolding(crate::specs::Running::exec, lx_syntax::specs::Forms::stmt_form))]
pub fn exec(
    machine: &mut Machine,
    alloc: Global,
    syntax: &Syntax,
    depth: Levels,
    id: Id<PyNodes>,
) -> Result<(), Refusal>
    requires { id.place < length syntax.now.nodes }
    ensures { Gives result machine.new (exec (makes syntax.now depth.classes) (stmt_of syntax.now id.place) machine.old) }
{
    if depth.nested == 0 {
        return Err(Refusal::NoMemory);
    }
    let depth = Levels {
        classes: depth.classes,
        nested: depth.nested - 1,
    };
    let node = stmt_at(syntax, id);
    let line = node.line;
    match &node.stmt {
        StmtForm::NoStmt => Err(fault(0, Kind::WrongKind)),
        StmtForm::Pass => machine.spend(line, 1),
        StmtForm::Value(value) => {
            machine.spend(line, 1)?;
            run_alone(machine, alloc, syntax, depth, *value)
        }
        StmtForm::Bind { place, value } => {
            machine.spend(line, 1)?;
            let value = eval(machine, alloc, syntax, depth, *value)?;
            place_bound(machine, alloc, syntax, depth, line, *place, value)
        }
        StmtForm::Add { place, value } => {
            machine.spend(line, 1)?;
            place_added(machine, alloc, syntax, depth, line, *place, *value)
        }
        StmtForm::If { branches, rest } => {
            machine.spend(line, 1)?;
            let rest = rest.as_slice();
            branched(
                machine,
                alloc,
                syntax,
                depth,
                id.place,
                line,
                branches.as_slice(),
                rest,
            )
        }
        StmtForm::For {
            names,
            source,
            body,
        } => {
            machine.spend(line, 1)?;
            let source = eval(machine, alloc, syntax, depth, *source)?;
            let names = names.as_slice();
            let body = body.as_slice();
            loop_run(
                machine, alloc, syntax, depth, id.place, line, names, body, source,
            )
        }
    }
}

// Runs the statements of a block.
#[cycle(run)]
#[tactic(auto, unfolding(crate::specs::Running::execs, lx_syntax::specs::Forms::block_at))]
fn execs(
    machine: &mut Machine,
    alloc: Global,
    syntax: &Syntax,
    depth: Levels,
    bound: usize,
    ids: &[Id<PyNodes>],
) -> Result<(), Refusal>
    requires within { bound ≤ length syntax.now.nodes }
    requires lower { AreLower bound ids.now }
    ensures { Gives result machine.new (block_run syntax.now depth.classes ids.now machine.old) }
{
    for id in ids {
        exec(machine, alloc, syntax, depth, *id)?;
    }
    Ok(())
}

// Runs the block behind the first condition that holds, else those of `else`.
#[cycle(run)]
#[tactic(auto, unfolding(crate::specs::Running::branched, lx_syntax::specs::Forms::branches_at))]
fn branched(
    machine: &mut Machine,
    alloc: Global,
    syntax: &Syntax,
    depth: Levels,
    bound: usize,
    line: u32,
    branches: &[Branch],
    rest: &[Id<PyNodes>],
) -> Result<(), Refusal>
    requires within { bound ≤ length syntax.now.nodes }
    requires branches { All (IsLowerBranch bound) branches.now }
    requires rest { AreLower bound rest.now }
    ensures { Gives result machine.new (branches_meant syntax.now depth.classes line branches.now rest.now machine.old) }
{
    for branch in branches {
        let holds = tested(machine, alloc, syntax, depth, line, branch.condition)?;
        if holds {
            return execs(machine, alloc, syntax, depth, bound, branch.body.as_slice());
        }
    }
    execs(machine, alloc, syntax, depth, bound, rest)
}

// A turn of a loop.
#[cycle(run)]
#[tactic(auto, unfolding(crate::specs::Running::turn))]
fn turn(
    machine: &mut Machine,
    alloc: Global,
    syntax: &Syntax,
    depth: Levels,
    bound: usize,
    line: u32,
    names: &[Token],
    body: &[Id<PyNodes>],
    value: Value,
) -> Result<(), Refusal>
    requires within { bound ≤ length syntax.now.nodes }
    requires body { AreLower bound body.now }
    ensures { Gives result machine.new (turn line (texts syntax.now names.now) (block_run syntax.now depth.classes body.now) value machine.old) }
{
    machine.spend(line, 1)?;
    names_bound(machine, alloc, syntax, line, names, value)?;
    execs(machine, alloc, syntax, depth, bound, body)
}

// The turns of a loop.
#[cycle(run)]
#[tactic(auto, unfolding(crate::specs::Running::turns))]
fn turns(
    machine: &mut Machine,
    alloc: Global,
    syntax: &Syntax,
    depth: Levels,
    bound: usize,
    line: u32,
    names: &[Token],
    body: &[Id<PyNodes>],
    items: &[Value],
) -> Result<(), Refusal>
    requires within { bound ≤ length syntax.now.nodes }
    requires body { AreLower bound body.now }
    ensures { Gives result machine.new (turns line (texts syntax.now names.now) (block_run syntax.now depth.classes body.now) items.now machine.old) }
{
    for item in items {
        turn(
            machine, alloc, syntax, depth, bound, line, names, body, *item,
        )?;
    }
    Ok(())
}

// Goes over the items of a value.
#[cycle(run)]
#[tactic(auto, unfolding(crate::specs::Running::loop_run))]
fn loop_run(
    machine: &mut Machine,
    alloc: Global,
    syntax: &Syntax,
    depth: Levels,
    bound: usize,
    line: u32,
    names: &[Token],
    body: &[Id<PyNodes>],
    source: Value,
) -> Result<(), Refusal>
    requires within { bound ≤ length syntax.now.nodes }
    requires body { AreLower bound body.now }
    ensures { Gives result machine.new (loop_run line (texts syntax.now names.now) (block_run syntax.now depth.classes body.now) source machine.old) }
{
    let items = machine.items_of(alloc, line, source)?;
    turns(
        machine,
        alloc,
        syntax,
        depth,
        bound,
        line,
        names,
        body,
        items.as_slice(),
    )
}

// ---- modules

// Runs the body of an `__init__`.
#[cycle(run)]
#[tactic(auto, unfolding(crate::specs::Classes::body_run))]
fn body_run(
    machine: &mut Machine,
    alloc: Global,
    syntax: &Syntax,
    depth: Levels,
    at: usize,
    class: &ClassForm,
    values: &List<Option<Value>>,
    this: Value,
) -> Result<(), Refusal>
    requires { IsLowerClass (length syntax.now.nodes) class.now }
    ensures { Gives result machine.new (body_run (makes syntax.now depth.classes) at (class_of syntax.now class.now) values.now this machine.old) }
{
    let line = class.init_line;
    machine.set_param(line, b"self", this)?;
    params_bound(machine, syntax, line, at, values, class.params.as_slice())?;
    execs(
        machine,
        alloc,
        syntax,
        depth,
        syntax.node_count(),
        class.body.as_slice(),
    )
}

/// Makes a module of the class at a place.
#[cycle(run)]
#[tactic(auto, unfolding(crate::specs::Classes::module_run))]
pub fn module_run(
    machine: &mut Machine,
    alloc: Global,
    syntax: &Syntax,
    depth: Levels,
    line: u32,
    at: usize,
    class: &ClassForm,
    values: &List<Option<Value>>,
) -> Result<Value, Refusal>
    requires { IsLowerClass (length syntax.now.nodes) class.now }
    ensures { Gives result machine.new (module_run (makes syntax.now depth.classes) line at (class_of syntax.now class.now) values.now machine.old) }
{
    let (made, object) = module_begun(machine, alloc, line, at)?;
    let frame = machine.enter(alloc, Some(made), at);
    body_run(
        machine,
        alloc,
        syntax,
        depth,
        at,
        class,
        values,
        Value::Object(object),
    )?;
    machine.leave(frame);
    Ok(Value::Object(object))
}

// Calls the class at a place.
#[cycle(run)]
#[tactic(auto, using(crate::proofs::Making::made_nothing, crate::proofs::Making::made_bound, crate::proofs::Making::run_more, crate::proofs::Levels::level_down))]
fn make(
    machine: &mut Machine,
    alloc: Global,
    syntax: &Syntax,
    depth: Levels,
    line: u32,
    at: usize,
    args: &Arguments,
) -> Result<Value, Refusal>
    ensures { Gives result machine.new (makes syntax.now depth.classes line at args.now machine.old) }
{
    let Some(class) = class_at(syntax, at) else {
        return Err(fault(line, Kind::WrongKind));
    };
    let values = class_bound(machine, alloc, syntax, line, class, args)?;
    if depth.classes == 0 {
        return Err(limit(line, LimitKind::Depth));
    }
    let depth = Levels {
        classes: depth.classes - 1,
        nested: depth.nested,
    };
    module_run(machine, alloc, syntax, depth, line, at, class, &values)
}
