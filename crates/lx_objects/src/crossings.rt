//! `MultiReg`: a value that goes into a clock domain through registers, one behind the other.

ghost use Rattle.std.specs.Prelude.{◌≡◌, IfOk};
ghost use Rattle.lx_state.specs.Step.{Gives};
ghost use Rattle.lx_objects.specs.Crossings.{keep_crossing, lengthen, lengthen_by, multireg_made, pass_on, register, register_name, registers_within};

use crate::domains::mention;
use crate::exprs::{put_expr, put_target};
use crate::modules::push_sync;
use crate::signals::new_signal;
use crate::statements::keep_made;
use lx_fhdl::{Expr, ExprId, SigId, Signal, Target};
use lx_num::Shape;
use lx_state::machine::{Form, Machine, Made, What};
use lx_state::values::Value;
use lx_state::work::limit;
use lx_text::faults::greatest;
use lx_text::{LimitKind, List, NoMemory, Refusal, Text, Word};
use std::alloc::Global;

/// The registers of a `MultiReg`, as far as they stand.
#[derive(Drop)]
pub struct Chain {
    /// The value behind the last one.
    pub end: ExprId,
    /// Their statements.
    pub made: List<usize>,
}

// An assignment to a whole signal that counts no node, since the text has none there.
#[tactic(auto, unfolding(crate::specs::Crossings::pass_on))]
fn pass_on(machine: &mut Machine, line: u32, to: SigId, source: ExprId) -> Result<usize, Refusal>
    ensures { Gives result machine.new (pass_on line to source machine.old) }
{
    let target = put_target(machine, line, Target::Whole(to))?;
    let place = machine.made.len();
    keep_made(
        machine,
        Made {
            form: Form::Assign {
                target,
                value: source,
            },
            line,
            size: 1,
            depth: 1,
            in_state: false,
        },
    )?;
    Ok(place)
}

// A register has the reset value 0 and takes no reset.
fn register(alloc: Global, line: u32, shape: Shape) -> Signal
    ensures { result ≡ register line shape }
{
    Signal {
        path: List::new(alloc),
        shape,
        reset: 0,
        reset_less: true,
        by_bus: false,
        line,
    }
}

// The name of the register with this number, as a part of its `MultiReg`.
fn register_name(alloc: Global, number: usize) -> Result<Word, NoMemory>
    ensures { IfOk result (λ word. word ≡ register_name number) }
{
    let mut text = Text::new(alloc);
    text.word(b"regs")?;
    text.count(number as u128)?;
    Ok(Word::from_list(text.into_list()))
}

// A further register, which takes the value at the end of the chain.
#[tactic(auto, unfolding(crate::specs::Crossings::lengthen))]
fn lengthen(
    machine: &mut Machine,
    alloc: Global,
    line: u32,
    object: usize,
    shape: Shape,
    chain: Chain,
) -> Result<Chain, Refusal>
    ensures { Gives result machine.new (lengthen line object shape chain machine.old) }
{
    let Chain { end, mut made } = chain;
    let name = register_name(alloc, made.len())?;
    let id = new_signal(
        machine,
        line,
        register(alloc, line, shape),
        object,
        Some(name),
    )?;
    let place = pass_on(machine, line, id, end)?;
    let end = put_expr(machine, line, Expr::Sig(id))?;
    made.push(place)?;
    Ok(Chain { end, made })
}

// So many further registers.
#[tactic(auto, using(crate::proofs::Longer::one_further, crate::proofs::Longer::stopped, crate::proofs::Longer::none_further))]
fn lengthen_by(
    machine: &mut Machine,
    alloc: Global,
    line: u32,
    object: usize,
    shape: Shape,
    count: u32,
    start: Chain,
) -> Result<Chain, Refusal>
    ensures { Gives result machine.new (lengthen_by line object shape count start machine.old) }
{
    let mut chain = start;
    let mut left = count;
    while left > 0 {
        chain = lengthen(machine, alloc, line, object, shape, chain)?;
        left -= 1;
    }
    Ok(chain)
}

// Keeps the statements of the registers for their domain, and that of the signal behind them for comb.
#[tactic(auto, unfolding(crate::specs::Crossings::keep_crossing))]
fn keep_crossing(
    machine: &mut Machine,
    domain: usize,
    registers: &[usize],
    last: usize,
) -> Result<(), Refusal>
    ensures { Gives result machine.new (keep_crossing domain registers.now last machine.old) }
{
    machine.specials.comb.push(last)?;
    push_sync(&mut machine.specials.sync, domain, registers)?;
    Ok(())
}

// No more registers than a design may have signals.
#[tactic(auto, unfolding(crate::specs::Crossings::registers_within, lx_state::specs::Work::within))]
fn registers_within(machine: &Machine, line: u32, count: u128) -> Result<u32, Refusal>
    ensures { Gives result machine.now (registers_within line count machine.now) }
{
    let _machine = machine;
    if count > greatest(LimitKind::Signals) as u128 {
        Err(limit(line, LimitKind::Signals))
    } else {
        Ok(count as u32)
    }
}

/// Makes a `MultiReg`: a value of this shape goes into a domain through so many registers, and then to a signal.
#[tactic(auto, unfolding(crate::specs::Crossings::multireg_made))]
pub fn multireg_made(
    machine: &mut Machine,
    alloc: Global,
    line: u32,
    source: ExprId,
    shape: Shape,
    to: SigId,
    name: &[u8],
    count: u128,
) -> Result<Value, Refusal>
    ensures { Gives result machine.new (multireg_made line source shape to name.now count machine.old) }
{
    let registers = registers_within(machine, line, count)?;
    let object = machine.object_made(What::MultiReg, line, None)?;
    let none = Chain {
        end: source,
        made: List::new(alloc),
    };
    let chain = lengthen_by(machine, alloc, line, object, shape, registers, none)?;
    let domain = mention(machine, line, name)?;
    let last = pass_on(machine, line, to, chain.end)?;
    keep_crossing(machine, domain, chain.made.as_slice(), last)?;
    Ok(Value::Object(object))
}
