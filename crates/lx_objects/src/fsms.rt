//! State machines: what `FSM` makes, and what their methods add.

ghost use Rattle.std.specs.Prelude.{◌≡◌, ◌++◌, OnOk, slice_get};
ghost use Rattle.lx_state.specs.Changes.{changed};
ghost use Rattle.lx_state.specs.Step.{Gives};
ghost use Rattle.lx_objects.specs.Fsms.{act_made, asked_of, fits_among, fsm_made, fsm_object, keep_fsm, keep_stand_in, new_fsm, new_ongoing, one_bit, ongoing_from, ongoing_made, stand_in, state_fits, with_asked, with_statements};

use crate::domains::mention;
use crate::exprs::put_expr;
use crate::modules::{new_module, push_all};
use crate::signals::new_signal;
use crate::statements::statements_of;
use lx_fhdl::{Expr, SigId, Signal};
use lx_names::Table;
use lx_num::Shape;
use lx_state::machine::{Fsm, Leaves, Machine, Module, ModuleKind, Ongoing, What};
use lx_state::values::Value;
use lx_state::work::fault;
use lx_text::{Kind, LimitKind, List, NoMemory, Refusal, Word};
use std::alloc::Global;

/// A signal of one unsigned bit.
pub(crate) fn one_bit(alloc: Global, line: u32) -> Signal
    ensures { result ≡ one_bit line }
{
    Signal {
        path: List::new(alloc),
        shape: Shape {
            bits: 1,
            signed: false,
        },
        reset: 0,
        reset_less: false,
        by_bus: false,
        line,
    }
}

// What stands for an FSM or an event manager among the modules. It is no level, so 64 modules may stand above it.
fn stand_in(alloc: Global, object: usize) -> Module
    ensures { result ≡ stand_in object }
{
    let mut module = new_module(alloc, object, 0, ModuleKind::Plain);
    module.room = 64;
    module
}

/// Keeps what stands for an FSM or an event manager among the modules.
#[tactic(auto, unfolding(crate::specs::Fsms::keep_stand_in))]
pub(crate) fn keep_stand_in(
    machine: &mut Machine,
    alloc: Global,
    object: usize,
) -> Result<usize, Refusal>
    ensures { Gives result machine.new (keep_stand_in object machine.old) }
{
    let place = machine.modules.len();
    machine.modules.push(stand_in(alloc, object))?;
    Ok(place)
}

// An FSM without states.
fn new_fsm(alloc: Global, object: usize, place: usize, state: SigId, start: Option<Word>) -> Fsm
    ensures { result ≡ new_fsm object place state start }
{
    Fsm {
        object,
        module: place,
        state,
        start,
        names: Table::new(alloc),
        bodies: List::new(alloc),
        asked: Table::new(alloc),
    }
}

#[tactic(auto, unfolding(crate::specs::Fsms::keep_fsm))]
fn keep_fsm(machine: &mut Machine, fsm: Fsm) -> Result<(), Refusal>
    ensures { Gives result machine.new (keep_fsm fsm machine.old) }
{
    machine.fsms.push(fsm)?;
    Ok(())
}

/// Makes an FSM without states. Its signal `state` has one bit until all states are known.
#[tactic(auto, unfolding(crate::specs::Fsms::fsm_made))]
pub fn fsm_made(
    machine: &mut Machine,
    alloc: Global,
    line: u32,
    start: Option<Word>,
) -> Result<Value, Refusal>
    ensures { Gives result machine.new (fsm_made line start machine.old) }
{
    let at = machine.fsms.len();
    let object = machine.object_made(What::Fsm(at), line, None)?;
    let place = keep_stand_in(machine, alloc, object)?;
    let state = new_signal(machine, line, one_bit(alloc, line), object, None)?;
    mention(machine, line, b"sys")?;
    keep_fsm(machine, new_fsm(alloc, object, place, state, start))?;
    Ok(Value::Object(object))
}

// Whether a name may be that of a state: of one that is there, or of a further one.
#[tactic(auto, unfolding(crate::specs::Fsms::state_fits))]
fn state_fits(machine: &Machine, line: u32, at: usize, name: &[u8]) -> Result<(), Refusal>
    ensures { Gives result machine.now (state_fits line at name.now machine.now) }
{
    match machine.fsms.get(at) {
        Some(fsm) => {
            if fsm.names.get(name).is_some() {
                return Ok(());
            }
            machine.one_more(line, LimitKind::States, fsm.names.len())
        }
        None => Err(fault(line, Kind::WrongKind)),
    }
}

// Adds statements behind those of the state at a place.
#[tactic(auto, using(lx_state::proofs::Changes::changed_there, lx_state::proofs::Changes::set_twice, lx_state::proofs::Changes::not_changed))]
fn put_body(
    alloc: Global,
    bodies: &mut List<List<usize>>,
    at: usize,
    made: &[usize],
) -> Result<(), NoMemory>
    ensures { OnOk result (bodies.new ≡ changed bodies.old at (λ body. body ++ made.now)) }
{
    if at < bodies.len() {
        let mut body = bodies.replace(at, List::new(alloc));
        push_all(&mut body, made)?;
        bodies.replace(at, body);
    }
    Ok(())
}

// Adds statements to a state, which may be a further one.
fn lengthen(alloc: Global, fsm: &mut Fsm, name: &[u8], made: List<usize>) -> Result<(), NoMemory>
    ensures { OnOk result (fsm.new ≡ with_statements name.now made fsm.old) }
{
    match fsm.names.get(name) {
        Some(at) => put_body(alloc, &mut fsm.bodies, at, made.as_slice()),
        None => {
            let place = fsm.bodies.len();
            fsm.names.set(name, place)?;
            fsm.bodies.push(made)?;
            Ok(())
        }
    }
}

// Adds statements to a state of the FSM at a place.
#[tactic(auto, using(lx_state::proofs::Changes::changed_there, lx_state::proofs::Changes::set_twice, lx_state::proofs::Changes::not_changed))]
fn put_statements(
    alloc: Global,
    fsms: &mut List<Fsm>,
    at: usize,
    name: &[u8],
    made: List<usize>,
) -> Result<(), NoMemory>
    ensures { OnOk result (fsms.new ≡ changed fsms.old at (with_statements name.now made)) }
{
    if at < fsms.len() {
        let mut fsm = fsms.replace(at, new_fsm(alloc, 0, 0, SigId(0), None));
        lengthen(alloc, &mut fsm, name, made)?;
        fsms.replace(at, fsm);
    }
    Ok(())
}

/// Adds statements to a state of an FSM, which may be a further one; they may stand in lists and tuples.
#[tactic(auto, unfolding(crate::specs::Fsms::act_made, crate::specs::Fsms::change_fsm))]
pub fn act_made(
    machine: &mut Machine,
    alloc: Global,
    line: u32,
    at: usize,
    name: &[u8],
    values: &[Value],
) -> Result<Value, Refusal>
    ensures { Gives result machine.new (act_made line at name.now values.now machine.old) }
{
    let (made, _) = statements_of(machine, alloc, Leaves::StateStatements, line, 0, values)?;
    state_fits(machine, line, at, name)?;
    put_statements(alloc, &mut machine.fsms, at, name, made)?;
    Ok(Value::Nothing)
}

// What was asked for by `ongoing` of a state.
fn asked_of(machine: &Machine, at: usize, name: &[u8]) -> Option<Ongoing>
    ensures { result ≡ asked_of name.now (slice_get machine.now.fsms at) }
{
    match machine.fsms.get(at) {
        Some(fsm) => fsm.asked.get(name),
        None => None,
    }
}

#[tactic(auto, unfolding(crate::specs::Fsms::fsm_object))]
fn fsm_object(machine: &Machine, line: u32, at: usize) -> Result<usize, Refusal>
    ensures { Gives result machine.now (fsm_object line at machine.now) }
{
    match machine.fsms.get(at) {
        Some(fsm) => Ok(fsm.object),
        None => Err(fault(line, Kind::WrongKind)),
    }
}

// Notes what was asked for by `ongoing` of a state.
#[tactic(auto, using(lx_state::proofs::Changes::changed_there, lx_state::proofs::Changes::set_twice, lx_state::proofs::Changes::not_changed))]
fn put_asked(
    alloc: Global,
    fsms: &mut List<Fsm>,
    at: usize,
    name: &[u8],
    asked: Ongoing,
) -> Result<(), NoMemory>
    ensures { OnOk result (fsms.new ≡ changed fsms.old at (with_asked name.now asked)) }
{
    if at < fsms.len() {
        let mut fsm = fsms.replace(at, new_fsm(alloc, 0, 0, SigId(0), None));
        fsm.asked.set(name, asked)?;
        fsms.replace(at, fsm);
    }
    Ok(())
}

// Makes the signal that is 1 in a state.
#[tactic(auto, unfolding(crate::specs::Fsms::new_ongoing, crate::specs::Fsms::change_fsm))]
fn new_ongoing(
    machine: &mut Machine,
    alloc: Global,
    line: u32,
    at: usize,
    name: &[u8],
) -> Result<Value, Refusal>
    ensures { Gives result machine.new (new_ongoing line at name.now machine.old) }
{
    let object = fsm_object(machine, line, at)?;
    let part = Word::new(alloc, name)?;
    let signal = new_signal(machine, line, one_bit(alloc, line), object, Some(part))?;
    let read = put_expr(machine, line, Expr::Sig(signal))?;
    let asked = Ongoing { signal, read, line };
    put_asked(alloc, &mut machine.fsms, at, name, asked)?;
    Ok(Value::Expr(read))
}

fn ongoing_from(
    machine: &mut Machine,
    alloc: Global,
    line: u32,
    at: usize,
    name: &[u8],
    asked: Option<Ongoing>,
) -> Result<Value, Refusal>
    ensures { Gives result machine.new (ongoing_from asked line at name.now machine.old) }
{
    match asked {
        Some(asked) => Ok(Value::Expr(asked.read)),
        None => new_ongoing(machine, alloc, line, at, name),
    }
}

/// The signal that is 1 in a state of an FSM; it is made by the first call with this name.
#[tactic(auto, unfolding(crate::specs::Fsms::ongoing_made))]
pub fn ongoing_made(
    machine: &mut Machine,
    alloc: Global,
    line: u32,
    at: usize,
    name: &[u8],
) -> Result<Value, Refusal>
    ensures { Gives result machine.new (ongoing_made line at name.now machine.old) }
{
    let asked = asked_of(machine, at, name);
    ongoing_from(machine, alloc, line, at, name, asked)
}
