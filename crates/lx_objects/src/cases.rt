//! `Case` of FHDL: its keys, and the statements under them.

ghost use Rattle.std.specs.Prelude.{[], ◌≡◌, IfOk, OnOk, map, slice_get, suc};
ghost use Rattle.std.specs.List.{list_any};
ghost use Rattle.lx_state.specs.Step.{Gives};
ghost use Rattle.lx_objects.specs.Cases.{add_case, add_cases, case_key, case_made, deepened, default_key, key_of, keys_fit, no_cases, pair_fits, pair_value, same_key, with_case, with_key};
ghost use Rattle.lx_objects.specs.Statements.{node_sum};

use crate::statements::{all_of, any_in_state, deepest_made, keep_made, only};
use indexmap::IndexSet;
use lx_fhdl::ExprId;
use lx_state::machine::{Form, Leaves, Machine, Made, MadeArm, Pair};
use lx_state::values::Value;
use lx_state::work::{fault, limit};
use lx_text::faults::greatest;
use lx_text::{Kind, LimitKind, List, NoMemory, Refusal};
use std::alloc::Global;
use std::marker::Model;

/// The arms of a `Case`, the statements where no key matches, and the levels of the deepest.
#[derive(Drop)]
pub struct Cases {
    pub arms: List<MadeArm>,
    pub rest: List<usize>,
    pub depth: u8,
}

// The key that a text is, where it is one.
fn default_key(machine: &Machine, at: usize) -> Option<Option<i128>>
    ensures { result ≡ default_key (slice_get machine.now.texts at) }
{
    match machine.texts.get(at) {
        Some(word) => {
            if word.is(b"default") {
                Some(None)
            } else {
                None
            }
        }
        None => None,
    }
}

// The key that a value is; none within for `"default"`.
fn key_of(machine: &Machine, value: Value) -> Option<Option<i128>>
    ensures { result ≡ key_of machine.now value }
{
    match value {
        Value::Int(number) => Some(Some(number)),
        Value::Text(at) => default_key(machine, at),
        _ => None,
    }
}

// Keys that were seen, each once, found in constant time on the average. A contract sees the list of them.
#[derive(Drop)]
struct Seen {
    set: IndexSet<Option<i128>>,
}

impl Model for Seen {
    ghost use Rattle.std.specs.Prelude.{List};
    ghost use Rattle.lx_objects.specs.Cases.{Key};

    ghost Value = { List Key };

    ghost view = { λ seen. seen.set.keys };
}

impl Seen {
    fn new(alloc: Global) -> Seen
        ensures { result ≡ [] }
    {
        Seen {
            set: IndexSet::new(alloc),
        }
    }

    fn has(&self, key: Option<i128>) -> bool
        ensures { result ≡ list_any (same_key key) self.now }
    {
        self.set.contains(&key)
    }

    // Adds a key behind the others, where it isn't there.
    fn add(&mut self, key: Option<i128>) -> Result<(), NoMemory>
        ensures { OnOk result (self.new ≡ with_key key self.old) }
    {
        self.set.insert(key)?;
        Ok(())
    }
}

// A key that isn't among those seen.
#[tactic(auto, unfolding(crate::specs::Cases::case_key))]
fn case_key(
    machine: &Machine,
    line: u32,
    seen: &Seen,
    value: Value,
) -> Result<Option<i128>, Refusal>
    ensures { Gives result machine.now (case_key line seen.now value machine.now) }
{
    match key_of(machine, value) {
        Some(key) => {
            if seen.has(key) {
                return Err(fault(line, Kind::BadKey));
            }
            Ok(key)
        }
        None => Err(fault(line, Kind::BadKey)),
    }
}

// The key of a pair, whose value holds statements alone.
#[tactic(auto, unfolding(crate::specs::Cases::pair_fits))]
fn pair_fits(machine: &Machine, line: u32, seen: &Seen, pair: Pair) -> Result<Option<i128>, Refusal>
    ensures { Gives result machine.now (pair_fits line seen.now pair machine.now) }
{
    let key = case_key(machine, line, seen, pair.key)?;
    only(machine, Leaves::StateStatements, line, &[pair.value])?;
    Ok(key)
}

// Tells whether the keys of some pairs are such as a `Case` takes, and their values hold statements alone.
#[tactic(auto, unfolding(crate::specs::Cases::keys_fit))]
fn keys_fit(machine: &Machine, alloc: Global, line: u32, pairs: &[Pair]) -> Result<(), Refusal>
    ensures { Gives result machine.now (keys_fit line [] pairs.now machine.now) }
{
    let mut seen = Seen::new(alloc);
    for pair in pairs {
        let key = pair_fits(machine, line, &seen, *pair)?;
        seen.add(key)?;
    }
    Ok(())
}

// The sum of some nodes and one for a `Case` and each of its keys.
#[tactic(auto, unfolding(crate::specs::Statements::node_sum))]
fn case_size(machine: &Machine, line: u32, below: u32, keys: usize) -> Result<u32, Refusal>
    ensures { Gives result machine.now (node_sum line below (suc keys) machine.now) }
{
    let _machine = machine;
    let sum = below as u128 + keys as u128 + 1;
    if sum > greatest(LimitKind::Nodes) as u128 {
        return Err(limit(line, LimitKind::Nodes));
    }
    Ok(sum as u32)
}

fn values_of(alloc: Global, pairs: &[Pair]) -> Result<List<Value>, NoMemory>
    ensures { IfOk result (λ values. values ≡ map pair_value pairs.now) }
{
    let mut values = List::new(alloc);
    for pair in pairs {
        values.push(pair.value)?;
    }
    Ok(values)
}

// Adds the statements under a key.
fn with_case(cases: Cases, key: Option<Option<i128>>, body: List<usize>) -> Result<Cases, NoMemory>
    ensures { IfOk result (λ more. more ≡ with_case key body cases) }
{
    let Cases { arms, rest, depth } = cases;
    let mut arms = arms;
    match key {
        Some(Some(key)) => {
            arms.push(MadeArm { key, body })?;
            Ok(Cases { arms, rest, depth })
        }
        Some(None) => Ok(Cases {
            arms,
            rest: body,
            depth,
        }),
        None => Ok(Cases {
            arms,
            rest: body,
            depth,
        }),
    }
}

fn deepened(cases: Cases, below: u8) -> Cases
    ensures { result ≡ deepened below cases }
{
    let Cases { arms, rest, depth } = cases;
    Cases {
        arms,
        rest,
        depth: depth.max(below),
    }
}

#[tactic(auto, unfolding(crate::specs::Cases::add_case))]
fn add_case(
    machine: &Machine,
    alloc: Global,
    line: u32,
    cases: Cases,
    pair: Pair,
) -> Result<Cases, Refusal>
    ensures { Gives result machine.now (add_case line cases pair machine.now) }
{
    let body = all_of(machine, alloc, Leaves::StateStatements, line, &[pair.value])?;
    let below = deepest_made(machine, body.as_slice());
    let key = key_of(machine, pair.key);
    Ok(with_case(deepened(cases, below), key, body)?)
}

// The arms of some pairs.
#[tactic(auto, unfolding(crate::specs::Cases::add_cases))]
fn cases_of(machine: &Machine, alloc: Global, line: u32, pairs: &[Pair]) -> Result<Cases, Refusal>
    ensures { Gives result machine.now (add_cases line no_cases pairs.now machine.now) }
{
    let mut cases = Cases {
        arms: List::new(alloc),
        rest: List::new(alloc),
        depth: 0,
    };
    for pair in pairs {
        cases = add_case(machine, alloc, line, cases, *pair)?;
    }
    Ok(cases)
}

/// Makes a `Case`, whose keys and statements are a dictionary's.
#[tactic(auto, unfolding(crate::specs::Cases::case_made))]
pub fn case_made(
    machine: &mut Machine,
    alloc: Global,
    line: u32,
    on: ExprId,
    pairs: &[Pair],
) -> Result<Value, Refusal>
    ensures { Gives result machine.new (case_made line on pairs.now machine.old) }
{
    keys_fit(machine, alloc, line, pairs)?;
    let values = values_of(alloc, pairs)?;
    let below = machine.sizes_of(values.as_slice());
    let size = case_size(machine, line, below, pairs.len())?;
    machine.spend_nodes(line, size)?;
    let Cases { arms, rest, depth } = cases_of(machine, alloc, line, pairs)?;
    let depth = machine.deeper(line, depth)?;
    let in_state = any_in_state(machine, values.as_slice());
    keep_made(
        machine,
        Made {
            form: Form::Case { on, arms, rest },
            line,
            size,
            depth,
            in_state,
        },
    )
}
