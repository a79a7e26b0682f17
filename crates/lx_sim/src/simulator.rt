//! The simulator of a design's circuit.

ghost use Rattle.std.specs.Prelude.{◌≡◌, ◌<◌, length, pos, replicate, IfOk};
ghost use Rattle.lx_num.specs.Ints.{Fits};
ghost use Rattle.lx_circuit.specs.Circuit.{Input, role};
ghost use Rattle.lx_circuit.specs.Reads.{HasOrder};
ghost use Rattle.lx_emission.specs.Emits.{MemoriesFit};
ghost use Rattle.lx_fhdl.specs.Designs.{circuit_of, shapes};
ghost use Rattle.lx_fhdl.specs.Keeping.{Keeps};
ghost use Rattle.lx_fhdl.specs.Nodes.{value_at};
ghost use Rattle.lx_sim.specs.Firsts.{AreFirst, IsFirst};
ghost use Rattle.lx_sim.specs.Plans.{IsPlan};
ghost use Rattle.lx_sim.specs.Moments.{Moment, Shows, setting, start, stepped};
ghost use Rattle.lx_trace.specs.Traces.{is_input};

use crate::plan::Plan;
use crate::planning::plan;
use crate::settle::{advance, settle};
use crate::words::{all_words, write_ports};
use lx_fhdl::{Design, SigId, Steps};
use lx_sheet::Drive;
use lx_text::{List, NoMemory};
use lx_trace::Event;
use std::alloc::Global;
use std::marker::Model;
use std::mem;
use std::sync::ledger::Ledger;

/// A run of a design's circuit. It shows the values of all signals after the steps so far, under the inputs as they
/// are. After it was made it takes no memory.
#[derive(Drop)]
pub struct Simulator<'a> {
    design: &'a Design,
    plan: Plan,
    // the value of each signal
    vals: Vec<i128>,
    // the words of each memory
    words: Vec<List<i128>>,
    // the value of each expression of the plan's design
    known: Vec<i128>,
    // the values of all signals while domains rise
    next: Vec<i128>,
}

impl<'a> Model for Simulator<'a> {
    ghost use Rattle.lx_sim.specs.Moments.{Seen};

    ghost Value = { Seen };

    ghost use Rattle.lx_sim.specs.Ready.{IsReady};

    ghost view = { λ a. record { design = a.design.now; values = a.vals.items; words = a.words.items } };

    ghost invariant = { λ a. IsReady a.design.now a.plan a.vals.items a.words.items a.known.items a.next.items };
}

// The first values: those of the state, and 0 for the inputs.
fn first_values(alloc: Global, plan: &Plan) -> Result<Vec<i128>, NoMemory>
    requires { IsPlan plan.now }
    ensures { IfOk result (λ vals. AreFirst plan.now (length plan.now.design.signals) vals.items) }
{
    let mut vals = Vec::new(alloc);
    for x in 0..plan.design.signals.len() {
        vals.push(first_value(plan, x))?;
    }
    Ok(vals)
}

// The first value of a signal.
fn first_value(plan: &Plan, x: usize) -> i128
    requires plan { IsPlan plan.now }
    requires there { x < length plan.now.design.signals }
    ensures { IsFirst plan.now x result }
{
    match plan.drives.at(x) {
        Drive::Input => 0,
        _ => plan.design.signals.at(x).reset,
    }
}

// So many zeros.
fn zeros(alloc: Global, count: usize) -> Result<Vec<i128>, NoMemory>
    ensures { IfOk result (λ zeros. zeros.items ≡ replicate count (pos 0)) }
{
    let zeros = vec![in alloc; 0i128; count]?;
    Ok(zeros)
}

impl<'a> Simulator<'a> {
    /// The simulator of a design whose reads have an order, and none of whose ports shows anything. No step was made, and
    /// all inputs are 0.
    pub fn new<L: Ledger>(
        alloc: Global,
        design: &'a Design,
        steps: &mut Steps<L>,
    ) -> Result<Simulator<'a>, NoMemory>
        requires keeps { Keeps design.now }
        requires order { HasOrder (circuit_of design.now) }
        requires memories { MemoriesFit design.now }
        ensures design { IfOk result (λ s. s.design ≡ design.now) }
        ensures shows { IfOk result (λ s. Shows s start) }
    {
        let plan = plan(alloc, design)?;
        let mut vals = first_values(alloc, &plan)?;
        let words = all_words(alloc, &plan)?;
        let mut known = zeros(alloc, plan.design.exprs.len())?;
        let next = zeros(alloc, plan.design.signals.len())?;
        settle(
            &plan,
            vals.as_mut_slice(),
            words.as_slice(),
            known.as_mut_slice(),
            steps,
        );
        Ok(Simulator {
            design,
            plan,
            vals,
            words,
            known,
            next,
        })
    }

    /// Gives an input a value, from now on.
    pub fn set<L: Ledger>(&mut self, input: SigId, v: i128, steps: &mut Steps<L>)
        requires input { role (circuit_of self.old.design) input.0 ≡ Input }
        requires fits { Fits (shapes self.old.design input.0) v }
        ensures design { self.new.design ≡ self.old.design }
        ensures shows { (m : Moment) → Shows self.old m → Shows self.new (setting m input.0 v) }
    {
        self.vals[input.0] = v;
        settle(
            &self.plan,
            self.vals.as_mut_slice(),
            self.words.as_slice(),
            self.known.as_mut_slice(),
            steps,
        );
    }

    /// Makes a step in which domains rise.
    pub fn step<L: Ledger>(&mut self, e: &Event, steps: &mut Steps<L>)
        ensures design { self.new.design ≡ self.old.design }
        ensures shows { (m : Moment) → Shows self.old m → Shows self.new (stepped m e.now.rises) }
    {
        advance(
            &self.plan,
            e.rises,
            self.vals.as_slice(),
            self.known.as_slice(),
            self.next.as_mut_slice(),
        );
        write_ports(
            &self.plan,
            e.rises,
            self.vals.as_slice(),
            self.words.as_mut_slice(),
        );
        mem::swap(&mut self.vals, &mut self.next);
        settle(
            &self.plan,
            self.vals.as_mut_slice(),
            self.words.as_slice(),
            self.known.as_mut_slice(),
            steps,
        );
    }

    /// Whether a signal is an input.
    pub fn is_input(&self, s: SigId) -> bool
        requires { s.0 < length self.now.design.signals }
        ensures { result ≡ is_input (role (circuit_of self.now.design) s.0) }
    {
        match self.plan.drives.at(s.0) {
            Drive::Input => true,
            _ => false,
        }
    }

    /// The value of a signal.
    pub fn value(&self, s: SigId) -> i128
        requires { s.0 < length self.now.design.signals }
        ensures { result ≡ value_at self.now.values s.0 }
    {
        self.vals[s.0]
    }
}
