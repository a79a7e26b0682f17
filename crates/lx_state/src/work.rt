//! Faults, and what a description may spend.

ghost use Rattle.std.specs.Prelude.{◌≡◌};
ghost use Rattle.lx_text.specs.declared.faults.Kind.TheVariants as wrong;
ghost use Rattle.lx_state.specs.Step.{Gives, IsFault};
ghost use Rattle.lx_state.specs.Work.{name_fits, one_more, spend, spend_nodes, within};

use crate::machine::Machine;
use lx_text::faults::greatest;
use lx_text::{Fault, Kind, LimitKind, Refusal, Word};
use std::alloc::Global;

/// The refusal for a fault at a line.
pub fn fault(line: u32, kind: Kind) -> Refusal
    ensures { IsFault result line kind }
{
    Refusal::Fault(Fault { line, kind })
}

/// The refusal for a limit that would be passed.
pub fn limit(line: u32, what: LimitKind) -> Refusal
    ensures { IsFault result line (wrong.Limit what) }
{
    fault(line, Kind::Limit(what))
}

/// The refusal for a name that stands for nothing.
pub fn unknown(alloc: Global, line: u32, name: &[u8]) -> Refusal
    ensures { IsFault result line (wrong.UnknownName name.now) }
{
    match Word::new(alloc, name) {
        Ok(word) => fault(line, Kind::UnknownName(word)),
        Err(_) => Refusal::NoMemory,
    }
}

impl Machine {
    /// Spends units of work.
    #[tactic(auto, unfolding(crate::specs::Work::spend))]
    pub fn spend(&mut self, line: u32, units: u64) -> Result<(), Refusal>
        ensures { Gives result self.new (spend line units self.old) }
    {
        if self.spent.spend(units) {
            Ok(())
        } else {
            Err(limit(line, LimitKind::Work))
        }
    }

    /// Counts expressions and statements.
    #[tactic(auto, unfolding(crate::specs::Work::spend_nodes))]
    pub fn spend_nodes(&mut self, line: u32, count: u32) -> Result<(), Refusal>
        ensures { Gives result self.new (spend_nodes line count self.old) }
    {
        let nodes = self.nodes as u64 + count as u64;
        if nodes > greatest(LimitKind::Nodes) as u64 {
            return Err(limit(line, LimitKind::Nodes));
        }
        self.nodes = nodes as u32;
        Ok(())
    }

    /// Tells whether a number passes the limit of its kind.
    #[tactic(auto, unfolding(crate::specs::Work::within))]
    pub fn within(&self, line: u32, what: LimitKind, number: u64) -> Result<(), Refusal>
        ensures { Gives result self.now (within line what number self.now) }
    {
        if number > greatest(what) as u64 {
            Err(limit(line, what))
        } else {
            Ok(())
        }
    }

    /// Tells whether one more may come where so many are there already.
    #[tactic(auto, unfolding(crate::specs::Work::one_more))]
    pub fn one_more(&self, line: u32, what: LimitKind, count: usize) -> Result<(), Refusal>
        ensures { Gives result self.now (one_more line what count self.now) }
    {
        if (count as u64) < greatest(what) as u64 {
            Ok(())
        } else {
            Err(limit(line, what))
        }
    }

    /// Tells whether a name is too long.
    #[tactic(auto, unfolding(crate::specs::Work::name_fits))]
    pub fn name_fits(&self, line: u32, name: &[u8]) -> Result<(), Refusal>
        ensures { Gives result self.now (name_fits line name.now self.now) }
    {
        self.within(line, LimitKind::Name, name.len() as u64)
    }
}
