//! A draft of a lowered design: none of its expressions picks an item of a list.

ghost use Rattle.std.specs.Prelude.{◌≡◌, ◌<◌, length, IfOk};
ghost use Rattle.lx_fhdl.specs.Designs.{shapes};
ghost use Rattle.lx_fhdl.specs.Drafts.{DraftKeeps, CanAddStmt, CanAddTarget, started};
ghost use Rattle.lx_fhdl.specs.Keeping.{EachOf, IsMemory, IsSignal};
ghost use Rattle.lx_fhdl.specs.Nodes.{IsSmall};
ghost use Rattle.lx_plain.specs.Plain.{ArePlain, CanAdd, ExprAdded, StmtAdded, TargetAdded};

use crate::groups::{Group, grouped};
use crate::owned::Own;
use lx_fhdl::{
    Design, Domain, Draft, Expr, ExprId, Memory, Port, SigId, Signal, Stmt, StmtId, SyncPart,
    Target, TargetId,
};
use lx_num::Shape;
use lx_text::{List, NoMemory};
use std::alloc::Global;
use std::marker::Model;

/// A draft whose expressions pick no item.
#[derive(Drop)]
pub struct PlainDraft {
    draft: Draft,
    /// For each signal, a place among the groups of a condition.
    slots: Vec<usize>,
}

impl Model for PlainDraft {
    ghost use Rattle.lx_fhdl.specs.declared.design.Design.{Design};

    ghost Value = { Design };

    ghost use Rattle.lx_plain.specs.Plain.{IsPlain};

    ghost view = { λ a. a.draft };

    ghost invariant = { λ a. IsPlain a.draft a.slots.items };
}

impl PlainDraft {
    ghost use Rattle.lx_plain.specs.Owned.{AreGrouped, AreOwned};

    /// A draft with these signals and memories, and nothing else.
    #[tactic(auto, using(crate::proofs::Plains::start_plain))]
    pub fn start(
        alloc: Global,
        signals: List<Signal>,
        memories: List<Memory>,
    ) -> Result<PlainDraft, NoMemory>
        requires signals { EachOf IsSignal signals }
        requires memories { EachOf IsMemory memories }
        ensures { IfOk result (λ draft. draft ≡ started signals memories) }
    {
        let count = signals.len();
        let slots = vec![in alloc; 0; count]?;
        let draft = Draft::start(alloc, signals, memories);
        Ok(PlainDraft { draft, slots })
    }

    /// Adds an expression over those that stand already, and gives its place.
    #[tactic(auto, using(crate::proofs::Plains::plain_more, crate::proofs::Plains::expr_added))]
    pub fn push_expr(&mut self, node: Expr) -> Result<ExprId, NoMemory>
        requires { CanAdd self.old node }
        ensures { IfOk result (λ id. ExprAdded self.old self.new node id.place) }
    {
        self.draft.keeps();
        let id = self.draft.push_expr(node)?;
        self.draft.keeps();
        Ok(id)
    }

    /// Adds a target over those that stand already, and gives its place.
    #[tactic(auto, using(crate::proofs::Plains::plain_target, crate::proofs::Plains::target_added))]
    pub fn push_target(&mut self, node: Target) -> Result<TargetId, NoMemory>
        requires { CanAddTarget self.old node }
        ensures { IfOk result (λ id. TargetAdded self.old self.new node id.place) }
    {
        self.draft.keeps();
        let id = self.draft.push_target(node)?;
        self.draft.keeps();
        Ok(id)
    }

    /// Adds a statement over those that stand already, and gives its place.
    #[tactic(auto, using(crate::proofs::Plains::plain_stmt, crate::proofs::Plains::stmt_added))]
    pub fn push_stmt(&mut self, node: Stmt) -> Result<StmtId, NoMemory>
        requires { CanAddStmt self.old node }
        ensures { IfOk result (λ id. StmtAdded self.old self.new node id.place) }
    {
        self.draft.keeps();
        let id = self.draft.push_stmt(node)?;
        self.draft.keeps();
        Ok(id)
    }

    /// The draft.
    pub fn draft(&self) -> &Draft
        ensures is { result.now ≡ self.now }
        ensures keeps { DraftKeeps self.now }
        ensures plain { ArePlain self.now }
    {
        self.draft.keeps();
        &self.draft
    }

    /// The shape of a signal.
    pub fn signal_shape(&self, x: SigId) -> Shape
        requires { x.0 < length self.now.signals }
        ensures is { result ≡ shapes self.now x.0 }
        ensures small { IsSmall result }
    {
        self.draft.keeps();
        self.draft.design().signals.at(x.0).shape
    }

    /// It keeps what a draft keeps.
    pub fn keeps(&self)
        ensures { DraftKeeps self.now }
    {
        self.draft.keeps();
    }

    /// The groups of statements where a condition holds, and where it fails.
    #[tactic(auto, using(crate::proofs::Plains::slots_kept, crate::proofs::Plains::owned_signals))]
    pub(crate) fn grouped(
        &mut self,
        alloc: Global,
        then_: &[Own],
        else_: &[Own],
    ) -> Result<Vec<Group>, NoMemory>
        requires then_ { AreOwned self.old then_.now }
        requires else_ { AreOwned self.old else_.now }
        ensures ok { IfOk result (λ groups. AreGrouped (length self.old.signals) then_.now else_.now groups.items) }
        ensures same { self.new ≡ self.old }
    {
        let groups = grouped(alloc, &mut self.slots, then_, else_)?;
        Ok(groups)
    }

    /// The lowered design, with these statements, domains, ports of memories and ports.
    pub fn finish(
        self,
        comb: List<StmtId>,
        sync: List<SyncPart>,
        domains: List<Domain>,
        ports: List<Port>,
        ios: List<SigId>,
    ) -> Design
        ensures is { result ≡ record self { comb = comb; sync = sync; domains = domains; ports = ports; ios = ios } }
        ensures keeps { DraftKeeps self }
        ensures plain { ArePlain self }
    {
        self.draft.finish(comb, sync, domains, ports, ios)
    }
}
