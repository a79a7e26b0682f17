//! A design while it grows. It keeps at each moment what a design keeps of its arenas, its signals, its memories and
//! their ports, and what stands in it stays.

ghost use Rattle.std.specs.Prelude.{[], ◌≡◌, ◌<◌, length, slice_get, IfOk, IsTrue, OnErr, Some};
ghost use Rattle.lx_fhdl.specs.Below.{expr_below, stmt_below, target_below};
ghost use Rattle.lx_fhdl.specs.Designs as designs;
ghost use Rattle.lx_fhdl.specs.Drafts.{DraftKeeps, CanAddExpr, CanAddStmt, CanAddTarget, ExprPut, HaveDomains, IsDraftPort, ListsStand, MemoryPut, PortPut, SignalPut, StmtPut, TargetPut, started};
ghost use Rattle.lx_fhdl.specs.Keeping.{EachOf, IsMemory, IsPort, IsSignal, Keeps, StmtStands, TargetStands};
ghost use Rattle.lx_fhdl.specs.Stmts.{node_stmt, node_target};
ghost use Rattle.lx_fhdl.specs.Trees.{node_term};

use crate::design::{Design, Domain, Memory, Port, Signal, SyncPart};
use crate::exprs::{Expr, ExprId, Exprs, SigId};
use crate::stmts::{Stmt, StmtId, Stmts, Target, TargetId, Targets};
use lx_text::{List, NoMemory};
use std::alloc::Global;
use std::marker::Model;

/// A design while it grows: signals, memories and their ports, and the arenas of expressions, targets and statements.
/// Its lists of statements, its domains and its ports to the outside come last.
#[derive(Drop)]
pub struct Draft {
    design: Design,
}

impl Model for Draft {
    ghost use Rattle.lx_fhdl.specs.declared.design.Design.{Design};

    ghost Value = { Design };

    ghost use Rattle.lx_fhdl.specs.Drafts.{IsDraft};

    ghost view = { λ a. a.design };

    ghost invariant = { λ a. IsDraft a.design };
}

impl Draft {
    /// A draft with nothing in it.
    pub fn new(alloc: Global) -> Draft
        ensures { result ≡ started [] [] }
    {
        Draft::start(alloc, List::new(alloc), List::new(alloc))
    }

    /// A draft with these signals and memories, and nothing else.
    pub fn start(alloc: Global, signals: List<Signal>, memories: List<Memory>) -> Draft
        requires signals { EachOf IsSignal signals }
        requires memories { EachOf IsMemory memories }
        ensures { result ≡ started signals memories }
    {
        Draft {
            design: Design {
                exprs: Exprs::new(alloc),
                targets: Targets::new(alloc),
                stmts: Stmts::new(alloc),
                signals,
                comb: List::new(alloc),
                sync: List::new(alloc),
                domains: List::new(alloc),
                memories,
                ports: List::new(alloc),
                ios: List::new(alloc),
            },
        }
    }

    /// A draft keeps what a design keeps of its arenas, its signals and its memories.
    pub fn keeps(&self)
        ensures { DraftKeeps self.now }
    {
        let _design = &self.design;
    }

    /// Adds an expression over those that stand already, and gives its place.
    #[tactic(auto, using(crate::proofs::Drafts::expr_put, crate::proofs::Drafts::expr_draft))]
    pub fn push_expr(&mut self, node: Expr) -> Result<ExprId, NoMemory>
        requires { CanAddExpr self.old node }
        ensures ok { IfOk result (λ id. ExprPut self.old self.new node id.place) }
        ensures err { OnErr result (self.new ≡ self.old) }
    {
        let id = self.design.exprs.push(node)?;
        Ok(id)
    }

    /// Adds a target over those that stand already, and gives its place.
    #[tactic(auto, using(crate::proofs::Drafts::target_put, crate::proofs::Drafts::target_draft))]
    pub fn push_target(&mut self, node: Target) -> Result<TargetId, NoMemory>
        requires { CanAddTarget self.old node }
        ensures ok { IfOk result (λ id. TargetPut self.old self.new node id.place) }
        ensures err { OnErr result (self.new ≡ self.old) }
    {
        let id = self.design.targets.push(node)?;
        Ok(id)
    }

    /// Adds a statement over those that stand already, and gives its place.
    #[tactic(auto, using(crate::proofs::Drafts::stmt_put, crate::proofs::Drafts::stmt_draft))]
    pub fn push_stmt(&mut self, node: Stmt) -> Result<StmtId, NoMemory>
        requires { CanAddStmt self.old node }
        ensures ok { IfOk result (λ id. StmtPut self.old self.new node id.place) }
        ensures err { OnErr result (self.new ≡ self.old) }
    {
        let id = self.design.stmts.push(node)?;
        Ok(id)
    }

    /// Adds a signal, and gives its place.
    #[tactic(auto, using(crate::proofs::Drafts::signal_put, crate::proofs::Drafts::signal_draft))]
    pub fn push_signal(&mut self, signal: Signal) -> Result<SigId, NoMemory>
        requires { IsSignal signal }
        ensures ok { IfOk result (λ id. SignalPut self.old self.new signal id.0) }
        ensures err { OnErr result (self.new ≡ self.old) }
    {
        let id = SigId(self.design.signals.len());
        self.design.signals.push(signal)?;
        Ok(id)
    }

    /// Adds a memory, and gives its place.
    #[tactic(auto, using(crate::proofs::Drafts::memory_put, crate::proofs::Drafts::memory_draft))]
    pub fn push_memory(&mut self, memory: Memory) -> Result<usize, NoMemory>
        requires { IsMemory memory }
        ensures ok { IfOk result (λ place. MemoryPut self.old self.new memory place) }
        ensures err { OnErr result (self.new ≡ self.old) }
    {
        let place = self.design.memories.len();
        self.design.memories.push(memory)?;
        Ok(place)
    }

    /// Adds a port of a memory that stands already, and gives its place. The domain that it names may come last.
    #[tactic(auto, using(crate::proofs::Drafts::port_put, crate::proofs::Drafts::port_draft))]
    pub fn push_port(&mut self, port: Port) -> Result<usize, NoMemory>
        requires { IsDraftPort self.old port }
        ensures ok { IfOk result (λ place. PortPut self.old self.new port place) }
        ensures err { OnErr result (self.new ≡ self.old) }
    {
        let place = self.design.ports.len();
        self.design.ports.push(port)?;
        Ok(place)
    }

    /// The expression at a place: its tree is made of those of its children, which are lower.
    #[tactic(auto, using(crate::proofs::Drafts::term_is))]
    pub fn expr(&self, id: ExprId) -> &Expr
        requires { id.place < length self.now.exprs }
        ensures item { slice_get self.now.exprs id.place ≡ Some result.now }
        ensures below { IsTrue (expr_below result.now id.place) }
        ensures tree { designs.term self.now id.place ≡ node_term (designs.term self.now) result.now }
    {
        self.design.exprs.get(id)
    }

    /// The target at a place: its tree is made of those of its parts, which are lower.
    #[tactic(auto, using(crate::proofs::Drafts::target_is, crate::proofs::Drafts::target_there))]
    pub fn target(&self, id: TargetId) -> &Target
        requires { id.place < length self.now.targets }
        ensures below { IsTrue (target_below result.now id.place) }
        ensures stands { TargetStands (designs.shapes self.now) (length self.now.signals) self.now.exprs result.now }
        ensures tree { designs.target self.now id.place ≡ node_target (designs.term self.now) (designs.target self.now) result.now }
    {
        self.design.targets.get(id)
    }

    /// The statement at a place: its tree is made of those of the statements inside, which are lower.
    #[tactic(auto, using(crate::proofs::Drafts::stmt_is, crate::proofs::Drafts::stmt_there))]
    pub fn stmt(&self, id: StmtId) -> &Stmt
        requires { id.place < length self.now.stmts }
        ensures below { IsTrue (stmt_below result.now id.place) }
        ensures stands { StmtStands (length self.now.exprs) (length self.now.targets) result.now }
        ensures tree { designs.stmt self.now id.place ≡ node_stmt (designs.term self.now) (designs.target self.now) (designs.stmt self.now) result.now }
    {
        self.design.stmts.get(id)
    }

    /// The design so far.
    pub fn design(&self) -> &Design
        ensures is { result.now ≡ self.now }
        ensures keeps { DraftKeeps self.now }
        ensures ports { EachOf (IsDraftPort self.now) self.now.ports }
    {
        &self.design
    }

    /// The design, with these statements, domains and ports to the outside: it keeps what designs keep where these do.
    pub fn complete(
        self,
        comb: List<StmtId>,
        sync: List<SyncPart>,
        domains: List<Domain>,
        ios: List<SigId>,
    ) -> Design
        ensures is { result ≡ record self { comb = comb; sync = sync; domains = domains; ios = ios } }
        ensures keeps { HaveDomains (length domains) self.ports → ListsStand result → Keeps result }
    {
        let Design {
            exprs,
            targets,
            stmts,
            signals,
            memories,
            ports,
            ..
        } = self.design;
        Design {
            exprs,
            targets,
            stmts,
            signals,
            comb,
            sync,
            domains,
            memories,
            ports,
            ios,
        }
    }

    /// The design, with these statements, domains, ports of memories in place of its own, and ports to the outside.
    pub fn finish(
        self,
        comb: List<StmtId>,
        sync: List<SyncPart>,
        domains: List<Domain>,
        ports: List<Port>,
        ios: List<SigId>,
    ) -> Design
        ensures is { result ≡ record self { comb = comb; sync = sync; domains = domains; ports = ports; ios = ios } }
        ensures keeps { DraftKeeps self }
        ensures whole { EachOf (IsPort result) ports → ListsStand result → Keeps result }
    {
        let Design {
            exprs,
            targets,
            stmts,
            signals,
            memories,
            ..
        } = self.design;
        Design {
            exprs,
            targets,
            stmts,
            signals,
            comb,
            sync,
            domains,
            memories,
            ports,
            ios,
        }
    }
}
