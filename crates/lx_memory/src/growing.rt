//! A design that was complete and grows again: what it keeps of its arenas, its signals, its memories and their ports it
//! keeps at each moment, and what stands in it stays.

ghost use Rattle.std.specs.Prelude.{[], ◌≡◌, ◌∷◌, ◌++◌, IfOk, OnErr, OnOk};
ghost use Rattle.lx_fhdl.specs.Drafts.{CanAddExpr, CanAddStmt, CanAddTarget, DraftKeeps, ExprPut, SignalPut, StmtPut, TargetPut};
ghost use Rattle.lx_fhdl.specs.Keeping.{IsSignal, Keeps, ListStands, PartStands};
ghost use Rattle.lx_memory.specs.Puts.{IsGrowing};

use lx_fhdl::{
    Design, Expr, ExprId, Port, SigId, Signal, Stmt, StmtId, SyncPart, Target, TargetId,
};
use lx_text::{List, NoMemory};
use std::marker::Model;

/// A design that grows by signals, expressions, targets and statements. A contract sees it as that design.
#[derive(Drop)]
pub(crate) struct Growing {
    design: Design,
}

impl Model for Growing {
    ghost use Rattle.lx_fhdl.specs.declared.design.Design.{Design};

    ghost Value = { Design };

    ghost use Rattle.lx_memory.specs.Puts.{IsGrowing};

    ghost view = { λ a. a.design };

    ghost invariant = { λ a. IsGrowing a.design };
}

impl Growing {
    /// A design grows from here on.
    pub(crate) fn of(design: Design) -> Growing
        requires { Keeps design }
        ensures { result ≡ design }
    {
        Growing { design }
    }

    /// It keeps what a design keeps of its arenas, its signals and its memories.
    pub(crate) fn keeps(&self)
        ensures { DraftKeeps self.now }
    {
        let _design = &self.design;
    }

    /// Its lists of statements stand too.
    pub(crate) fn stands(&self)
        ensures { IsGrowing self.now }
    {
        let _design = &self.design;
    }

    /// Adds a signal, and gives its place.
    #[tactic(auto, using(crate::proofs::Standing::signal_put, crate::proofs::Standing::signal_growing))]
    pub(crate) fn push_signal(&mut self, signal: Signal) -> Result<SigId, NoMemory>
        requires { IsSignal signal }
        ensures ok { IfOk result (λ id. SignalPut self.old self.new signal id.0) }
        ensures err { OnErr result (self.new ≡ self.old) }
    {
        let id = SigId(self.design.signals.len());
        self.design.signals.push(signal)?;
        Ok(id)
    }

    /// Adds an expression over those that stand already, and gives its place.
    #[tactic(auto, using(crate::proofs::Standing::expr_put))]
    pub(crate) fn push_expr(&mut self, node: Expr) -> Result<ExprId, NoMemory>
        requires { CanAddExpr self.old node }
        ensures ok { IfOk result (λ id. ExprPut self.old self.new node id.place) }
        ensures err { OnErr result (self.new ≡ self.old) }
    {
        let id = self.design.exprs.push(node)?;
        Ok(id)
    }

    /// Adds a target over those that stand already, and gives its place.
    #[tactic(auto, using(crate::proofs::Standing::target_put))]
    pub(crate) fn push_target(&mut self, node: Target) -> Result<TargetId, NoMemory>
        requires { CanAddTarget self.old node }
        ensures ok { IfOk result (λ id. TargetPut self.old self.new node id.place) }
        ensures err { OnErr result (self.new ≡ self.old) }
    {
        let id = self.design.targets.push(node)?;
        Ok(id)
    }

    /// Adds a statement over those that stand already, and gives its place.
    #[tactic(auto, using(crate::proofs::Standing::stmt_put))]
    pub(crate) fn push_stmt(&mut self, node: Stmt) -> Result<StmtId, NoMemory>
        requires { CanAddStmt self.old node }
        ensures ok { IfOk result (λ id. StmtPut self.old self.new node id.place) }
        ensures err { OnErr result (self.new ≡ self.old) }
    {
        let id = self.design.stmts.push(node)?;
        Ok(id)
    }

    /// Adds a combinatorial statement that stands already.
    pub(crate) fn push_comb(&mut self, id: StmtId) -> Result<(), NoMemory>
        requires { ListStands self.old (id ∷ []) }
        ensures ok { OnOk result (self.new ≡ record self.old { comb = self.old.comb ++ id ∷ [] }) }
        ensures err { OnErr result (self.new ≡ self.old) }
    {
        self.design.comb.push(id)?;
        Ok(())
    }

    /// Adds statements of a domain that stand already.
    pub(crate) fn push_sync(&mut self, part: SyncPart) -> Result<(), NoMemory>
        requires { PartStands self.old part }
        ensures ok { OnOk result (self.new ≡ record self.old { sync = self.old.sync ++ part ∷ [] }) }
        ensures err { OnErr result (self.new ≡ self.old) }
    {
        self.design.sync.push(part)?;
        Ok(())
    }

    /// The design so far.
    pub(crate) fn design(&self) -> &Design
        ensures is { result.now ≡ self.now }
        ensures keeps { DraftKeeps self.now }
    {
        &self.design
    }

    /// The design, with these ports of memories in place of its own.
    pub(crate) fn complete(self, ports: List<Port>) -> Design
        ensures { result ≡ record self { ports = ports } }
    {
        let mut design = self.design;
        design.ports = ports;
        design
    }
}
