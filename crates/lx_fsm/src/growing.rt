//! A design that was complete and grows again: what it keeps of its arenas, its signals, its memories and their ports it
//! keeps at each moment, and what stands in it stays.

ghost use Rattle.std.specs.Prelude.{◌≡◌, ◌<◌, length, IfOk, OnErr};
ghost use Rattle.lx_num.specs.Ints.{Fits};
ghost use Rattle.lx_fhdl.specs.Designs.{shapes};
ghost use Rattle.lx_fhdl.specs.Drafts.{CanAddExpr, CanAddStmt, CanAddTarget, DraftKeeps, ExprPut, HaveDomains, ListsStand, StmtPut, TargetPut};
ghost use Rattle.lx_fhdl.specs.Keeping.{Keeps};
ghost use Rattle.lx_fsm.specs.Flattened.{with_reset};

use lx_fhdl::{Design, Expr, ExprId, SigId, Signal, Stmt, StmtId, SyncPart, Target, TargetId};
use lx_num::Shape;
use lx_text::{List, NoMemory};
use std::alloc::Global;
use std::marker::Model;

/// A design that grows by expressions, targets and statements. A contract sees it as that design.
#[derive(Drop)]
pub struct Growing {
    design: Design,
}

impl Model for Growing {
    ghost use Rattle.lx_fhdl.specs.declared.design.Design.{Design};

    ghost Value = { Design };

    ghost use Rattle.lx_fhdl.specs.Drafts.{IsDraft};

    ghost view = { λ a. a.design };

    ghost invariant = { λ a. IsDraft a.design };
}

impl Growing {
    /// A design grows from here on.
    pub fn of(design: Design) -> Growing
        requires { Keeps design }
        ensures { result ≡ design }
    {
        Growing { design }
    }

    /// It keeps what a design keeps of its arenas, its signals and its memories.
    pub fn keeps(&self)
        ensures { DraftKeeps self.now }
    {
        let _design = &self.design;
    }

    /// Adds an expression over those that stand already, and gives its place.
    #[tactic(auto, using(lx_fhdl::proofs::Drafts::expr_put, lx_fhdl::proofs::Drafts::expr_draft))]
    pub fn push_expr(&mut self, node: Expr) -> Result<ExprId, NoMemory>
        requires { CanAddExpr self.old node }
        ensures ok { IfOk result (λ id. ExprPut self.old self.new node id.place) }
        ensures err { OnErr result (self.new ≡ self.old) }
    {
        let id = self.design.exprs.push(node)?;
        Ok(id)
    }

    /// Adds a target over those that stand already, and gives its place.
    #[tactic(auto, using(lx_fhdl::proofs::Drafts::target_put, lx_fhdl::proofs::Drafts::target_draft))]
    pub fn push_target(&mut self, node: Target) -> Result<TargetId, NoMemory>
        requires { CanAddTarget self.old node }
        ensures ok { IfOk result (λ id. TargetPut self.old self.new node id.place) }
        ensures err { OnErr result (self.new ≡ self.old) }
    {
        let id = self.design.targets.push(node)?;
        Ok(id)
    }

    /// Adds a statement over those that stand already, and gives its place.
    #[tactic(auto, using(lx_fhdl::proofs::Drafts::stmt_put, lx_fhdl::proofs::Drafts::stmt_draft))]
    pub fn push_stmt(&mut self, node: Stmt) -> Result<StmtId, NoMemory>
        requires { CanAddStmt self.old node }
        ensures ok { IfOk result (λ id. StmtPut self.old self.new node id.place) }
        ensures err { OnErr result (self.new ≡ self.old) }
    {
        let id = self.design.stmts.push(node)?;
        Ok(id)
    }

    /// Gives a signal another reset value.
    pub fn set_reset(&mut self, alloc: Global, x: SigId, reset: i128)
        requires there { x.0 < length self.old.signals }
        requires fits { Fits (shapes self.old x.0) reset }
        ensures { self.new ≡ record self.old { signals = with_reset reset x.0 self.old.signals } }
    {
        let none = Signal {
            path: List::new(alloc),
            shape: Shape {
                bits: 1,
                signed: false,
            },
            reset: 0,
            reset_less: false,
            by_bus: false,
            line: 0,
        };
        let signal = self.design.signals.replace(x.0, none);
        let signal = Signal {
            path: signal.path,
            shape: signal.shape,
            reset,
            reset_less: signal.reset_less,
            by_bus: signal.by_bus,
            line: signal.line,
        };
        self.design.signals.replace(x.0, signal);
    }

    /// The design so far.
    pub fn design(&self) -> &Design
        ensures is { result.now ≡ self.now }
        ensures keeps { DraftKeeps self.now }
    {
        &self.design
    }

    /// The design, with these statements in place of its own: it keeps what designs keep where these do.
    pub fn complete(self, comb: List<StmtId>, sync: List<SyncPart>) -> Design
        ensures is { result ≡ record self { comb = comb; sync = sync } }
        ensures keeps { HaveDomains (length self.domains) self.ports → ListsStand result → Keeps result }
    {
        let mut design = self.design;
        design.comb = comb;
        design.sync = sync;
        design
    }
}
