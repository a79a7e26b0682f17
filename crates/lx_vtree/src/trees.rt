//! The expressions and statements of a module, with the trees that hang at their places.

ghost use Rattle.std.specs.Prelude.{◌≡◌, ◌<◌, [], length, IsTrue, IfOk, OnErr};
ghost use Rattle.lx_arena.specs.Lower.{EachLower};
ghost use Rattle.lx_vtree.specs.Below.{is_below};
ghost use Rattle.lx_vtree.specs.Trees.{plant};
ghost use Rattle.lx_vtree.specs.Stmts.{plant_stmt, is_stmt_below, is_stmt_placed, StmtsPlaced};
ghost use Rattle.lx_vtree.specs.NodeLists.{expr_tree, stmt_tree};
ghost use Rattle.lx_vtree.specs.Growth.{AddedExpr, AddedStmt};

use crate::nodes::{ExprId, StmtId, VExpr, VStmt};
use lx_arena::Arena;
use lx_text::NoMemory;
use std::alloc::Global;
use std::marker::Model;

/// The expressions and statements of a module. The parts of each stand before it, and the expressions of every
/// statement are there.
#[derive(Drop)]
pub struct Nodes {
    exprs: Arena<VExpr>,
    stmts: Arena<VStmt>,
}

impl Model for Nodes {
    ghost use Rattle.lx_vtree.specs.NodeLists.{NodeLists};

    ghost Value = { NodeLists };

    ghost use Rattle.std.specs.Prelude.{length};
    ghost use Rattle.lx_vtree.specs.Stmts.{StmtsPlaced};

    ghost view = { λ n. record { exprs = n.exprs; stmts = n.stmts } };

    ghost invariant = { λ n. StmtsPlaced (length n.exprs) n.stmts };
}

impl Nodes {
    /// No nodes.
    #[tactic(auto, using(crate::proofs::Stmts::none_placed))]
    pub fn new(alloc: Global) -> Nodes
        ensures { result ≡ record { exprs = []; stmts = [] } }
    {
        Nodes {
            exprs: Arena::new(alloc),
            stmts: Arena::new(alloc),
        }
    }

    /// The number of expressions.
    pub fn expr_count(&self) -> usize
        ensures { result ≡ length self.now.exprs }
    {
        self.exprs.len()
    }

    /// The number of statements.
    pub fn stmt_count(&self) -> usize
        ensures { result ≡ length self.now.stmts }
    {
        self.stmts.len()
    }

    /// What nodes keep of their places.
    pub fn keep(&self)
        ensures exprs { EachLower is_below self.now.exprs }
        ensures stmts { EachLower is_stmt_below self.now.stmts }
        ensures placed { StmtsPlaced (length self.now.exprs) self.now.stmts }
    {
        self.exprs.lower();
        self.stmts.lower();
    }

    /// The expression at a place: what hangs there is the tree of this node, whose children are lower.
    #[tactic(auto, using(crate::proofs::Exprs::tree_is))]
    pub fn expr(&self, id: ExprId) -> &VExpr
        requires { id.place < length self.now.exprs }
        ensures tree { expr_tree self.now id.place ≡ plant (expr_tree self.now) result.now }
        ensures below { IsTrue (is_below result.now id.place) }
    {
        self.exprs.get(id)
    }

    /// The statement at a place: what hangs there is the tree of this node, whose statements are lower
    /// and whose expressions are there.
    #[tactic(auto, using(crate::proofs::Stmts::stmt_is, crate::proofs::Stmts::placed_at))]
    pub fn stmt(&self, id: StmtId) -> &VStmt
        requires { id.place < length self.now.stmts }
        ensures tree { stmt_tree self.now id.place ≡ plant_stmt (expr_tree self.now) (stmt_tree self.now) result.now }
        ensures below { IsTrue (is_stmt_below result.now id.place) }
        ensures placed { IsTrue (is_stmt_placed (length self.now.exprs) result.now) }
    {
        self.stmts.get(id)
    }

    /// Adds an expression whose children stand already, and gives its place.
    /// The trees that hung there stay, and so do the statements.
    #[tactic(auto, using(crate::proofs::Stmts::stmts_wider))]
    pub fn add_expr(&mut self, node: VExpr) -> Result<ExprId, NoMemory>
        requires { IsTrue (is_below node (length self.old.exprs)) }
        ensures ok { IfOk result (λ id. AddedExpr self.old self.new id.place node) }
        ensures err { OnErr result (self.new ≡ self.old) }
    {
        self.stmts.lower();
        let id = self.exprs.push(node)?;
        Ok(id)
    }

    /// Adds a statement whose parts stand already, and gives its place.
    /// The trees that hung there stay, and so do the expressions.
    #[tactic(auto, using(crate::proofs::Stmts::placed_more))]
    pub fn add_stmt(&mut self, node: VStmt) -> Result<StmtId, NoMemory>
        requires below { IsTrue (is_stmt_below node (length self.old.stmts)) }
        requires placed { IsTrue (is_stmt_placed (length self.old.exprs) node) }
        ensures ok { IfOk result (λ id. AddedStmt self.old self.new id.place node) }
        ensures exprs { self.new.exprs ≡ self.old.exprs }
        ensures err { OnErr result (self.new ≡ self.old) }
    {
        let id = self.stmts.push(node)?;
        Ok(id)
    }
}
