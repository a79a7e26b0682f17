//! Whole designs, built node by node: the texts of the modules that are made of them.

ghost use Rattle.std.specs.Prelude.{◌≡◌, ◌∷◌, [], None, Some, codes, IfOk};
ghost use Rattle.lx_fhdl.specs.Instance as instance;
ghost use Rattle.lx_emission.specs.Emits.{CanBeEmitted};
ghost use Rattle.lx_emission.specs.Emission.{emitted};
ghost use Rattle.lx_vtext.specs.Printed.{module_text};
ghost use Rattle.lx_emission.specs.Instance as designs;
ghost use Rattle.lx_write.specs.Writes.{CanBeWritten};

use crate::each_form::unsigned;
use crate::nodes::{the_expr, the_stmt, the_target};
use lx_arena::Arena;
use lx_emission::{swap_law, swap_text_law, toggle_law, toggle_text_law};
use lx_emit::emit_design;
use lx_fhdl::{
    Branch, Design, Domain, Expr, ExprId, Exprs, SigId, Signal, Stmt, StmtId, Stmts, SyncPart,
    Target, TargetId, Targets,
};
use lx_num::Shape;
use lx_tables::Op;
use lx_text::{List, NoMemory, Text, Word};
use lx_vprint::print;
use lx_write::write_module;
use std::alloc::Global;

#[tactic(auto, unfolding(lx_emission::specs::Instance::toggle_exprs))]
fn toggle_exprs(alloc: Global) -> Result<Exprs, NoMemory>
    ensures { IfOk result (λ exprs. exprs ≡ designs.toggle_exprs) }
{
    let mut exprs = Arena::new(alloc);
    let _c = exprs.push(Expr::Sig(SigId(0)))?;
    let _q = exprs.push(Expr::Sig(SigId(1)))?;
    let of = the_expr(1);
    let _turned = exprs.push(Expr::Unary { op: Op::Not, of })?;
    Ok(exprs)
}

#[tactic(auto, unfolding(lx_emission::specs::Instance::toggle_targets))]
fn toggle_targets(alloc: Global) -> Result<Targets, NoMemory>
    ensures { IfOk result (λ targets. targets ≡ designs.toggle_targets) }
{
    let mut targets = Arena::new(alloc);
    let _q = targets.push(Target::Whole(SigId(1)))?;
    Ok(targets)
}

// If(c, q.eq(~q))
#[tactic(auto, unfolding(lx_emission::specs::Instance::toggle_stmts))]
fn toggle_stmts(alloc: Global) -> Result<Stmts, NoMemory>
    ensures { IfOk result (λ stmts. stmts ≡ designs.toggle_stmts) }
{
    let mut stmts = Arena::new(alloc);
    let _assign = stmts.push(Stmt::Assign {
        target: the_target(0),
        value: the_expr(2),
        line: 3,
    })?;
    let branch = Branch {
        cond: the_expr(0),
        body: List::of_one(alloc, the_stmt(0))?,
    };
    let _condition = stmts.push(Stmt::If {
        branches: List::of_one(alloc, branch)?,
        rest: List::new(alloc),
        line: 2,
    })?;
    Ok(stmts)
}

#[tactic(auto, unfolding(lx_emission::specs::Instance::toggle_signals))]
fn toggle_signals(alloc: Global) -> Result<List<Signal>, NoMemory>
    ensures { IfOk result (λ signals. signals ≡ designs.toggle_signals) }
{
    let mut signals = List::new(alloc);
    signals.push(unsigned(alloc, b"c", 1, 0)?)?;
    signals.push(unsigned(alloc, b"q", 2, 1)?)?;
    signals.push(unsigned(alloc, b"sys_rst", 1, 0)?)?;
    Ok(signals)
}

// Statements of a domain.
fn part(alloc: Global, domain: usize, stmt: usize) -> Result<SyncPart, NoMemory>
    ensures { IfOk result (λ part. part ≡ record { domain = domain; stmts = instance.the_stmt stmt ∷ [] }) }
{
    let stmts = List::of_one(alloc, the_stmt(stmt))?;
    Ok(SyncPart { domain, stmts })
}

// A clock domain.
fn domain(alloc: Global, name: &[u8], reset: Option<SigId>) -> Result<Domain, NoMemory>
    ensures { IfOk result (λ domain. domain ≡ record { name = name.now; reset = reset }) }
{
    let name = Word::new(alloc, name)?;
    Ok(Domain { name, reset })
}

// The first two signals.
fn ios(alloc: Global) -> Result<List<SigId>, NoMemory>
    ensures { IfOk result (λ ios. ios ≡ instance.the_signal 0 ∷ instance.the_signal 1 ∷ []) }
{
    let mut ios = List::of_one(alloc, SigId(0))?;
    ios.push(SigId(1))?;
    Ok(ios)
}

#[tactic(auto, unfolding(lx_emission::specs::Instance::toggle))]
fn toggle(alloc: Global) -> Result<Design, NoMemory>
    ensures { IfOk result (λ design. design ≡ designs.toggle) }
{
    let exprs = toggle_exprs(alloc)?;
    let targets = toggle_targets(alloc)?;
    let stmts = toggle_stmts(alloc)?;
    let signals = toggle_signals(alloc)?;
    let sync = part(alloc, 0, 1)?;
    let sys = domain(alloc, b"sys", Some(SigId(2)))?;
    Ok(Design {
        exprs,
        targets,
        stmts,
        signals,
        comb: List::new(alloc),
        sync: List::of_one(alloc, sync)?,
        domains: List::of_one(alloc, sys)?,
        memories: List::new(alloc),
        ports: List::new(alloc),
        ios: ios(alloc)?,
    })
}

fn toggle_names(alloc: Global) -> Result<List<Word>, NoMemory>
    ensures { IfOk result (λ names. names ≡ designs.toggle_names) }
{
    let mut names = List::new(alloc);
    names.push(Word::new(alloc, b"c")?)?;
    names.push(Word::new(alloc, b"q")?)?;
    names.push(Word::new(alloc, b"sys_rst")?)?;
    Ok(names)
}

// The text of a design's module.
fn written(alloc: Global, design: &Design, names: &List<Word>) -> Result<Text, NoMemory>
    requires { CanBeEmitted design.now names.now }
    ensures { IfOk result (λ text. text ≡ module_text (emitted design.now names.now)) }
{
    let module = emit_design(alloc, design, names)?;
    print(alloc, &module)
}

fn toggle_text(alloc: Global) -> Result<Text, NoMemory>
    ensures { IfOk result (λ text. text ≡ designs.toggle_text) }
{
    toggle_law();
    toggle_text_law();
    let design = toggle(alloc)?;
    let names = toggle_names(alloc)?;
    written(alloc, &design, &names)
}

#[tactic(auto, unfolding(lx_emission::specs::Instance::swap_exprs))]
fn swap_exprs(alloc: Global) -> Result<Exprs, NoMemory>
    ensures { IfOk result (λ exprs. exprs ≡ designs.swap_exprs) }
{
    let mut exprs = Arena::new(alloc);
    let _b = exprs.push(Expr::Sig(SigId(1)))?;
    let _a = exprs.push(Expr::Sig(SigId(0)))?;
    Ok(exprs)
}

#[tactic(auto, unfolding(lx_emission::specs::Instance::swap_targets))]
fn swap_targets(alloc: Global) -> Result<Targets, NoMemory>
    ensures { IfOk result (λ targets. targets ≡ designs.swap_targets) }
{
    let mut targets = Arena::new(alloc);
    let _a = targets.push(Target::Whole(SigId(0)))?;
    let _b = targets.push(Target::Whole(SigId(1)))?;
    Ok(targets)
}

// a.eq(b), and b.eq(a)
#[tactic(auto, unfolding(lx_emission::specs::Instance::swap_stmts))]
fn swap_stmts(alloc: Global) -> Result<Stmts, NoMemory>
    ensures { IfOk result (λ stmts. stmts ≡ designs.swap_stmts) }
{
    let mut stmts = Arena::new(alloc);
    let _a = stmts.push(Stmt::Assign {
        target: the_target(0),
        value: the_expr(0),
        line: 2,
    })?;
    let _b = stmts.push(Stmt::Assign {
        target: the_target(1),
        value: the_expr(1),
        line: 3,
    })?;
    Ok(stmts)
}

#[tactic(auto, unfolding(lx_emission::specs::Instance::swap_signals))]
fn swap_signals(alloc: Global) -> Result<List<Signal>, NoMemory>
    ensures { IfOk result (λ signals. signals ≡ designs.swap_signals) }
{
    let mut signals = List::new(alloc);
    signals.push(unsigned(alloc, b"a", 2, 1)?)?;
    signals.push(unsigned(alloc, b"b", 2, 2)?)?;
    signals.push(unsigned(alloc, b"pix_rst", 1, 0)?)?;
    Ok(signals)
}

fn swap_sync(alloc: Global) -> Result<List<SyncPart>, NoMemory>
    ensures { IfOk result (λ sync. sync ≡ record { domain = 0; stmts = instance.the_stmt 0 ∷ [] } ∷ record { domain = 1; stmts = instance.the_stmt 1 ∷ [] } ∷ []) }
{
    let mut sync = List::of_one(alloc, part(alloc, 0, 0)?)?;
    sync.push(part(alloc, 1, 1)?)?;
    Ok(sync)
}

fn swap_domains(alloc: Global) -> Result<List<Domain>, NoMemory>
    ensures { IfOk result (λ domains. domains ≡ record { name = codes "sys"; reset = None } ∷ record { name = codes "pix"; reset = Some (instance.the_signal 2) } ∷ []) }
{
    let mut domains = List::of_one(alloc, domain(alloc, b"sys", None)?)?;
    domains.push(domain(alloc, b"pix", Some(SigId(2)))?)?;
    Ok(domains)
}

#[tactic(auto, unfolding(lx_emission::specs::Instance::swap))]
fn swap(alloc: Global) -> Result<Design, NoMemory>
    ensures { IfOk result (λ design. design ≡ designs.swap) }
{
    Ok(Design {
        exprs: swap_exprs(alloc)?,
        targets: swap_targets(alloc)?,
        stmts: swap_stmts(alloc)?,
        signals: swap_signals(alloc)?,
        comb: List::new(alloc),
        sync: swap_sync(alloc)?,
        domains: swap_domains(alloc)?,
        memories: List::new(alloc),
        ports: List::new(alloc),
        ios: ios(alloc)?,
    })
}

fn swap_names(alloc: Global) -> Result<List<Word>, NoMemory>
    ensures { IfOk result (λ names. names ≡ designs.swap_names) }
{
    let mut names = List::new(alloc);
    names.push(Word::new(alloc, b"a")?)?;
    names.push(Word::new(alloc, b"b")?)?;
    names.push(Word::new(alloc, b"pix_rst")?)?;
    Ok(names)
}

fn swap_text(alloc: Global) -> Result<Text, NoMemory>
    ensures { IfOk result (λ text. text ≡ designs.swap_text) }
{
    swap_law();
    swap_text_law();
    let design = swap(alloc)?;
    let names = swap_names(alloc)?;
    written(alloc, &design, &names)
}

// The text of the module of a design, by way of its lowered design.
fn written_whole(alloc: Global, design: &Design, names: &List<Word>) -> Result<Text, NoMemory>
    requires { CanBeWritten design.now names.now }
{
    let module = write_module(alloc, design, names)?;
    print(alloc, &module)
}

#[tactic(auto, using(crate::proofs::Whole::toggle_written))]
fn toggle_whole(alloc: Global) -> Result<Text, NoMemory> {
    toggle_law();
    let design = toggle(alloc)?;
    let names = toggle_names(alloc)?;
    written_whole(alloc, &design, &names)
}

#[tactic(auto, using(crate::proofs::Whole::swap_written))]
fn swap_whole(alloc: Global) -> Result<Text, NoMemory> {
    swap_law();
    let design = swap(alloc)?;
    let names = swap_names(alloc)?;
    written_whole(alloc, &design, &names)
}

/// The texts of both designs, by way of their modules, then by way of their lowered designs too: they are lowered
/// already, so that lowering changes no byte.
pub(crate) fn show_all(alloc: Global, out: &mut Text) -> Result<(), NoMemory> {
    show(b"toggle", toggle_text(alloc), out)?;
    show(b"swap", swap_text(alloc), out)?;
    show(b"toggle, lowered", toggle_whole(alloc), out)?;
    show(b"swap, lowered", swap_whole(alloc), out)
}

fn show(name: &[u8], text: Result<Text, NoMemory>, out: &mut Text) -> Result<(), NoMemory> {
    let text = text?;
    out.word(b"== ")?;
    out.word(name)?;
    out.word(b"\n")?;
    out.word(text.as_bytes())
}
