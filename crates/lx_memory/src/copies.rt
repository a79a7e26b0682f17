//! A copy of a design.

ghost use Rattle.std.specs.Prelude.{◌≡◌, IfOk};

use lx_fhdl::{
    Arm, Branch, Design, Domain, Expr, Exprs, Memory, Port, SigId, Signal, Stmt, StmtId, Stmts,
    SyncPart, Target, Targets,
};
use lx_text::{List, NoMemory, Word};
use std::alloc::Global;

// Copies of items that are plain data.
fn copied<T: Copy + Drop>(alloc: Global, items: &[T]) -> Result<List<T>, NoMemory>
    ensures { IfOk result (λ list. list ≡ items.now) }
{
    let mut list = List::new(alloc);
    for item in items {
        list.push(*item)?;
    }
    Ok(list)
}

/// Copies of ports.
pub(crate) fn copied_ios(alloc: Global, ios: &[SigId]) -> Result<List<SigId>, NoMemory>
    ensures { IfOk result (λ list. list ≡ ios.now) }
{
    copied(alloc, ios)
}

/// Copies of the places of statements.
pub(crate) fn copied_ids(alloc: Global, ids: &[StmtId]) -> Result<List<StmtId>, NoMemory>
    ensures { IfOk result (λ list. list ≡ ids.now) }
{
    copied(alloc, ids)
}

/// Copies of the parts of domains.
pub(crate) fn copied_parts(alloc: Global, parts: &[SyncPart]) -> Result<List<SyncPart>, NoMemory>
    ensures { IfOk result (λ list. list ≡ parts.now) }
{
    let mut list = List::new(alloc);
    for part in parts {
        let stmts = copied_ids(alloc, part.stmts.as_slice())?;
        list.push(SyncPart {
            domain: part.domain,
            stmts,
        })?;
    }
    Ok(list)
}

fn copied_words(alloc: Global, words: &[Word]) -> Result<List<Word>, NoMemory>
    ensures { IfOk result (λ list. list ≡ words.now) }
{
    let mut list = List::new(alloc);
    for word in words {
        list.push(word.copied(alloc)?)?;
    }
    Ok(list)
}

fn copied_signals(alloc: Global, signals: &[Signal]) -> Result<List<Signal>, NoMemory>
    ensures { IfOk result (λ list. list ≡ signals.now) }
{
    let mut list = List::new(alloc);
    for signal in signals {
        list.push(Signal {
            path: copied_words(alloc, signal.path.as_slice())?,
            shape: signal.shape,
            reset: signal.reset,
            reset_less: signal.reset_less,
            by_bus: signal.by_bus,
            line: signal.line,
        })?;
    }
    Ok(list)
}

fn copied_memories(alloc: Global, memories: &[Memory]) -> Result<List<Memory>, NoMemory>
    ensures { IfOk result (λ list. list ≡ memories.now) }
{
    let mut list = List::new(alloc);
    for memory in memories {
        list.push(Memory {
            path: copied_words(alloc, memory.path.as_slice())?,
            width: memory.width,
            depth: memory.depth,
            init: copied(alloc, memory.init.as_slice())?,
            line: memory.line,
        })?;
    }
    Ok(list)
}

fn copied_domains(alloc: Global, domains: &[Domain]) -> Result<List<Domain>, NoMemory>
    ensures { IfOk result (λ list. list ≡ domains.now) }
{
    let mut list = List::new(alloc);
    for domain in domains {
        let name = domain.name.copied(alloc)?;
        let reset = domain.reset;
        list.push(Domain { name, reset })?;
    }
    Ok(list)
}

// ---- nodes

fn copied_expr(alloc: Global, node: &Expr) -> Result<Expr, NoMemory>
    ensures { IfOk result (λ copy. copy ≡ node.now) }
{
    Ok(match node {
        Expr::Const {
            value,
            bits,
            signed,
        } => Expr::Const {
            value: *value,
            bits: *bits,
            signed: *signed,
        },
        Expr::Sig(x) => Expr::Sig(*x),
        Expr::Unary { op, of } => Expr::Unary { op: *op, of: *of },
        Expr::Binary { op, left, right } => Expr::Binary {
            op: *op,
            left: *left,
            right: *right,
        },
        Expr::Mux { cond, yes, no } => Expr::Mux {
            cond: *cond,
            yes: *yes,
            no: *no,
        },
        Expr::Cat(parts) => Expr::Cat(copied(alloc, parts.as_slice())?),
        Expr::Pick { items, index } => Expr::Pick {
            items: copied(alloc, items.as_slice())?,
            index: *index,
        },
        Expr::Replicate { of, count } => Expr::Replicate {
            of: *of,
            count: *count,
        },
        Expr::Slice { of, low, high } => Expr::Slice {
            of: *of,
            low: *low,
            high: *high,
        },
        Expr::Fetch { memory, width, at } => Expr::Fetch {
            memory: *memory,
            width: *width,
            at: *at,
        },
    })
}

fn copied_exprs(alloc: Global, nodes: &Exprs) -> Result<Exprs, NoMemory>
    ensures { IfOk result (λ copy. copy ≡ nodes.now) }
{
    nodes.lower();
    let mut arena = Exprs::new(alloc);
    for node in nodes.as_slice() {
        let copy = copied_expr(alloc, node)?;
        arena.push(copy)?;
    }
    Ok(arena)
}

fn copied_target(alloc: Global, node: &Target) -> Result<Target, NoMemory>
    ensures { IfOk result (λ copy. copy ≡ node.now) }
{
    Ok(match node {
        Target::Whole(x) => Target::Whole(*x),
        Target::Part { signal, low, len } => Target::Part {
            signal: *signal,
            low: *low,
            len: *len,
        },
        Target::Cat(parts) => Target::Cat(copied(alloc, parts.as_slice())?),
        Target::Pick { items, index } => Target::Pick {
            items: copied(alloc, items.as_slice())?,
            index: *index,
        },
    })
}

fn copied_targets(alloc: Global, nodes: &Targets) -> Result<Targets, NoMemory>
    ensures { IfOk result (λ copy. copy ≡ nodes.now) }
{
    nodes.lower();
    let mut arena = Targets::new(alloc);
    for node in nodes.as_slice() {
        let copy = copied_target(alloc, node)?;
        arena.push(copy)?;
    }
    Ok(arena)
}

fn copied_branches(alloc: Global, branches: &[Branch]) -> Result<List<Branch>, NoMemory>
    ensures { IfOk result (λ list. list ≡ branches.now) }
{
    let mut list = List::new(alloc);
    for branch in branches {
        let body = copied_ids(alloc, branch.body.as_slice())?;
        list.push(Branch {
            cond: branch.cond,
            body,
        })?;
    }
    Ok(list)
}

fn copied_arms(alloc: Global, arms: &[Arm]) -> Result<List<Arm>, NoMemory>
    ensures { IfOk result (λ list. list ≡ arms.now) }
{
    let mut list = List::new(alloc);
    for arm in arms {
        let body = copied_ids(alloc, arm.body.as_slice())?;
        list.push(Arm { key: arm.key, body })?;
    }
    Ok(list)
}

fn copied_stmt(alloc: Global, node: &Stmt) -> Result<Stmt, NoMemory>
    ensures { IfOk result (λ copy. copy ≡ node.now) }
{
    Ok(match node {
        Stmt::Assign {
            target,
            value,
            line,
        } => Stmt::Assign {
            target: *target,
            value: *value,
            line: *line,
        },
        Stmt::If {
            branches,
            rest,
            line,
        } => Stmt::If {
            branches: copied_branches(alloc, branches.as_slice())?,
            rest: copied_ids(alloc, rest.as_slice())?,
            line: *line,
        },
        Stmt::Case {
            on,
            arms,
            rest,
            line,
        } => Stmt::Case {
            on: *on,
            arms: copied_arms(alloc, arms.as_slice())?,
            rest: copied_ids(alloc, rest.as_slice())?,
            line: *line,
        },
    })
}

fn copied_stmts(alloc: Global, nodes: &Stmts) -> Result<Stmts, NoMemory>
    ensures { IfOk result (λ copy. copy ≡ nodes.now) }
{
    nodes.lower();
    let mut arena = Stmts::new(alloc);
    for node in nodes.as_slice() {
        let copy = copied_stmt(alloc, node)?;
        arena.push(copy)?;
    }
    Ok(arena)
}

/// A copy of a design.
pub(crate) fn copied_design(alloc: Global, design: &Design) -> Result<Design, NoMemory>
    ensures { IfOk result (λ copy. copy ≡ design.now) }
{
    Ok(Design {
        exprs: copied_exprs(alloc, &design.exprs)?,
        targets: copied_targets(alloc, &design.targets)?,
        stmts: copied_stmts(alloc, &design.stmts)?,
        signals: copied_signals(alloc, design.signals.as_slice())?,
        comb: copied_ids(alloc, design.comb.as_slice())?,
        sync: copied_parts(alloc, design.sync.as_slice())?,
        memories: copied_memories(alloc, design.memories.as_slice())?,
        ports: copied::<Port>(alloc, design.ports.as_slice())?,
        domains: copied_domains(alloc, design.domains.as_slice())?,
        ios: copied_ios(alloc, design.ios.as_slice())?,
    })
}
