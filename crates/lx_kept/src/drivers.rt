//! Which statements of a design assign one signal: targets and statements from the lowest places on.

ghost use Rattle.std.specs.Prelude.{◌≡◌, ◌<◌, ◌&&◌, length, map, option_map, IfOk, IsTrue};
ghost use Rattle.lx_fhdl.specs.Below.{all_arms_below, all_branches_below, all_stmts_below, all_targets_below, stmt_below, target_below};
ghost use Rattle.lx_circuit.specs.Circuit.{is_among, is_named, made, role};
ghost use Rattle.lx_fhdl.specs.Designs.{circuit_of, signal_number};
ghost use Rattle.lx_fhdl.specs.Kept as kept;
ghost use Rattle.lx_kept.specs.Drivers.{AreMarks, AreTargetMarks, is_from_outside, is_read, is_reset_of, is_undriven, mark_at, some_arm_marked, some_branch_marked, some_marked, some_part_marked, some_target_marked, stmt_assigns, target_has};
ghost use Rattle.lx_kept.specs.Given.{AllPartsBelow, HasArenas, ListsAreThere, TargetIsThere};

use lx_arena::Id;
use lx_fhdl::{Arm, Branch, Design, Domain, Port, SigId, Stmt, StmtId, SyncPart, Target, TargetId};
use lx_text::{List, NoMemory};
use std::alloc::Global;
use std::marker::PhantomData;

fn mark_at(marks: &[bool], place: usize) -> bool
    requires { place < length marks.now }
    ensures { result ≡ mark_at marks.now place }
{
    marks[place]
}

// ---- targets

fn some_target_marked(marks: &[bool], ids: &[TargetId]) -> bool
    requires { IsTrue (all_targets_below (length marks.now) ids.now) }
    ensures { result ≡ some_target_marked marks.now ids.now }
{
    for id in ids {
        if mark_at(marks, id.place) {
            return true;
        }
    }
    false
}

// Whether a target has the signal, from its parts.
fn target_has(x: SigId, marks: &[bool], node: &Target) -> bool
    requires { IsTrue (target_below node.now (length marks.now)) }
    ensures { result ≡ target_has x.0 marks.now node.now }
{
    match node {
        Target::Whole(y) => y.0 == x.0,
        Target::Part { signal, .. } => signal.0 == x.0,
        Target::Cat(parts) => some_target_marked(marks, parts.as_slice()),
        Target::Pick { items, .. } => some_target_marked(marks, items.as_slice()),
    }
}

// The targets that have the signal.
fn target_marks(alloc: Global, design: &Design, x: SigId) -> Result<List<bool>, NoMemory>
    ensures { IfOk result (λ marks. AreTargetMarks design.now x.0 (length design.now.targets) marks) }
{
    design.targets.lower();
    let mut marks = List::new(alloc);
    for place in 0..design.targets.len() {
        let id = Id {
            place,
            of: PhantomData,
        };
        let mark = target_has(x, marks.as_slice(), design.targets.get(id));
        marks.push(mark)?;
    }
    Ok(marks)
}

// ---- statements

fn some_marked(marks: &[bool], ids: &[StmtId]) -> bool
    requires { IsTrue (all_stmts_below (length marks.now) ids.now) }
    ensures { result ≡ some_marked marks.now ids.now }
{
    for id in ids {
        if mark_at(marks, id.place) {
            return true;
        }
    }
    false
}

fn some_branch_marked(marks: &[bool], branches: &[Branch]) -> bool
    requires { IsTrue (all_branches_below (length marks.now) branches.now) }
    ensures { result ≡ some_branch_marked marks.now branches.now }
{
    for branch in branches {
        if some_marked(marks, branch.body.as_slice()) {
            return true;
        }
    }
    false
}

fn some_arm_marked(marks: &[bool], arms: &[Arm]) -> bool
    requires { IsTrue (all_arms_below (length marks.now) arms.now) }
    ensures { result ≡ some_arm_marked marks.now arms.now }
{
    for arm in arms {
        if some_marked(marks, arm.body.as_slice()) {
            return true;
        }
    }
    false
}

// Whether a statement assigns the signal, from its target and the statements inside.
fn stmt_assigns(targets: &[bool], stmts: &[bool], node: &Stmt) -> bool
    requires target { TargetIsThere (length targets.now) node.now }
    requires stmts { IsTrue (stmt_below node.now (length stmts.now)) }
    ensures { result ≡ stmt_assigns targets.now stmts.now node.now }
{
    match node {
        Stmt::Assign { target, .. } => mark_at(targets, target.place),
        Stmt::If { branches, rest, .. } => {
            some_branch_marked(stmts, branches.as_slice()) || some_marked(stmts, rest.as_slice())
        }
        Stmt::Case { arms, rest, .. } => {
            some_arm_marked(stmts, arms.as_slice()) || some_marked(stmts, rest.as_slice())
        }
    }
}

// The statements that assign the signal.
fn stmt_marks(
    alloc: Global,
    design: &Design,
    x: SigId,
    targets: &[bool],
) -> Result<List<bool>, NoMemory>
    requires arenas { HasArenas design.now }
    requires targets { AreTargetMarks design.now x.0 (length design.now.targets) targets.now }
    ensures { IfOk result (λ marks. AreMarks design.now x.0 (length design.now.stmts) marks) }
{
    let mut marks = List::new(alloc);
    for place in 0..design.stmts.len() {
        let id = Id {
            place,
            of: PhantomData,
        };
        let mark = stmt_assigns(targets, marks.as_slice(), design.stmts.get(id));
        marks.push(mark)?;
    }
    Ok(marks)
}

fn marks(alloc: Global, design: &Design, x: SigId) -> Result<List<bool>, NoMemory>
    requires { HasArenas design.now }
    ensures { IfOk result (λ marks. AreMarks design.now x.0 (length design.now.stmts) marks) }
{
    let targets = target_marks(alloc, design, x)?;
    stmt_marks(alloc, design, x, targets.as_slice())
}

// ---- the role

fn some_part_marked(marks: &[bool], parts: &[SyncPart]) -> bool
    requires { AllPartsBelow (length marks.now) parts.now }
    ensures { result ≡ some_part_marked marks.now parts.now }
{
    for part in parts {
        if some_marked(marks, part.stmts.as_slice()) {
            return true;
        }
    }
    false
}

fn is_named(x: SigId, signal: Option<SigId>) -> bool
    ensures { result ≡ is_named x.0 (option_map signal_number signal) }
{
    match signal {
        Some(y) => y.0 == x.0,
        None => false,
    }
}

fn is_read(x: SigId, ports: &[Port]) -> bool
    ensures { result ≡ is_read x.0 ports.now }
{
    for port in ports {
        if is_named(x, port.dat_r) {
            return true;
        }
    }
    false
}

fn is_reset_of(x: SigId, domains: &[Domain]) -> bool
    ensures { result ≡ is_reset_of x.0 domains.now }
{
    for domain in domains {
        if is_named(x, domain.reset) {
            return true;
        }
    }
    false
}

fn is_among(x: SigId, ids: &[SigId]) -> bool
    ensures { result ≡ is_among x.0 (map signal_number ids.now) }
{
    for id in ids {
        if id.0 == x.0 {
            return true;
        }
    }
    false
}

// Whether a signal that nothing drives has its value from outside.
fn is_from_outside(design: &Design, x: SigId, given: bool) -> bool
    ensures { result ≡ is_from_outside design.now x.0 given }
{
    !given && (is_among(x, design.ios.as_slice()) || is_reset_of(x, design.domains.as_slice()))
}

// Whether nothing drives a signal.
#[tactic(auto, using(crate::proofs::Roles::parts_below))]
fn is_undriven(design: &Design, x: SigId, marks: &[bool]) -> bool
    requires lists { ListsAreThere design.now }
    requires marks { length marks.now ≡ length design.now.stmts }
    ensures { result ≡ is_undriven design.now x.0 marks.now }
{
    !some_marked(marks, design.comb.as_slice())
        && !some_part_marked(marks, design.sync.as_slice())
        && !is_read(x, design.ports.as_slice())
}

// Whether nothing drives a signal, and it has its value from outside.
fn is_open(design: &Design, x: SigId, given: bool, marks: &[bool]) -> bool
    requires lists { ListsAreThere design.now }
    requires marks { length marks.now ≡ length design.now.stmts }
    ensures { result ≡ (is_undriven design.now x.0 marks.now && is_from_outside design.now x.0 given) }
{
    is_undriven(design, x, marks) && is_from_outside(design, x, given)
}

/// Whether a signal, given by the bus or not, is an input of the circuit.
#[tactic(auto, using(crate::proofs::Roles::role_is))]
pub fn is_input(alloc: Global, design: &Design, x: SigId, given: bool) -> Result<bool, NoMemory>
    requires arenas { HasArenas design.now }
    requires lists { ListsAreThere design.now }
    requires given { given ≡ (made (circuit_of design.now) x.0).given }
    ensures { IfOk result (λ input. input ≡ kept.is_input (role (circuit_of design.now) x.0)) }
{
    let marks = marks(alloc, design, x)?;
    Ok(is_open(design, x, given, marks.as_slice()))
}
