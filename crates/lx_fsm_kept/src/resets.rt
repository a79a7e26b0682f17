//! Whether the resets of clock domains are left alone: no target names one, and no FSM has one.

ghost use Rattle.std.specs.Prelude.{◌≡◌, nat_eq};
ghost use Rattle.std.specs.List.{list_all, list_any};
ghost use Rattle.lx_description.specs.declared.fsms.Asked.{Asked};
ghost use Rattle.lx_fhdl.specs.declared.design.Domain.{Domain};
ghost use Rattle.lx_fsm_kept.specs.Stand.{has_signal, is_left, passes, some_left};

use lx_description::{Asked, Description, FsmDecl};
use lx_fhdl::{Domain, SigId, Target};

fn passes(x: SigId, node: &Target) -> bool
    ensures { result ≡ passes x.0 node.now }
{
    match node {
        Target::Whole(y) => y.0 != x.0,
        Target::Part { signal, .. } => signal.0 != x.0,
        Target::Cat(_) | Target::Pick { .. } => true,
    }
}

fn targets_pass(x: SigId, nodes: &[Target]) -> bool
    ensures { result ≡ list_all (passes x.0) nodes.now }
{
    for node in nodes {
        if !passes(x, node) {
            return false;
        }
    }
    true
}

fn is_asked(x: SigId, all: &[Asked]) -> bool
    ensures { result ≡ list_any (λ (a : Asked). nat_eq a.signal.0 x.0) all.now }
{
    for asked in all {
        if asked.signal.0 == x.0 {
            return true;
        }
    }
    false
}

fn has_signal(x: SigId, fsm: &FsmDecl) -> bool
    ensures { result ≡ has_signal x.0 fsm.now }
{
    fsm.state.0 == x.0 || is_asked(x, fsm.asked.as_slice())
}

fn some_has_signal(x: SigId, fsms: &[FsmDecl]) -> bool
    ensures { result ≡ list_any (has_signal x.0) fsms.now }
{
    for fsm in fsms {
        if has_signal(x, fsm) {
            return true;
        }
    }
    false
}

fn is_left(description: &Description, x: SigId) -> bool
    ensures { result ≡ is_left description.now x.0 }
{
    targets_pass(x, description.design.targets.as_slice())
        && !some_has_signal(x, description.fsms.as_slice())
}

fn some_left(description: &Description, reset: Option<SigId>) -> bool
    ensures { result ≡ some_left description.now reset }
{
    match reset {
        Some(x) => is_left(description, x),
        None => true,
    }
}

/// Whether the resets of all clock domains are.
pub(crate) fn resets_left(description: &Description) -> bool
    ensures { result ≡ list_all (λ (x : Domain). some_left description.now x.reset) description.now.design.domains }
{
    for domain in description.design.domains.as_slice() {
        if !some_left(description, domain.reset) {
            return false;
        }
    }
    true
}
