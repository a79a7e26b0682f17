//! Declarations of nets (IEEE 1364-2005, "Net and variable declarations").

ghost use Rattle.std.specs.Prelude.{◌≡◌, ◌++◌, map, IfOk, OnOk};
ghost use Rattle.lx_vtree.specs.Modules.{decl_of};
ghost use Rattle.lx_emission.specs.Emission.{decls_of, inner_decl, node_decl};
ghost use Rattle.lx_nets.specs.Plans.{inner_decls_in, node_decls_in};

use crate::memories::put_decls;
use crate::nets::{node_wire, signal_net};
use lx_arena::Id;
use lx_fhdl::SigId;
use lx_sheet::tables::has_net;
use lx_sheet::{NodeOf, Sheet, SignalOf};
use lx_text::{List, NoMemory};
use lx_vtree::Decl;
use std::alloc::Global;
use std::marker::PhantomData;

// Adds the net of a signal that is no port.
#[tactic(auto, unfolding(lx_emission::specs::Emission::inner_decl))]
fn put_signal(alloc: Global, decls: &mut List<Decl>, x: SignalOf) -> Result<(), NoMemory>
    ensures { OnOk result (map decl_of decls.new ≡ map decl_of decls.old ++ inner_decl x.entry.sheet.now.design x.entry.sheet.now.names x.entry.id.0) }
{
    if x.is_port() {
        return Ok(());
    }
    let net = signal_net(alloc, x)?;
    decls.push(Decl::Net(net))
}

// Adds the net of an operator or slice.
#[tactic(auto, unfolding(lx_emission::specs::Emission::node_decl))]
fn put_node(alloc: Global, decls: &mut List<Decl>, node: NodeOf) -> Result<(), NoMemory>
    ensures { OnOk result (map decl_of decls.new ≡ map decl_of decls.old ++ node_decl node.entry.sheet.now.design node.entry.sheet.now.names node.entry.id.place) }
{
    if !has_net(node.expr()) {
        return Ok(());
    }
    let net = node_wire(alloc, node)?;
    decls.push(Decl::Net(net))
}

// Adds the nets of all signals that are no ports.
#[tactic(auto, using(lx_sheet::proofs::Lines::pieces_next, lx_sheet::proofs::Lines::pieces_end))]
fn put_signals(alloc: Global, sheet: &Sheet, decls: &mut List<Decl>) -> Result<(), NoMemory>
    ensures { OnOk result (map decl_of decls.new ≡ map decl_of decls.old ++ inner_decls_in sheet.now) }
{
    for x in 0..sheet.design.signals.len() {
        put_signal(alloc, decls, SignalOf::new(&*sheet, SigId(x)))?;
    }
    Ok(())
}

// Adds the nets of all operators and slices.
#[tactic(auto, using(lx_sheet::proofs::Lines::pieces_next, lx_sheet::proofs::Lines::pieces_end))]
fn put_nodes(alloc: Global, sheet: &Sheet, decls: &mut List<Decl>) -> Result<(), NoMemory>
    ensures { OnOk result (map decl_of decls.new ≡ map decl_of decls.old ++ node_decls_in sheet.now) }
{
    for place in 0..sheet.design.exprs.len() {
        let id = Id {
            place,
            of: PhantomData,
        };
        put_node(alloc, decls, NodeOf::new(&*sheet, id))?;
    }
    Ok(())
}

/// The declarations of a module: the nets of the signals that are no ports, then the memories and the nets of nodes.
#[tactic(auto, unfolding(lx_emission::specs::Emission::decls_of))]
pub fn decls(alloc: Global, sheet: &Sheet) -> Result<List<Decl>, NoMemory>
    ensures { IfOk result (λ list. map decl_of list ≡ decls_of sheet.now.design sheet.now.names) }
{
    let mut decls = List::new(alloc);
    put_signals(alloc, sheet, &mut decls)?;
    put_decls(alloc, sheet, &mut decls)?;
    put_nodes(alloc, sheet, &mut decls)?;
    Ok(decls)
}
