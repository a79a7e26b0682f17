//! Whether each `dat_r` of a design is that of one port, and no statement drives it.

ghost use Rattle.std.specs.Prelude.{◌≡◌, ◌<◌, ◌&&◌, ℕ, false, length, not, replicate, slice_get, slice_index_or, true, IfOk, IfSome, Some};
ghost use Rattle.std.specs.List.{list_any};
ghost use Rattle.lx_fhdl.specs.Designs.{circuit_of};
ghost use Rattle.lx_fhdl.specs.Keeping.{Keeps};
ghost use Rattle.lx_reads.specs.declared.net.Driven.{Driven};
ghost use Rattle.lx_memory.specs.Alone.{AreShown, are_apart, mark_of, shows_alone, with_mark};
ghost use Rattle.lx_memory.specs.Lowers.{ShowAlone};

use lx_fhdl::{Design, Port};
use lx_reads::net::Driven;
use lx_reads::whole::{comb_net, put_domains};
use lx_text::{List, NoMemory};
use std::alloc::Global;

// As many marks as signals, none set.
fn no_marks(alloc: Global, count: usize) -> Result<List<bool>, NoMemory>
    ensures { IfOk result (λ marks. marks ≡ replicate count false) }
{
    let mut marks = List::new(alloc);
    for _made in 0..count {
        marks.push(false)?;
    }
    Ok(marks)
}

// Marks the signal that a port shows, where it shows one, and tells whether it was marked.
fn put_shown(marks: &mut List<bool>, port: &Port) -> bool
    requires { IfSome port.now.dat_r (λ x. x.0 < length marks.old) }
    ensures was { result ≡ mark_of marks.old port.now.dat_r }
    ensures now { marks.new ≡ with_mark marks.old port.now.dat_r }
{
    match port.dat_r {
        Some(x) => marks.replace(x.0, true),
        None => false,
    }
}

// Whether the first holds and the second doesn't.
fn and_not(first: bool, second: bool) -> bool
    ensures { result ≡ (first && not second) }
{
    first && !second
}

// Marks what ports show, and tells whether no two of them show one signal.
fn put_all(design: &Design, marks: &mut List<bool>) -> bool
    requires keeps { Keeps design.now }
    requires none { marks.old ≡ replicate (length design.now.signals) false }
    ensures apart { result ≡ are_apart design.now.ports }
    ensures marks { AreShown (length design.now.signals) design.now.ports marks.new }
{
    let mut apart = true;
    for port in design.ports.as_slice() {
        let was = put_shown(marks, port);
        apart = and_not(apart, was);
    }
    apart
}

// Whether something that is driven is marked.
fn some_marked(marks: &List<bool>, driven: &[Driven]) -> bool
    requires { (k : ℕ) (a : Driven) → slice_get driven.now k ≡ Some a → a.signal < length marks.now }
    ensures { result ≡ list_any (λ (a : Driven). slice_index_or marks.now a.signal false) driven.now }
{
    for one in driven {
        if *marks.at(one.signal) {
            return true;
        }
    }
    false
}

/// Whether each `dat_r` of a design is that of one port, and no statement drives it.
pub fn shows_alone(alloc: Global, design: &Design) -> Result<bool, NoMemory>
    requires { Keeps design.now }
    ensures exact { IfOk result (λ b. b ≡ shows_alone design.now) }
    ensures alone { IfOk result (λ b. b ≡ true → ShowAlone (circuit_of design.now)) }
{
    let mut marks = no_marks(alloc, design.signals.len())?;
    let apart = put_all(design, &mut marks);
    let mut net = comb_net(alloc, design)?;
    put_domains(alloc, design, &mut net)?;
    let driven = some_marked(&marks, net.driven.as_slice());
    Ok(and_not(apart, driven))
}
