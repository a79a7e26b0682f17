//! The signals that have a place in a description, and whether each has one alone.

ghost use Rattle.std.specs.Prelude.{◌≡◌, ◌++◌, false, flat_map, length, map, replicate, slice_set, true, IfOk, OnOk};
ghost use Rattle.lx_description.specs.Wires as wires;
ghost use Rattle.lx_description.specs.declared.fsms.Asked.{Asked};
ghost use Rattle.lx_description.specs.declared.modules.ModuleDecl.{ModuleDecl};
ghost use Rattle.lx_description.specs.declared.registers.SourceDecl.{SourceDecl};
ghost use Rattle.lx_description.specs.declared.slaves.SlaveDecl.{SlaveDecl};
ghost use Rattle.lx_parts_kept.specs.Parts as parts;
ghost use Rattle.lx_parts_kept.specs.Tables.{can_mark};

use lx_description::{
    Asked, Description, FsmDecl, ManagerDecl, ModuleDecl, Part, SlaveDecl, SlaveKind, SourceDecl,
};
use lx_fhdl::{Domain, Port, SigId};
use lx_text::{List, NoMemory};
use std::alloc::Global;

fn add_signals(all: &mut List<usize>, signals: &[SigId]) -> Result<(), NoMemory>
    ensures { OnOk result (all.new ≡ all.old ++ wires.numbers signals.now) }
{
    for x in signals {
        all.push(x.0)?;
    }
    Ok(())
}

fn add_some(all: &mut List<usize>, signal: Option<SigId>) -> Result<(), NoMemory>
    ensures { OnOk result (all.new ≡ all.old ++ wires.some_number signal) }
{
    match signal {
        Some(x) => all.push(x.0),
        None => Ok(()),
    }
}

// ---- modules

fn add_sources(all: &mut List<usize>, sources: &[SourceDecl]) -> Result<(), NoMemory>
    ensures { OnOk result (all.new ≡ all.old ++ flat_map (λ (s : SourceDecl). wires.numbers s.signals) sources.now) }
{
    for source in sources {
        add_signals(all, source.signals.as_slice())?;
    }
    Ok(())
}

fn add_manager(all: &mut List<usize>, manager: &ManagerDecl) -> Result<(), NoMemory>
    ensures { OnOk result (all.new ≡ all.old ++ wires.manager_signals manager.now) }
{
    add_sources(all, manager.sources.as_slice())?;
    all.push(manager.irq.0)?;
    all.push(manager.enable.0)
}

fn add_part(all: &mut List<usize>, part: &Part) -> Result<(), NoMemory>
    ensures { OnOk result (all.new ≡ all.old ++ wires.part_signals part.now) }
{
    match part {
        Part::Reg(register) => add_signals(all, register.signals.as_slice()),
        Part::Manager(_, manager) => add_manager(all, manager),
        Part::Constant(_) | Part::Module(_) => Ok(()),
    }
}

fn add_parts(all: &mut List<usize>, parts: &[Part]) -> Result<(), NoMemory>
    ensures { OnOk result (all.new ≡ all.old ++ flat_map wires.part_signals parts.now) }
{
    for part in parts {
        add_part(all, part)?;
    }
    Ok(())
}

fn add_modules(all: &mut List<usize>, modules: &[ModuleDecl]) -> Result<(), NoMemory>
    ensures { OnOk result (all.new ≡ all.old ++ flat_map (λ (m : ModuleDecl). flat_map wires.part_signals m.parts) modules.now) }
{
    for module in modules {
        add_parts(all, module.parts.as_slice())?;
    }
    Ok(())
}

// ---- slaves and FSMs

fn add_slave(all: &mut List<usize>, kind: &SlaveKind) -> Result<(), NoMemory>
    ensures { OnOk result (all.new ≡ all.old ++ wires.slave_signals kind.now) }
{
    match kind {
        SlaveKind::User(signals) => add_signals(all, signals.as_slice()),
        SlaveKind::Ram(_) | SlaveKind::Rom(_) => Ok(()),
    }
}

fn add_slaves(all: &mut List<usize>, slaves: &[SlaveDecl]) -> Result<(), NoMemory>
    ensures { OnOk result (all.new ≡ all.old ++ flat_map (λ (s : SlaveDecl). wires.slave_signals s.kind) slaves.now) }
{
    for slave in slaves {
        add_slave(all, &slave.kind)?;
    }
    Ok(())
}

fn add_asked(all: &mut List<usize>, asked: &[Asked]) -> Result<(), NoMemory>
    ensures { OnOk result (all.new ≡ all.old ++ map (λ (a : Asked). a.signal.0) asked.now) }
{
    for one in asked {
        all.push(one.signal.0)?;
    }
    Ok(())
}

fn add_fsm(all: &mut List<usize>, fsm: &FsmDecl) -> Result<(), NoMemory>
    ensures { OnOk result (all.new ≡ all.old ++ wires.fsm_signals fsm.now) }
{
    all.push(fsm.state.0)?;
    add_asked(all, fsm.asked.as_slice())
}

fn add_fsms(all: &mut List<usize>, fsms: &[FsmDecl]) -> Result<(), NoMemory>
    ensures { OnOk result (all.new ≡ all.old ++ flat_map wires.fsm_signals fsms.now) }
{
    for fsm in fsms {
        add_fsm(all, fsm)?;
    }
    Ok(())
}

// ---- the design

fn add_port(all: &mut List<usize>, port: &Port) -> Result<(), NoMemory>
    ensures { OnOk result (all.new ≡ all.old ++ wires.port_signals port.now) }
{
    all.push(port.adr.0)?;
    add_some(all, port.dat_r)?;
    add_some(all, port.dat_w)?;
    add_some(all, port.we)
}

fn add_ports(all: &mut List<usize>, ports: &[Port]) -> Result<(), NoMemory>
    ensures { OnOk result (all.new ≡ all.old ++ flat_map wires.port_signals ports.now) }
{
    for port in ports {
        add_port(all, port)?;
    }
    Ok(())
}

fn add_resets(all: &mut List<usize>, domains: &[Domain]) -> Result<(), NoMemory>
    ensures { OnOk result (all.new ≡ all.old ++ wires.resets domains.now) }
{
    for domain in domains {
        add_some(all, domain.reset)?;
    }
    Ok(())
}

fn add_bus(all: &mut List<usize>, soc: bool) -> Result<(), NoMemory>
    ensures { OnOk result (all.new ≡ all.old ++ wires.bus_signals soc) }
{
    if soc {
        add_signals(
            all,
            &[
                SigId(0),
                SigId(1),
                SigId(2),
                SigId(3),
                SigId(4),
                SigId(5),
                SigId(6),
                SigId(7),
                SigId(8),
                SigId(9),
            ],
        )?;
    }
    Ok(())
}

// ---- all of them

// The signals of registers, event managers, slaves and FSMs.
fn add_declared(all: &mut List<usize>, description: &Description) -> Result<(), NoMemory>
    ensures { OnOk result (all.new ≡ all.old ++ wires.declared description.now) }
{
    add_modules(all, description.modules.as_slice())?;
    add_slaves(all, description.slaves.as_slice())?;
    add_fsms(all, description.fsms.as_slice())
}

// All signals that have a place.
fn placed(alloc: Global, description: &Description) -> Result<List<usize>, NoMemory>
    ensures { IfOk result (λ all. all ≡ wires.placed description.now) }
{
    let mut all = List::new(alloc);
    add_declared(&mut all, description)?;
    add_ports(&mut all, description.design.ports.as_slice())?;
    add_bus(&mut all, description.soc)?;
    add_resets(&mut all, description.design.domains.as_slice())?;
    Ok(all)
}

// Marks a number that is there and isn't marked; else nothing is marked.
fn mark(marks: &mut [bool], number: usize) -> bool
    ensures marked { result ≡ can_mark marks.old number }
    ensures marks { result ≡ true → marks.new ≡ slice_set marks.old number true }
{
    if number >= marks.len() || marks[number] {
        return false;
    }
    marks[number] = true;
    true
}

// Marks all these numbers, if each is there and none stands twice.
fn mark_all(marks: &mut [bool], numbers: &[usize]) -> bool
    requires none { marks.old ≡ replicate (length marks.old) false }
    ensures { result ≡ parts.are_places (length marks.old) numbers.now }
{
    for number in numbers {
        if !mark(marks, *number) {
            return false;
        }
    }
    true
}

// Whether each of these numbers is below the count, and none stands twice.
fn are_places(alloc: Global, count: usize, numbers: &[usize]) -> Result<bool, NoMemory>
    ensures { IfOk result (λ are. are ≡ parts.are_places count numbers.now) }
{
    let mut marks = vec![in alloc; false; count]?;
    let are = mark_all(&mut marks, numbers);
    Ok(are)
}

/// Whether each signal that has a place is there, and has no other.
pub(crate) fn are_apart(alloc: Global, description: &Description) -> Result<bool, NoMemory>
    ensures { IfOk result (λ are. are ≡ parts.are_places (length description.now.design.signals) (wires.placed description.now)) }
{
    let all = placed(alloc, description)?;
    are_places(alloc, description.design.signals.len(), all.as_slice())
}
