//! The ports of a module (IEEE 1364-2005, "Modules").

ghost use Rattle.std.specs.Prelude.{◌≡◌, ◌++◌, ◌<◌, true, false, length, map, IfOk, IfSome, OnOk};
ghost use Rattle.lx_vtree.specs.Modules.{port_of};
ghost use Rattle.lx_emission.specs.Naming.{clock_name};
ghost use Rattle.lx_emission.specs.Emission.{domain_ports, is_input_drive, ports_of, signal_port, wire};
ghost use Rattle.lx_sheet.specs.Drives.{drive_of};
ghost use Rattle.lx_nets.specs.Plans.{domain_ports_in, ios_in};

use crate::nets::{signal_net, wire};
use lx_fhdl::Domain;
use lx_num::Shape;
use lx_sheet::names::clock_name;
use lx_sheet::{Drive, Sheet, SignalOf};
use lx_text::{List, NoMemory};
use lx_vtree::Port;
use std::alloc::Global;

// Whether a signal is an input.
fn is_input(drive: &Drive) -> bool
    ensures { result ≡ is_input_drive (drive_of drive.now) }
{
    match drive {
        Drive::Input => true,
        Drive::Undriven | Drive::CombAssign(_) | Drive::CombBlock(_) | Drive::Sync { .. } => false,
    }
}

// The port of a signal: an input where nothing in the design drives it.
fn signal_port(alloc: Global, x: SignalOf) -> Result<Port, NoMemory>
    ensures { IfOk result (λ port. port_of port ≡ signal_port x.entry.sheet.now.design x.entry.sheet.now.names x.entry.id.0) }
{
    let net = signal_net(alloc, x)?;
    Ok(Port {
        is_input: is_input(x.drive()),
        net,
    })
}

// The port of a domain's clock.
fn clock_port(alloc: Global, domain: &Domain) -> Result<Port, NoMemory>
    ensures { IfOk result (λ port. port_of port ≡ record { is_input = true; net = wire false 1 (clock_name domain.now.name) }) }
{
    let bit = Shape {
        bits: 1,
        signed: false,
    };
    let name = clock_name(alloc, domain)?;
    Ok(Port {
        is_input: true,
        net: wire(bit, name),
    })
}

// Adds the ports of a domain: its clock, and its reset where it has one.
fn put_domain(
    alloc: Global,
    sheet: &Sheet,
    ports: &mut List<Port>,
    domain: &Domain,
) -> Result<(), NoMemory>
    requires { IfSome domain.now.reset (λ r. r.0 < length sheet.now.design.signals) }
    ensures { OnOk result (map port_of ports.new ≡ map port_of ports.old ++ domain_ports_in sheet.now domain.now) }
{
    ports.push(clock_port(alloc, domain)?)?;
    if let Some(reset) = domain.reset {
        ports.push(signal_port(alloc, SignalOf::new(&*sheet, reset))?)?;
    }
    Ok(())
}

// Adds the ports of all domains.
fn put_domains(alloc: Global, sheet: &Sheet, ports: &mut List<Port>) -> Result<(), NoMemory>
    ensures { OnOk result (map port_of ports.new ≡ map port_of ports.old ++ domain_ports sheet.now.design sheet.now.names 0 sheet.now.design.domains) }
{
    for domain in sheet.design.domains.as_slice() {
        put_domain(alloc, sheet, ports, domain)?;
    }
    Ok(())
}

// Adds the ports that a design names.
fn put_ios(alloc: Global, sheet: &Sheet, ports: &mut List<Port>) -> Result<(), NoMemory>
    ensures { OnOk result (map port_of ports.new ≡ map port_of ports.old ++ ios_in sheet.now) }
{
    for x in sheet.design.ios.as_slice() {
        let port = signal_port(alloc, SignalOf::new(&*sheet, *x))?;
        ports.push(port)?;
    }
    Ok(())
}

/// The ports of a module: each domain's clock and reset, and then those that the design names.
#[tactic(auto, unfolding(lx_emission::specs::Emission::ports_of))]
pub fn ports(alloc: Global, sheet: &Sheet) -> Result<List<Port>, NoMemory>
    ensures { IfOk result (λ list. map port_of list ≡ ports_of sheet.now.design sheet.now.names) }
{
    let mut ports = List::new(alloc);
    put_domains(alloc, sheet, &mut ports)?;
    put_ios(alloc, sheet, &mut ports)?;
    Ok(ports)
}
