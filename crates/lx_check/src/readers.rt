//! The first port that each signal is read through.

ghost use Rattle.std.specs.Prelude.{◌≡◌, ◌<◌, length, replicate, IfOk, IfSome};
ghost use Rattle.lx_fhdl.specs.Keeping.{Keeps};
ghost use Rattle.lx_check.specs.Marks.{AreReaders, or_port, with_reader};

use lx_fhdl::{Design, Port};
use lx_text::NoMemory;
use std::alloc::Global;

// As many as the signals, none.
fn no_readers(alloc: Global, count: usize) -> Result<Vec<Option<Port>>, NoMemory>
    ensures { IfOk result (λ readers. readers.items ≡ replicate count None) }
{
    let mut readers = Vec::new(alloc);
    for _made in 0..count {
        readers.push(None)?;
    }
    Ok(readers)
}

// The port that was found, or else this one.
fn or_port(found: Option<Port>, port: Port) -> Option<Port>
    ensures { result ≡ or_port found port }
{
    match found {
        Some(first) => Some(first),
        None => Some(port),
    }
}

// Puts a port where its signal has none yet.
fn put_reader(readers: &mut [Option<Port>], port: Port)
    requires { IfSome port.dat_r (λ x. x.0 < length readers.old) }
    ensures { readers.new ≡ with_reader readers.old port }
{
    if let Some(x) = port.dat_r {
        readers[x.0] = or_port(readers[x.0], port);
    }
}

// Puts the ports of a design.
fn put_readers(design: &Design, readers: &mut [Option<Port>])
    requires keeps { Keeps design.now }
    requires none { readers.old ≡ replicate (length design.now.signals) None }
    ensures { AreReaders (length design.now.signals) design.now.ports readers.new }
{
    for port in design.ports.as_slice() {
        put_reader(readers, *port);
    }
}

/// The first port whose dat_r each signal is.
pub fn readers(alloc: Global, design: &Design) -> Result<Vec<Option<Port>>, NoMemory>
    requires { Keeps design.now }
    ensures { IfOk result (λ readers. AreReaders (length design.now.signals) design.now.ports readers.items) }
{
    let mut readers = no_readers(alloc, design.signals.len())?;
    put_readers(design, &mut readers);
    Ok(readers)
}
