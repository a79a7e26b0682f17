//! The names of objects.

ghost use Rattle.std.specs.Prelude.{◌≡◌, IfOk, option_copied, slice_get};
ghost use Rattle.lx_paths.specs.Paths.{bare, chosen_name, class_name, full_name, is_proper, kind_name, kind_of_register, kind_of_source, module_name, name_for, own_name, register_kind, source_kind, without_underscores};

use lx_description::{RegKind, SourceKind};
use lx_state::machine::{Class, Machine, Object, RegisterState, SourceState, What};
use lx_text::{List, NoMemory, Word};
use std::alloc::Global;

// The name of a class in lower case.
fn class_name(alloc: Global, class: Option<&Class>) -> Result<Word, NoMemory>
    ensures { IfOk result (λ name. name ≡ class_name (option_copied class.entry)) }
{
    match class {
        Some(class) => {
            let name = class.name.as_bytes().to_ascii_lowercase(alloc)?;
            Ok(Word::from_list(List::from_vec(name)))
        }
        None => Word::new(alloc, b"module"),
    }
}

fn module_name(machine: &Machine, alloc: Global, at: usize) -> Result<Word, NoMemory>
    ensures { IfOk result (λ name. name ≡ module_name machine.now (slice_get machine.now.modules at)) }
{
    match machine.modules.get(at) {
        Some(module) => class_name(alloc, machine.classes.get(module.class)),
        None => class_name(alloc, None),
    }
}

fn register_kind(kind: RegKind) -> &'static [u8]
    ensures { result.now ≡ register_kind kind }
{
    match kind {
        RegKind::Storage => b"csrstorage",
        RegKind::Status => b"csrstatus",
        RegKind::Raw | RegKind::Pending => b"csr",
    }
}

fn kind_of_register(register: Option<&RegisterState>) -> &'static [u8]
    ensures { result.now ≡ kind_of_register (option_copied register.entry) }
{
    match register {
        Some(register) => register_kind(register.decl.kind),
        None => b"csr",
    }
}

fn source_kind(kind: SourceKind) -> &'static [u8]
    ensures { result.now ≡ source_kind kind }
{
    match kind {
        SourceKind::Pulse => b"eventsourcepulse",
        SourceKind::Falling | SourceKind::Rising => b"eventsourceprocess",
        SourceKind::Level => b"eventsourcelevel",
    }
}

fn kind_of_source(source: Option<&SourceState>) -> &'static [u8]
    ensures { result.now ≡ kind_of_source (option_copied source.entry) }
{
    match source {
        Some(source) => source_kind(source.kind),
        None => b"eventsource",
    }
}

// The name of what has no other name.
fn kind_name(machine: &Machine, alloc: Global, what: What) -> Result<Word, NoMemory>
    ensures { IfOk result (λ name. name ≡ kind_name machine.now what) }
{
    match what {
        What::Signal(_) => Word::new(alloc, b"sig"),
        What::Module(at) => module_name(machine, alloc, at),
        What::ClockDomain(_) => Word::new(alloc, b"clockdomain"),
        What::MultiReg => Word::new(alloc, b"multireg"),
        What::Fsm(_) => Word::new(alloc, b"fsm"),
        What::Memory(_) => Word::new(alloc, b"mem"),
        What::Port(_) => Word::new(alloc, b"port"),
        What::Register(at) => Word::new(alloc, kind_of_register(machine.registers.get(at))),
        What::Field(_) => Word::new(alloc, b"csrfield"),
        What::Constant(_) => Word::new(alloc, b"csrconstant"),
        What::Manager(_) => Word::new(alloc, b"eventmanager"),
        What::Source(at) => Word::new(alloc, kind_of_source(machine.sources.get(at))),
        What::Region(_) => Word::new(alloc, b"socregion"),
        What::Interface(_) => Word::new(alloc, b"interface"),
    }
}

// The name that an object was given or bound to.
fn chosen_name(object: &Object) -> Option<&Word>
    ensures { option_copied result ≡ chosen_name object.now }
{
    if let Some(name) = &object.given {
        return Some(name);
    }
    match &object.by_attribute {
        Some(name) => Some(name),
        None => object.by_local.as_ref(),
    }
}

// The name of an object with all its underscores.
fn full_name(machine: &Machine, alloc: Global, object: &Object) -> Result<Word, NoMemory>
    ensures { IfOk result (λ name. name ≡ full_name machine.now object.now) }
{
    match chosen_name(object) {
        Some(name) => name.copied(alloc),
        None => kind_name(machine, alloc, object.what),
    }
}

// ---- names of registers

// What is left of a name without the underscores that it begins with.
#[tactic(auto, unfolding(crate::specs::Paths::bare))]
fn bare(name: &[u8]) -> &[u8]
    ensures { result.now ≡ bare name.now }
{
    for (place, byte) in name.iter().enumerate() {
        if *byte != b'_' {
            return &name[place..];
        }
    }
    &[]
}

// Whether it is neither empty nor begun by a digit.
fn is_proper(name: &[u8]) -> bool
    ensures { result ≡ is_proper name.now }
{
    match name {
        [first, ..] => !first.is_ascii_digit(),
        [] => false,
    }
}

// A name without the underscores that it begins with, where what is left is proper.
fn without_underscores(alloc: Global, name: Word) -> Result<Word, NoMemory>
    ensures { IfOk result (λ left. left ≡ without_underscores name) }
{
    let left = bare(name.as_bytes());
    if is_proper(left) {
        return Word::new(alloc, left);
    }
    Ok(name)
}

fn name_for(alloc: Global, what: What, name: Word) -> Result<Word, NoMemory>
    ensures { IfOk result (λ own. own ≡ name_for what name) }
{
    match what {
        What::Register(_) | What::Constant(_) => without_underscores(alloc, name),
        What::Signal(_) | What::Module(_) | What::ClockDomain(_) | What::MultiReg => Ok(name),
        What::Fsm(_) | What::Memory(_) | What::Port(_) => Ok(name),
        What::Field(_) | What::Manager(_) | What::Source(_) => Ok(name),
        What::Region(_) | What::Interface(_) => Ok(name),
    }
}

/// The name of an object: the one that it was given; else the first attribute that it was bound to; else the first
/// local name; else that of its kind. A register's goes without the underscores that it begins with, unless what is left
/// is empty or begins with a digit, and so does that of a constant that stands among registers.
pub fn own_name(machine: &Machine, alloc: Global, object: &Object) -> Result<Word, NoMemory>
    ensures { IfOk result (λ name. name ≡ own_name machine.now object.now) }
{
    let name = full_name(machine, alloc, object)?;
    name_for(alloc, object.what, name)
}
