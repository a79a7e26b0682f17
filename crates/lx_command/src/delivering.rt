//! Texts are stored and said, or what stopped them is told.

ghost use Rattle.std.specs.Prelude.{◌≡◌, ℕ, Option, List};
ghost use Rattle.lx_outside.specs.declared.calls.Pair.{Pair};
ghost use Rattle.lx_command.specs.Delivery.{Delivers, told, SaysText};
ghost use Rattle.lx_command.specs.Fetching.{IsReport};
ghost use Rattle.lx_command.specs.World.{SaysLine, world};

use crate::fetching::Stop;
use crate::lines::{Line, say_line, tell};
use crate::status::Status;
use crate::texts::Texts;
use lx_faults::fault_line;
use lx_outside::{Console, Sink};
use lx_text::NoMemory;
use std::alloc::Global;

/// Stores the files in their order, and then says the text where it isn't empty. The first failure ends the run.
pub fn deliver<K: Sink, C: Console, E: Console>(
    texts: &Texts,
    out: &mut K,
    con: &mut C,
    err: &mut E,
) -> Status
    ensures { (files later : Option (List Pair)) (before now : ℕ) → Delivers texts.now.files texts.now.text
        (world files before (K.stored out.old) (K.faults out.old) (C.said con.old) (C.faults con.old) (E.said err.old) (E.faults err.old))
        (world later now (K.stored out.new) (K.faults out.new) (C.said con.new) (C.faults con.new) (E.said err.new) (E.faults err.new)) result }
{
    for file in texts.files.as_slice() {
        match out.store(file.name.as_bytes(), file.bytes.as_slice()) {
            Ok(()) => {}
            Err(_) => {
                tell(err, Line::CannotWrite(file.name.as_bytes()));
                return Status::WriteFault;
            }
        }
    }
    say_text(texts.text.as_bytes(), con, err)
}

// Says a text where it isn't empty.
fn say_text<C: Console, E: Console>(text: &[u8], con: &mut C, err: &mut E) -> Status
    ensures { SaysText text.now (told (C.said con.old) (C.faults con.old) (E.said err.old) (E.faults err.old))
        (told (C.said con.new) (C.faults con.new) (E.said err.new) (E.faults err.new)) result }
{
    if text.is_empty() {
        return Status::Done;
    }
    match con.say(text) {
        Ok(()) => Status::Done,
        Err(_) => {
            tell(err, Line::CannotWrite(b"output"));
            Status::WriteFault
        }
    }
}

/// Tells on err what stopped a run.
pub fn report<E: Console>(alloc: Global, stop: &Stop<'_>, err: &mut E) -> Status
    ensures { (line : List ℕ) × IsReport stop.now result line × SaysLine (E.said err.old) (E.said err.new) (E.faults err.old) (E.faults err.new) line }
{
    match stop {
        Stop::Read(name) => {
            tell(err, Line::CannotRead(name));
            Status::ReadFault
        }
        Stop::Fault(file, fault) => match fault_line(alloc, file, fault) {
            Ok(line) => {
                say_line(err, line.as_bytes());
                Status::Refused
            }
            Err(NoMemory) => {
                tell(err, Line::NoMemory);
                Status::NoMemory
            }
        },
        Stop::NoMemory => {
            tell(err, Line::NoMemory);
            Status::NoMemory
        }
    }
}
