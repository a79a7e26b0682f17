//! The fixed lines on err. They are said in pieces, and take no memory.

ghost use Rattle.std.specs.Prelude.{◌≡◌, ◌++◌};
ghost use Rattle.lx_command.specs.Lines.{fixed_line};
ghost use Rattle.lx_command.specs.World.{SaysLine};

use lx_outside::Console;

/// A line on err that tells no fault of a description.
#[derive(Clone, Copy)]
pub enum Line<'a> {
    /// The words are no command.
    Usage,
    /// The file of this name couldn't be read, or there is none.
    CannotRead(&'a [u8]),
    /// The file of this name couldn't be stored, or `output` couldn't be said.
    CannotWrite(&'a [u8]),
    NoMemory,
}

/// Says a fixed line, or a prefix of it where saying it fails. A failure is not told: there is no other place to tell it.
pub fn tell<E: Console>(err: &mut E, line: Line<'_>)
    ensures { SaysLine (E.said err.old) (E.said err.new) (E.faults err.old) (E.faults err.new) (fixed_line line.entry) }
{
    match line {
        Line::Usage => say_line(
            err,
            b"usage: lxb build SRC | map SRC | sim SRC TRACE | poke SRC SCRIPT | gen N\n",
        ),
        Line::CannotRead(name) => say_pieces(err, name, b": cannot read\n"),
        Line::CannotWrite(name) => say_three(err, b"cannot write ", name, b"\n"),
        Line::NoMemory => say_line(err, b"no memory\n"),
    }
}

// Says a line.
pub(crate) fn say_line<E: Console>(err: &mut E, line: &[u8])
    ensures { SaysLine (E.said err.old) (E.said err.new) (E.faults err.old) (E.faults err.new) line.now }
{
    match err.say(line) {
        Ok(()) => {}
        Err(_) => {}
    }
}

// Says a line in two pieces, the second only where the first was said.
fn say_pieces<E: Console>(err: &mut E, first: &[u8], second: &[u8])
    ensures { SaysLine (E.said err.old) (E.said err.new) (E.faults err.old) (E.faults err.new) (first.now ++ second.now) }
{
    match err.say(first) {
        Ok(()) => say_line(err, second),
        Err(_) => {}
    }
}

// Says a line in three pieces, each only where the one before was said.
fn say_three<E: Console>(err: &mut E, first: &[u8], second: &[u8], third: &[u8])
    ensures { SaysLine (E.said err.old) (E.said err.new) (E.faults err.old) (E.faults err.new) (first.now ++ (second.now ++ third.now)) }
{
    match err.say(first) {
        Ok(()) => say_pieces(err, second, third),
        Err(_) => {}
    }
}
