//! Reading the tree of a description's tokens.

ghost use Rattle.std.specs.Prelude.{◌≢◌, ◌<◌, []};
ghost use Rattle.lx_pytree.specs.Reading.{IsAtToken, ReadsText, Runs};

use crate::machine::{Machine, Stop, Turn};
use crate::tree::Tree;
use lx_grammar::{Item, signed};
use lx_text::{Fault, Kind, List, NoMemory, Refusal};
use lx_token::Token;
use std::alloc::Global;

/// The syntax tree of a description's tokens, which the grammar derives from the whole list; or Syntax, where there
/// is none, with the number and line of a token.
pub fn read(alloc: Global, src: &[u8], tokens: &List<Token>) -> Result<Tree, Refusal>
    ensures { ReadsText src.now tokens.now result }
{
    let Ok(items) = signed(alloc, src, tokens.as_slice()) else {
        return Err(Refusal::NoMemory);
    };
    match run(alloc, items.as_slice()) {
        Ok(tree) => Ok(tree),
        Err(Stop::Wrong(at)) => Err(Refusal::Fault(refused(tokens.as_slice(), at))),
        Err(Stop::NoMemory) => Err(Refusal::NoMemory),
    }
}

// Does one step after the other.
fn run(alloc: Global, items: &[Item]) -> Result<Tree, Stop>
    ensures { Runs items.now result }
{
    let mut machine = match Machine::new(alloc) {
        Ok(machine) => machine,
        Err(NoMemory) => return Err(Stop::NoMemory),
    };
    'steps: loop {
        match machine.step(items) {
            Err(stop) => return Err(stop),
            Ok(Turn::On) => {}
            Ok(Turn::Done(root)) => {
                return Ok(Tree {
                    nodes: machine.nodes,
                    root,
                });
            }
        }
    }
}

// The number that tells a place: its own, or that of the last token where there is none.
fn shown(length: usize, at: usize) -> u32
    ensures { 0 < length → result < length }
{
    let place = at.min(length.saturating_sub(1));
    if place < 4_294_967_296 {
        place as u32
    } else {
        0
    }
}

// The fault at a place.
fn refused(tokens: &[Token], at: usize) -> Fault
    ensures { tokens.now ≢ [] → IsAtToken tokens.now result }
{
    let number = shown(tokens.len(), at);
    match tokens.get(number as usize) {
        Some(token) => Fault {
            line: token.line,
            kind: Kind::Syntax(number),
        },
        None => Fault {
            line: 0,
            kind: Kind::Syntax(0),
        },
    }
}
