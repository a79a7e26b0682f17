//! The reader's state: nodes that are open, and what is to be read before each of them closes. It is a list of its
//! own and no recursion, so that no text takes more of the native stack than another.

ghost use Rattle.std.specs.Prelude.{◌≡◌, ◌++◌, ◌∷◌, [], reverse, map, drop, IfOk, OnOk, true, false};
ghost use Rattle.lx_grammar.specs.Derives.{takes};
ghost use Rattle.lx_grammar.specs.Numbers.{number};
ghost use Rattle.lx_pytree.specs.Machine.{IsRowAt, IsSound, IsStart, Turns};
ghost use Rattle.lx_pytree.specs.declared.machine.Step.TheVariants.{Do, Close};
ghost use Rattle.lx_grammar.specs.declared.grammar.Symbol.TheVariants.{Token, Node, One, Maybe, Many};

use crate::tree::{PyNode, PyNodes, PyPart, closed};
use lx_arena::{Arena, Id};
use lx_grammar::{Item, Sign, Spot, Symbol, number_of, production, rule_of, view_of};
use lx_text::{List, NoMemory};
use std::alloc::Global;
use std::mem::replace;

// What is to be done: to read a symbol, or to close the innermost open node.
#[derive(Clone, Copy)]
pub enum Step {
    Do(Symbol),
    Close,
}

// A node that is not yet whole.
#[derive(Drop)]
pub struct Open {
    pub spot: Spot,
    pub parts: List<PyPart>,
}

// Why no tree was read: at this place no token fits; or memory ran out.
#[derive(Drop)]
pub enum Stop {
    Wrong(usize),
    NoMemory,
}

// What a step gives: reading goes on, or the tree is whole.
pub enum Turn {
    On,
    Done(Id<PyNodes>),
}

// The reader's state. The next step is the last of `pending`.
#[derive(Drop)]
pub struct Machine {
    pub alloc: Global,
    pub nodes: Arena<PyNode>,
    pub pending: Vec<Step>,
    pub opens: Vec<Open>,
    pub current: Open,
    pub at: usize,
}

// Whether a token may stand for a sign of the grammar.
#[tactic(auto, unfolding(lx_grammar::specs::Derives::takes))]
fn stands_for(wanted: Sign, given: Sign) -> bool
    ensures { result ≡ takes (number wanted) (number given) }
{
    let wanted = number_of(wanted);
    let given = number_of(given);
    wanted == given || wanted == 0 && given < 3
}

// Puts a row on top of the steps.
fn push_row(pending: &mut Vec<Step>, row: &[Symbol]) -> Result<(), Stop>
    ensures { OnOk result (reverse pending.new.items ≡ map Do row.now ++ reverse pending.old.items) }
{
    let mut left = row.len();
    while left > 0 {
        left -= 1;
        let Ok(()) = pending.push(Step::Do(row[left])) else {
            return Err(Stop::NoMemory);
        };
    }
    Ok(())
}

impl Machine {
    // Nothing is read, and a file is to be.
    pub fn new(alloc: Global) -> Result<Machine, NoMemory>
        ensures { IfOk result IsStart }
    {
        let mut pending = Vec::new(alloc);
        let Ok(()) = pending.push(Step::Do(Symbol::Node(Spot::File))) else {
            return Err(NoMemory);
        };
        Ok(Machine {
            alloc,
            nodes: Arena::new(alloc),
            pending,
            opens: Vec::new(alloc),
            current: Open {
                spot: Spot::File,
                parts: List::new(alloc),
            },
            at: 0,
        })
    }

    // Does the next step.
    pub fn step(&mut self, items: &[Item]) -> Result<Turn, Stop>
        requires { IsSound self.old }
        ensures { Turns items.now self.old (reverse self.old.pending.items) self.new result }
    {
        let Some(top) = self.pending.pop() else {
            return self.close(items);
        };
        match top {
            Step::Close => self.close(items),
            Step::Do(symbol) => self.go_on(items, symbol),
        }
    }

    // Reads a symbol.
    fn go_on(&mut self, items: &[Item], symbol: Symbol) -> Result<Turn, Stop>
        requires { IsSound self.old }
        ensures { Turns items.now self.old (Do symbol ∷ reverse self.old.pending.items) self.new result }
    {
        match symbol {
            Symbol::Token(wanted) => self.take(items, wanted),
            Symbol::Node(spot) => self.open(items, spot),
            Symbol::One(spot) => self.inline(items, spot),
            Symbol::Maybe(spot) => self.choose(items, spot),
            Symbol::Many(spot) => self.repeat(items, spot),
        }
    }

    // Takes a token.
    fn take(&mut self, items: &[Item], wanted: Sign) -> Result<Turn, Stop>
        requires { IsSound self.old }
        ensures { Turns items.now self.old (Do (Token wanted) ∷ reverse self.old.pending.items) self.new result }
    {
        if self.at >= items.len() {
            return Err(Stop::Wrong(self.at));
        }
        let item = items[self.at];
        if !stands_for(wanted, item.sign) {
            return Err(Stop::Wrong(self.at));
        }
        let Ok(()) = self.current.parts.push(PyPart::Token(item.token)) else {
            return Err(Stop::NoMemory);
        };
        self.at += 1;
        Ok(Turn::On)
    }

    // Opens a node.
    fn open(&mut self, items: &[Item], spot: Spot) -> Result<Turn, Stop>
        requires { IsSound self.old }
        ensures { Turns items.now self.old (Do (Node spot) ∷ reverse self.old.pending.items) self.new result }
    {
        let Some(row) = self.row(items, spot) else {
            return Err(Stop::Wrong(self.at));
        };
        let inner = Open {
            spot,
            parts: List::new(self.alloc),
        };
        let outer = replace(&mut self.current, inner);
        let Ok(()) = self.opens.push(outer) else {
            return Err(Stop::NoMemory);
        };
        let Ok(()) = self.pending.push(Step::Close) else {
            return Err(Stop::NoMemory);
        };
        let Ok(()) = push_row(&mut self.pending, row) else {
            return Err(Stop::NoMemory);
        };
        Ok(Turn::On)
    }

    // Reads a group once.
    fn inline(&mut self, items: &[Item], spot: Spot) -> Result<Turn, Stop>
        requires { IsSound self.old }
        ensures { Turns items.now self.old (Do (One spot) ∷ reverse self.old.pending.items) self.new result }
    {
        let Some(row) = self.row(items, spot) else {
            return Err(Stop::Wrong(self.at));
        };
        let Ok(()) = push_row(&mut self.pending, row) else {
            return Err(Stop::NoMemory);
        };
        Ok(Turn::On)
    }

    // Reads a group, or passes it by.
    fn choose(&mut self, items: &[Item], spot: Spot) -> Result<Turn, Stop>
        requires { IsSound self.old }
        ensures { Turns items.now self.old (Do (Maybe spot) ∷ reverse self.old.pending.items) self.new result }
    {
        let Some(row) = self.row(items, spot) else {
            return Ok(Turn::On);
        };
        let Ok(()) = push_row(&mut self.pending, row) else {
            return Err(Stop::NoMemory);
        };
        Ok(Turn::On)
    }

    // Reads a group and comes back to it, or passes it by.
    fn repeat(&mut self, items: &[Item], spot: Spot) -> Result<Turn, Stop>
        requires { IsSound self.old }
        ensures { Turns items.now self.old (Do (Many spot) ∷ reverse self.old.pending.items) self.new result }
    {
        let Some(row) = self.row(items, spot) else {
            return Ok(Turn::On);
        };
        let Ok(()) = self.pending.push(Step::Do(Symbol::Many(spot))) else {
            return Err(Stop::NoMemory);
        };
        let Ok(()) = push_row(&mut self.pending, row) else {
            return Err(Stop::NoMemory);
        };
        Ok(Turn::On)
    }

    // Closes the innermost open node.
    fn close(&mut self, items: &[Item]) -> Result<Turn, Stop>
        requires { IsSound self.old }
        ensures top { Turns items.now self.old (Close ∷ reverse self.old.pending.items) self.new result }
        ensures end { self.old.pending.items ≡ [] → Turns items.now self.old [] self.new result }
    {
        let outer = self.opens.pop();
        match outer {
            None => {
                if self.at < items.len() {
                    return Err(Stop::Wrong(self.at));
                }
                let parts = replace(&mut self.current.parts, List::new(self.alloc));
                let Ok(id) = closed(&mut self.nodes, rule_of(self.current.spot), parts) else {
                    return Err(Stop::NoMemory);
                };
                Ok(Turn::Done(id))
            }
            Some(outer) => {
                let inner = replace(&mut self.current, outer);
                let Ok(id) = closed(&mut self.nodes, rule_of(inner.spot), inner.parts) else {
                    return Err(Stop::NoMemory);
                };
                let Ok(()) = self.current.parts.push(PyPart::Node(id)) else {
                    return Err(Stop::NoMemory);
                };
                Ok(Turn::On)
            }
        }
    }

    // The row of a spot that is picked here.
    fn row(&self, items: &[Item], spot: Spot) -> Option<&'static [Symbol]>
        ensures { IsRowAt items.now self.now spot result }
    {
        production(spot, view_of(spot, rest_of(items, self.at)))
    }
}

// The tokens from a place on.
fn rest_of(items: &[Item], at: usize) -> &[Item]
    ensures { result.now ≡ drop at items.now }
{
    if at < items.len() {
        &items[at..]
    } else {
        &items[items.len()..]
    }
}
