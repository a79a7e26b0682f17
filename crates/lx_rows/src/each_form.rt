//! A design with statements and targets of each form: all statements stand in the domain `sys`, but those of y, which read
//! nothing.

ghost use Rattle.std.specs.Prelude.{◌≡◌, ◌∷◌, [], map, IfOk};
ghost use Rattle.lx_fhdl.specs.Instance as instance;
ghost use Rattle.lx_rows.specs.Forms as form;

use crate::nodes::the_stmts;
use crate::parts::{forms_exprs, forms_stmts, forms_targets};
use lx_fhdl::{Design, Domain, Exprs, SigId, Signal, Stmts, SyncPart, Targets};
use lx_num::Shape;
use lx_text::{List, NoMemory, Word};
use std::alloc::Global;

/// A signal: the letter that is its name, its bits, and its reset value.
#[derive(Clone, Copy)]
pub struct Letter {
    pub name: u8,
    pub bits: u8,
    pub reset: u8,
}

/// An unsigned signal.
pub fn unsigned(alloc: Global, name: &[u8], bits: u8, reset: u8) -> Result<Signal, NoMemory>
    ensures { IfOk result (λ signal. signal ≡ instance.signal_of name.now bits reset) }
{
    let word = Word::new(alloc, name)?;
    Ok(Signal {
        path: List::of_one(alloc, word)?,
        shape: Shape {
            bits,
            signed: false,
        },
        reset: reset as i128,
        reset_less: false,
        by_bus: false,
        line: 0,
    })
}

// The signals of letters.
fn signals(alloc: Global, rows: &[Letter]) -> Result<List<Signal>, NoMemory>
    ensures { IfOk result (λ signals. signals ≡ map (λ row. instance.signal_of (row.name ∷ []) row.bits row.reset) rows.now) }
{
    let mut signals = List::new(alloc);
    for row in rows {
        let signal = unsigned(alloc, &[row.name], row.bits, row.reset)?;
        signals.push(signal)?;
    }
    Ok(signals)
}

fn row(name: u8, bits: u8, reset: u8) -> Letter
    ensures { result ≡ record { name = name; bits = bits; reset = reset } }
{
    Letter { name, bits, reset }
}

#[tactic(auto, unfolding(crate::specs::Forms::forms_signals))]
fn forms_signals(alloc: Global) -> Result<List<Signal>, NoMemory>
    ensures { IfOk result (λ signals. signals ≡ form.forms_signals) }
{
    let mut signals = signals(
        alloc,
        &[
            row(b'a', 2, 0),
            row(b'b', 4, 0),
            row(b'p', 4, 1),
            row(b'q', 4, 0),
            row(b'r', 2, 0),
            row(b's', 3, 0),
            row(b'u', 4, 0),
            row(b'v', 4, 0),
            row(b'w', 4, 0),
            row(b'y', 3, 0),
        ],
    )?;
    let reset = unsigned(alloc, b"sys_rst", 1, 0)?;
    signals.push(reset)?;
    Ok(signals)
}

// The names of one letter.
fn letters(alloc: Global, names: &[u8]) -> Result<List<Word>, NoMemory>
    ensures { IfOk result (λ words. words ≡ map (λ name. name ∷ []) names.now) }
{
    let mut words = List::new(alloc);
    for name in names {
        let word = Word::new(alloc, &[*name])?;
        words.push(word)?;
    }
    Ok(words)
}

/// The names of the signals.
pub fn forms_names(alloc: Global) -> Result<List<Word>, NoMemory>
    ensures { IfOk result (λ names. names ≡ form.forms_names) }
{
    let mut names = letters(alloc, b"abpqrsuvwy")?;
    let reset = Word::new(alloc, b"sys_rst")?;
    names.push(reset)?;
    Ok(names)
}

// Signals by their numbers.
fn the_signals(alloc: Global, numbers: &[usize]) -> Result<List<SigId>, NoMemory>
    ensures { IfOk result (λ ids. ids ≡ map instance.the_signal numbers.now) }
{
    let mut ids = List::new(alloc);
    for number in numbers {
        ids.push(SigId(*number))?;
    }
    Ok(ids)
}

fn forms_sync(alloc: Global) -> Result<List<SyncPart>, NoMemory>
    ensures { IfOk result (λ parts. parts ≡ form.clocked ∷ []) }
{
    let stmts = the_stmts(alloc, &[4, 10, 11, 12, 13])?;
    List::of_one(alloc, SyncPart { domain: 0, stmts })
}

fn forms_domains(alloc: Global) -> Result<List<Domain>, NoMemory>
    ensures { IfOk result (λ domains. domains ≡ form.sys ∷ []) }
{
    let name = Word::new(alloc, b"sys")?;
    let reset = Some(SigId(10));
    List::of_one(alloc, Domain { name, reset })
}

// The design of these nodes and signals.
fn of_parts(
    alloc: Global,
    exprs: Exprs,
    targets: Targets,
    stmts: Stmts,
    signals: List<Signal>,
) -> Result<Design, NoMemory>
    ensures { IfOk result (λ design. design ≡ form.of_parts exprs targets stmts signals) }
{
    let comb = the_stmts(alloc, &[14, 15])?;
    let sync = forms_sync(alloc)?;
    let domains = forms_domains(alloc)?;
    let ios = the_signals(alloc, &[0, 1, 2, 3, 4, 5, 6, 7, 8, 9])?;
    Ok(Design {
        exprs,
        targets,
        stmts,
        signals,
        comb,
        sync,
        domains,
        memories: List::new(alloc),
        ports: List::new(alloc),
        ios,
    })
}

/// The design.
#[tactic(auto, unfolding(crate::specs::Forms::forms))]
pub fn forms(alloc: Global) -> Result<Design, NoMemory>
    ensures { IfOk result (λ design. design ≡ form.forms) }
{
    let exprs = forms_exprs(alloc)?;
    let targets = forms_targets(alloc)?;
    let stmts = forms_stmts(alloc)?;
    let signals = forms_signals(alloc)?;
    of_parts(alloc, exprs, targets, stmts, signals)
}
