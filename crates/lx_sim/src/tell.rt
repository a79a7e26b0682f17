//! The answers of a trace.

ghost use Rattle.std.specs.Prelude.{◌≡◌, ◌+◌, ◌<◌, ◌≤◌, ◌++◌, ◌^◌, [], length, IfOk, OnOk};
ghost use Rattle.lx_sim.specs.Moments.{Moment, Shows};
ghost use Rattle.lx_sim.specs.Said.{AreNamed, IsNamed, Says, TellsLine, answer, run_for};
ghost use Rattle.lx_trace.specs.Laws.{AreLines, IsLine};
ghost use Rattle.lx_trace.specs.Traces.{steps_of};

use crate::simulator::Simulator;
use lx_fhdl::Steps;
use lx_text::{List, NoMemory, Text, Word};
use lx_trace::{Event, TraceAct, TraceLine};
use std::alloc::Global;
use std::sync::ledger::Ledger;

// Tells the value of a signal after so many steps.
fn tell(text: &mut Text, steps: u128, name: &[u8], value: i128) -> Result<(), NoMemory>
    ensures { OnOk result (text.new ≡ text.old ++ answer steps name.now value) }
{
    text.count(steps)?;
    text.word(b" ")?;
    text.word(name)?;
    text.word(b" ")?;
    text.dec(value)?;
    text.word(b"\n")?;
    Ok(())
}

// So many steps with one event.
fn run_for<L: Ledger>(simulator: &mut Simulator<'_>, count: u32, event: Event, steps: &mut Steps<L>)
    ensures design { simulator.new.design ≡ simulator.old.design }
    ensures shows { (m : Moment) → Shows simulator.old m → Shows simulator.new (run_for m count event.rises) }
{
    for made in 0..count {
        simulator.step(&event, steps);
    }
}

// The text so far, and the steps so far.
#[derive(Drop)]
struct Telling {
    text: Text,
    steps: u128,
}

// Does what a line says.
fn tell_line<L: Ledger>(
    simulator: &mut Simulator<'_>,
    names: &List<Word>,
    line: &TraceLine,
    telling: &mut Telling,
    steps: &mut Steps<L>,
) -> Result<(), NoMemory>
    requires line { IsLine simulator.old.design line.now }
    requires named { IsNamed (length names.now) line.now.act }
    requires steps { telling.old.steps + 4294967296 < 2 ^ 128 }
    ensures design { simulator.new.design ≡ simulator.old.design }
    ensures count { telling.new.steps ≡ telling.old.steps + steps_of line.now.act }
    ensures few { telling.new.steps ≤ telling.old.steps + 4294967295 }
    ensures tells { OnOk result (TellsLine names.now line.now.act simulator.old simulator.new telling.old telling.new) }
{
    match line.act {
        TraceAct::Set(x, value) => {
            simulator.set(x, value, steps);
            Ok(())
        }
        TraceAct::Run(count, event) => {
            run_for(simulator, count, event, steps);
            telling.steps += count as u128;
            Ok(())
        }
        TraceAct::Show(x) => {
            let value = simulator.value(x);
            tell(
                &mut telling.text,
                telling.steps,
                names.at(x.0).as_bytes(),
                value,
            )?;
            Ok(())
        }
    }
}

/// Runs the lines of a trace on a simulator that has made no step, and gives its answers, in which signals have these
/// names. The value that is shown is that at the moment of its line.
pub fn run_trace<L: Ledger>(
    alloc: Global,
    simulator: &mut Simulator<'_>,
    names: &List<Word>,
    lines: &[TraceLine],
    steps: &mut Steps<L>,
) -> Result<Text, NoMemory>
    requires lines { AreLines simulator.old.design lines.now }
    requires named { AreNamed (length names.now) lines.now }
    ensures { IfOk result (λ text. (m : Moment) → Shows simulator.old m → m.steps ≡ [] → Says simulator.old.design names.now m lines.now text) }
{
    let mut telling = Telling {
        text: Text::new(alloc),
        steps: 0,
    };
    for line in lines {
        tell_line(simulator, names, line, &mut telling, steps)?;
    }
    Ok(telling.text)
}
