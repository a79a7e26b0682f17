//! The names of the nets.

ghost use Rattle.std.specs.Prelude.{◌≡◌, IfOk};
ghost use Rattle.lx_bench.specs.Fans.{AreNames, spelled};

use lx_text::{List, NoMemory, Text, Word};
use std::alloc::Global;

// `s$` and the number of a signal.
#[tactic(auto, using(lx_vtext::proofs::Numbers::number_decimal), unfolding(crate::specs::Fans::spelled))]
fn name(alloc: Global, x: usize) -> Result<Word, NoMemory>
    ensures { IfOk result (λ word. word ≡ spelled x) }
{
    let mut text = Text::new(alloc);
    text.word(b"s$")?;
    text.count(x as u128)?;
    Word::new(alloc, text.as_bytes())
}

/// The names of so many signals.
#[tactic(auto, using(crate::proofs::Named::names_none, crate::proofs::Named::names_more))]
pub(crate) fn names(alloc: Global, count: usize) -> Result<List<Word>, NoMemory>
    ensures { IfOk result (λ names. AreNames names count) }
{
    let mut names = List::new(alloc);
    for x in 0..count {
        names.push(name(alloc, x)?)?;
    }
    Ok(names)
}
