//! Names of nets that no signal has.

ghost use Rattle.std.specs.Prelude.{◌≡◌, IfOk};
ghost use Rattle.lx_emission.specs.Naming.{clock_name, node_name};

use lx_fhdl::Domain;
use lx_text::{NoMemory, Text, Word};
use std::alloc::Global;

/// The name of the net of number `n` among those of operators and slices.
#[tactic(auto, using(lx_vtext::proofs::Numbers::number_decimal), unfolding(lx_emission::specs::Naming::node_name))]
pub fn node_name(alloc: Global, n: usize) -> Result<Word, NoMemory>
    ensures { IfOk result (λ word. word ≡ node_name n) }
{
    let mut text = Text::new(alloc);
    text.word(b"n$")?;
    text.count(n as u128)?;
    Word::new(alloc, text.as_bytes())
}

/// The name of a domain's clock.
#[tactic(auto, unfolding(lx_emission::specs::Naming::clock_name))]
pub fn clock_name(alloc: Global, domain: &Domain) -> Result<Word, NoMemory>
    ensures { IfOk result (λ word. word ≡ clock_name domain.now.name) }
{
    let mut text = Text::new(alloc);
    text.word(domain.name.as_bytes())?;
    text.word(b"_clk")?;
    Word::new(alloc, text.as_bytes())
}
