//! What a build stores and says.

ghost use Rattle.std.specs.Prelude.{◌≡◌, IfOk};
ghost use Rattle.lx_command.specs.Lines.{summary_text};

use lx_outside::Pair;
use lx_text::{List, NoMemory, Text};
use std::alloc::Global;

/// What a command stores, in order, and then says.
#[derive(Drop)]
pub struct Texts {
    pub files: List<Pair>,
    pub text: Text,
}

/// What a build says of a circuit without a bus.
pub fn summary_of(alloc: Global, top: &[u8]) -> Result<Text, NoMemory>
    ensures { IfOk result (λ text. text ≡ summary_text top.now) }
{
    let mut text = Text::new(alloc);
    text.word(b"built ")?;
    text.word(top)?;
    text.word(b": 0 registers, 0 banks, 0 regions, 0 interrupts\n")?;
    Ok(text)
}
