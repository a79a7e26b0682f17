//! The name that a path gives.

ghost use Rattle.std.specs.Prelude.{◌≡◌, ◌++◌, IfOk, OnOk};
ghost use Rattle.lx_namer.specs.Base.{base_name, continued, joined, kept_apart};

use lx_tables::is_verilog_word;
use lx_text::{NoMemory, Text, Word};
use std::alloc::Global;

// Adds the words, each behind `_`.
#[tactic(auto, using(crate::proofs::Joining::continued_more))]
fn push_continued(text: &mut Text, words: &[Word]) -> Result<(), NoMemory>
    ensures { OnOk result (text.new ≡ text.old ++ continued words.now) }
{
    for word in words {
        text.word(b"_")?;
        text.word(word.as_bytes())?;
    }
    Ok(())
}

// Adds the words, with `_` between each two.
fn push_joined(text: &mut Text, path: &[Word]) -> Result<(), NoMemory>
    ensures { OnOk result (text.new ≡ text.old ++ joined path.now) }
{
    if let [first, rest @ ..] = path {
        text.word(first.as_bytes())?;
        push_continued(text, rest)?;
    }
    Ok(())
}

// Adds `_` to a keyword of Verilog.
fn keep_apart(name: &mut Text) -> Result<(), NoMemory>
    ensures { OnOk result (name.new ≡ kept_apart name.old) }
{
    if is_verilog_word(name.as_bytes()) {
        name.word(b"_")?;
    }
    Ok(())
}

/// The base name of a path: its words joined by `_`, with a further `_` where that is a keyword of Verilog (IEEE
/// 1364-2005, annex B).
#[tactic(auto, unfolding(crate::specs::Base::base_name))]
pub fn base_name(alloc: Global, path: &[Word]) -> Result<Word, NoMemory>
    ensures { IfOk result (λ word. word ≡ base_name path.now) }
{
    let mut text = Text::new(alloc);
    push_joined(&mut text, path)?;
    keep_apart(&mut text)?;
    Ok(Word::from_list(text.into_list()))
}
