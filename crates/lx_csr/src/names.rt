//! Names of registers, and those that the headers define.

ghost use Rattle.std.specs.Prelude.{◌≡◌, ◌++◌, [], IfOk, OnOk};
ghost use Rattle.lx_csr.specs.Names.{after_underscores, bare, can_stand, csr_macro, joined, plain_macro, upper};

use lx_text::{List, NoMemory, Text, Word};
use std::alloc::Global;

// What follows the leading underscores.
fn after_underscores(name: &[u8]) -> &[u8]
    ensures { result.now ≡ after_underscores name.now }
{
    for (i, byte) in name.iter().enumerate() {
        if *byte != b'_' {
            return &name[i..];
        }
    }
    &name[name.len()..]
}

fn can_stand(name: &[u8]) -> bool
    ensures { result ≡ can_stand name.now }
{
    match name {
        [] => false,
        [first, ..] => !first.is_ascii_digit(),
    }
}

/// A register's name without its leading underscores, where a name is left.
#[tactic(auto, unfolding(crate::specs::Names::bare))]
pub(crate) fn bare(name: &[u8]) -> &[u8]
    ensures { result.now ≡ bare name.now }
{
    let rest = after_underscores(name);
    if can_stand(rest) { rest } else { name }
}

/// The name of what stands in a module.
pub(crate) fn joined(alloc: Global, owner: &[u8], name: &[u8]) -> Result<Word, NoMemory>
    ensures { IfOk result (λ word. word ≡ joined owner.now name.now) }
{
    let mut text = Text::new(alloc);
    text.word(owner)?;
    text.word(b"_")?;
    text.word(name)?;
    Ok(Word::from_list(text.into_list()))
}

// Adds a name in upper case.
fn push_upper(text: &mut Text, name: &[u8]) -> Result<(), NoMemory>
    ensures { OnOk result (text.new ≡ text.old ++ upper name.now) }
{
    for byte in name {
        text.word(&[byte.to_ascii_uppercase()])?;
    }
    Ok(())
}

/// A macro of `csr.h`.
pub(crate) fn csr_macro(alloc: Global, name: &[u8], suffix: &[u8]) -> Result<Word, NoMemory>
    ensures { IfOk result (λ word. word ≡ csr_macro name.now suffix.now) }
{
    let mut text = Text::new(alloc);
    text.word(b"CSR_")?;
    push_upper(&mut text, name)?;
    text.word(suffix)?;
    Ok(Word::from_list(text.into_list()))
}

/// A macro of another header.
pub(crate) fn plain_macro(alloc: Global, name: &[u8], suffix: &[u8]) -> Result<Word, NoMemory>
    ensures { IfOk result (λ word. word ≡ plain_macro name.now suffix.now) }
{
    let mut text = Text::new(alloc);
    push_upper(&mut text, name)?;
    text.word(suffix)?;
    Ok(Word::from_list(text.into_list()))
}

/// A name that a header defines, or a name that is wished.
#[derive(Drop)]
pub(crate) struct Defined {
    pub text: Word,
    /// The line of the call that it comes from.
    pub line: u32,
}
