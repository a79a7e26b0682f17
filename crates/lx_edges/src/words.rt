//! The words of the command line.

use crate::showing::show;
use lx_command::{GivenArguments, arguments};
use lx_text::{NoMemory, Text};
use std::alloc::Global;
use std::env::Env;

/// The number of bytes of each word of the command line.
pub(crate) fn show_words<R: Env>(rt: &R, alloc: Global, out: &mut Text) -> Result<(), NoMemory> {
    let words = arguments(alloc, &GivenArguments::new(rt))?;
    show(out, b"words", b"number", words.len())?;
    for word in words.as_slice() {
        show(out, b"a word", b"bytes", word.len())?;
    }
    Ok(())
}
