//! The words of a register.

ghost use Rattle.std.specs.Prelude.{◌≡◌, ◌+◌, ◌*◌, ◌≤◌, IfOk};
ghost use Rattle.lx_csr.specs.Places.{word_count_of, words_at};

use crate::registers::WordPlace;
use lx_text::{List, NoMemory};
use std::alloc::Global;

// The bits of a word.
const WIDTH: u32 = 32;

/// How many words a register of this size has.
pub(crate) fn word_count(size: u8) -> u32
    ensures { result ≡ word_count_of size }
{
    (size as u32 + WIDTH - 1) / WIDTH
}

/// The words of a register of this size, which begins at this address: the most significant first.
pub(crate) fn words_at(alloc: Global, size: u8, addr: u32) -> Result<List<WordPlace>, NoMemory>
    requires { addr + 4 * word_count_of size ≤ 4294967295 }
    ensures { IfOk result (λ words. words ≡ words_at size addr) }
{
    let count = word_count(size);
    let mut words = List::new(alloc);
    for i in 0..count {
        let low = WIDTH * (count - 1 - i);
        words.push(WordPlace {
            addr: addr + 4 * i,
            low: low as u8,
            len: WIDTH.min(size as u32 - low) as u8,
        })?;
    }
    Ok(words)
}
