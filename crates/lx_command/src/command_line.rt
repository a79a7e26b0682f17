//! The words of the command line.

ghost use Rattle.std.specs.Prelude.{◌≡◌, ℕ, IfOk, IfSome, None};
ghost use Rattle.lx_command.specs.Reading.{ArePassed, IsArgument, IsCopied, IsPassed};

use lx_text::{List, NoMemory, Word};
use std::alloc::Global;
use std::env::{Env, FillError};

/// The words of a command line, by their places from 0.
pub trait Given {
    ghost use Rattle.std.specs.Prelude.{ℕ, List, Option};
    ghost use Rattle.std.specs.Io.{WritesAtMost};
    ghost use Rattle.lx_command.specs.Reading.{Copies};

    // the words, where they are told
    ghost words: { Self → Option (List (List ℕ)) };

    /// Copies the word at a place to the start of `buffer`, and answers its length.
    fn copy(&self, place: usize, buffer: &mut [u8]) -> Result<usize, FillError>
        ensures bound { WritesAtMost result buffer.new }
        ensures copies { Copies (words self.now) place buffer.new result };
}

/// The arguments of the program, without its name. They are not told.
#[derive(Drop)]
pub struct GivenArguments<'a, R: Env> {
    rt: &'a R,
}

impl<'a, R: Env> GivenArguments<'a, R> {
    /// The arguments of this runtime.
    pub fn new(rt: &'a R) -> GivenArguments<'a, R> {
        GivenArguments { rt }
    }
}

impl<'a, R: Env> Given for GivenArguments<'a, R> {
    ghost words = { λ _. None };

    fn copy(&self, place: usize, buffer: &mut [u8]) -> Result<usize, FillError> {
        if place == usize::MAX {
            return Err(FillError::NotPresent);
        }
        self.rt.arg(place + 1, buffer)
    }
}

/// The words of a command line, in order, each as it is, or the empty word where it isn't UTF-8.
#[tactic(auto, using(crate::proofs::Edges::passed_more, crate::proofs::Edges::passed_all))]
pub fn arguments<G: Given>(alloc: Global, given: &G) -> Result<List<Word>, NoMemory>
    ensures { IfOk result (λ words. IfSome (G.words given.now) (λ told. ArePassed told words)) }
{
    let mut words = List::new(alloc);
    for place in 0..usize::MAX {
        let Some(word) = argument(alloc, given, place)? else {
            return Ok(words);
        };
        words.push(word)?;
    }
    Err(NoMemory)
}

// The word at a place, if there is one.
fn argument<G: Given>(alloc: Global, given: &G, place: usize) -> Result<Option<Word>, NoMemory>
    ensures { IfOk result (λ word. IfSome (G.words given.now) (λ told. IsArgument told place word)) }
{
    let mut size = 4096usize;
    for _ in 0..32 {
        let mut buffer = vec![in alloc; 0u8; size]?;
        match copied(alloc, given, place, &mut buffer)? {
            Ok(word) => return Ok(Some(word)),
            Err(FillError::NotPresent) => return Ok(None),
            Err(FillError::TooLong) => size = size.saturating_mul(2),
        }
    }
    Err(NoMemory)
}

// The word at a place, by way of this buffer.
fn copied<G: Given>(
    alloc: Global,
    given: &G,
    place: usize,
    buffer: &mut [u8],
) -> Result<Result<Word, FillError>, NoMemory>
    ensures { IfOk result (λ answer. IsCopied (G.words given.now) place answer) }
{
    match given.copy(place, buffer) {
        Ok(len) => Ok(Ok(passed(alloc, &buffer[..len])?)),
        Err(fault) => Ok(Err(fault)),
    }
}

// The word of these bytes where they are UTF-8, else an empty word.
fn passed(alloc: Global, bytes: &[u8]) -> Result<Word, NoMemory>
    ensures { IfOk result (λ word. IsPassed bytes.now word) }
{
    match str::from_utf8(bytes) {
        Ok(_) => Word::new(alloc, bytes),
        Err(_) => Ok(Word::empty(alloc)),
    }
}
