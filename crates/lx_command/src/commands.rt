//! Words become commands.

ghost use Rattle.std.specs.Prelude.{◌≡◌, ◌≤◌, ◌<◌, length};
ghost use Rattle.std.specs.Option.{option_map};
ghost use Rattle.lx_command.specs.Commands.{asked_of, command_of, command_on, command_of_two, command_of_three, size_of, is_digit};

use lx_text::Word;

/// What the words ask for, with their names and their number.
#[derive(Clone, Copy)]
pub enum Command<'a> {
    /// `build SRC`: the files of the system are stored.
    Build(&'a [u8]),
    /// `map SRC`: the registers and regions are listed.
    Map(&'a [u8]),
    /// `sim SRC TRACE`: the trace's answers are said.
    Sim(&'a [u8], &'a [u8]),
    /// `poke SRC SCRIPT`: the script's answers are said.
    Poke(&'a [u8], &'a [u8]),
    /// `gen N`: a description of a stated size, from 1 to 31, is made, built and run.
    Gen(u8),
}

/// The command that the words are, if they are one. Words are compared byte by byte.
pub fn read_command(words: &[Word]) -> Option<Command<'_>>
    ensures { option_map (λ c. asked_of c) result ≡ command_of words.now }
{
    match words {
        [word, given] => read_two(word.as_bytes(), given.as_bytes()),
        [word, first, second] => {
            read_three(word.as_bytes(), first.as_bytes(), second.as_bytes())
        }
        _ => None,
    }
}

fn read_two<'a>(word: &[u8], given: &'a [u8]) -> Option<Command<'a>>
    ensures { option_map (λ c. asked_of c) result ≡ command_of_two word.now given.now }
{
    if word == b"gen".as_slice() {
        let size = read_size(given)?;
        return Some(Command::Gen(size));
    }
    read_on(word, given)
}

fn read_on<'a>(word: &[u8], source: &'a [u8]) -> Option<Command<'a>>
    ensures { option_map (λ c. asked_of c) result ≡ command_on word.now source.now }
{
    if source.is_empty() {
        return None;
    }
    if word == b"build".as_slice() {
        return Some(Command::Build(source));
    }
    if word == b"map".as_slice() {
        Some(Command::Map(source))
    } else {
        None
    }
}

fn read_three<'a>(word: &[u8], first: &'a [u8], second: &'a [u8]) -> Option<Command<'a>>
    ensures { option_map (λ c. asked_of c) result ≡ command_of_three word.now first.now second.now }
{
    if first.is_empty() {
        return None;
    }
    if second.is_empty() {
        return None;
    }
    if word == b"sim".as_slice() {
        return Some(Command::Sim(first, second));
    }
    if word == b"poke".as_slice() {
        Some(Command::Poke(first, second))
    } else {
        None
    }
}

// The number from 1 to 31 that the word is, without a leading zero.
fn read_size(word: &[u8]) -> Option<u8>
    ensures { result ≡ size_of word.now }
{
    match word {
        [digit] => {
            if *digit >= b'1' && *digit <= b'9' {
                Some(*digit - b'0')
            } else {
                None
            }
        }
        [tens, ones] => {
            if *tens >= b'1'
                && is_decimal(*ones)
                && 10 * (*tens as u16 - 48) + (*ones as u16 - 48) <= 31
            {
                Some(10 * (*tens - b'0') + (*ones - b'0'))
            } else {
                None
            }
        }
        _ => None,
    }
}

fn is_decimal(byte: u8) -> bool
    ensures { result ≡ is_digit byte }
{
    byte >= b'0' && byte <= b'9'
}
