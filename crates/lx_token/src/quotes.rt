//! Texts between quotes.

ghost use Rattle.std.specs.Prelude.{◌≡◌, ◌+◌, ◌≤◌, ◌<◌, ◌^◌, ◌∷◌, [], length, IfSome, nat_eq};
ghost use Rattle.std.specs.List.{starts_with};
ghost use Rattle.lx_token.specs.Quotes.{quoted, closing, earlier, is_escape, bad_escape};
ghost use Rattle.lx_token.specs.Turns.{IsTurn, IsEscapedTurn, IsAtMost};

use crate::bytes::begins_with_feed;

/// The end of a text: the bytes up to it, and the place of the first byte that may not stand behind its backslash.
#[derive(Clone, Copy)]
pub struct Ending {
    pub length: usize,
    pub bad: Option<usize>,
}

/// What the next step through a text does.
#[derive(Clone, Copy)]
pub enum Turn<'a> {
    Ends(usize),
    Endless,
    GoesOn(usize, Option<usize>, &'a [u8]),
}

// Whether these bytes begin with two of the quote.
pub(crate) fn begins_with_two(quote: u8, bytes: &[u8]) -> bool
    ensures { result ≡ starts_with nat_eq bytes.now (quote ∷ quote ∷ []) }
{
    match bytes {
        [first, second, ..] => *first == quote && *second == quote,
        _ => false,
    }
}

#[tactic(auto, unfolding(crate::specs::Quotes::is_escape))]
fn is_escape(byte: u8) -> bool
    ensures { result ≡ is_escape byte }
{
    b"\\\"'nt".contains(&byte)
}

fn bad_escape(byte: u8, rest: &[u8]) -> Option<usize>
    ensures value { result ≡ bad_escape byte rest.now }
    ensures within { IsAtMost 2 result }
{
    if is_escape(byte) {
        None
    } else if byte == b'\r' && begins_with_feed(rest) {
        Some(2)
    } else {
        Some(1)
    }
}

fn ends(long: bool, quote: u8, first: u8, rest: &[u8]) -> bool
    ensures { result ≡ starts_with nat_eq (first ∷ rest.now) (closing long quote) }
{
    first == quote && (!long || begins_with_two(quote, rest))
}

// The next step through a text.
#[tactic(auto, unfolding(crate::specs::Quotes::quoted))]
fn turned<'a>(long: bool, quote: u8, bytes: &'a [u8]) -> Turn<'a>
    ensures { IsTurn long quote bytes.now result }
{
    match bytes {
        [] => Turn::Endless,
        [first, rest @ ..] => {
            if ends(long, quote, *first, rest) {
                Turn::Ends(if long { 3 } else { 1 })
            } else if *first == b'\n' && !long {
                Turn::Endless
            } else if *first == b'\\' {
                escaped(long, quote, rest)
            } else {
                Turn::GoesOn(1, None, rest)
            }
        }
    }
}

// The step behind a backslash, with it.
#[tactic(auto, unfolding(crate::specs::Quotes::escaped))]
fn escaped<'a>(long: bool, quote: u8, bytes: &'a [u8]) -> Turn<'a>
    ensures { IsEscapedTurn long quote bytes.now result }
{
    match bytes {
        [] => Turn::Endless,
        [first, rest @ ..] => {
            if *first == b'\n' && !long {
                Turn::Endless
            } else {
                Turn::GoesOn(2, bad_escape(*first, rest), rest)
            }
        }
    }
}

#[tactic(auto, using(crate::proofs::Endings::at_most))]
// The end of a text, from behind its opening quotes on; none where it has no end.
pub(crate) fn end_of_text(long: bool, quote: u8, bytes: &[u8]) -> Option<Ending>
    ensures value { result ≡ quoted long quote bytes.now }
    ensures within { IfSome result (λ end. (end.length ≤ length bytes.now) × IsAtMost end.length end.bad) }
{
    let mut length: usize = 0;
    let mut bad: Option<usize> = None;
    let mut rest = bytes;
    'turns: loop {
        match turned(long, quote, rest) {
            Turn::Endless => return None,
            Turn::Ends(closing) => {
                return Some(Ending {
                    length: length + closing,
                    bad,
                });
            }
            Turn::GoesOn(step, found, left) => {
                bad = first_bad(bad, length, found);
                length += step;
                rest = left;
            }
        }
    }
}

// The earlier of a bad byte and of one that stands later by so many bytes.
fn first_bad(bad: Option<usize>, length: usize, later: Option<usize>) -> Option<usize>
    requires { IfSome later (λ place. length + place < 2 ^ 64) }
    ensures { result ≡ earlier bad length later }
{
    match bad {
        Some(_) => bad,
        None => match later {
            Some(place) => Some(length + place),
            None => None,
        },
    }
}
