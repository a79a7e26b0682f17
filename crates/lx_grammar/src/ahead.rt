//! What stands ahead of a place in the list of tokens.

ghost use Rattle.std.specs.Prelude.{◌≡◌};
ghost use Rattle.lx_grammar.specs.Numbers.{number};
ghost use Rattle.lx_grammar.specs.Ahead.{mark, look, ahead, view};

use crate::grammar::{Spot, looks_far};
use crate::sign::{ASSIGNING, CLOSING, ENDS_VALUES, Item, LOUD, OPENING, Sign, is_in, number_of};

// The sign of a token before what has the second sign.
#[tactic(auto, unfolding(crate::specs::Ahead::mark, crate::specs::Numbers::number))]
fn marked(sign: Sign, next: Sign) -> Sign
    ensures { number result ≡ mark (number sign) (number next) }
{
    match sign {
        Sign::Name | Sign::Init | Sign::SelfName if is_in(ASSIGNING, next) => Sign::Target,
        Sign::Dot if number_of(next) == 56 => Sign::LastDot,
        Sign::Comma if is_in(ENDS_VALUES, next) => Sign::LastComma,
        Sign::Comma if number_of(next) == 56 => Sign::KeyComma,
        _ => sign,
    }
}

// The sign of the next token, seen with the two behind it.
#[tactic(auto, unfolding(crate::specs::Ahead::look, crate::specs::Numbers::number))]
fn near(items: &[Item]) -> Sign
    ensures { number result ≡ look items.now }
{
    match items {
        [] => Sign::Nothing,
        [first] => marked(first.sign, Sign::Nothing),
        [first, second] => marked(first.sign, marked(second.sign, Sign::Nothing)),
        [first, second, third, ..] => marked(first.sign, marked(second.sign, third.sign)),
    }
}

// The first token outside brackets that is no part of a value, or the bracket that closes.
#[tactic(auto, unfolding(crate::specs::Ahead::ahead, crate::specs::Numbers::number))]
fn far(items: &[Item]) -> Sign
    ensures { number result ≡ ahead 0 items.now }
{
    let mut depth: usize = 0;
    for item in items {
        if is_in(OPENING, item.sign) {
            depth += 1;
        } else if is_in(CLOSING, item.sign) {
            if depth == 0 {
                return item.sign;
            }
            depth -= 1;
        } else if depth == 0 && is_in(LOUD, item.sign) {
            return item.sign;
        }
    }
    Sign::Nothing
}

/// The sign by which a row of a spot is picked.
#[tactic(auto, unfolding(crate::specs::Ahead::view))]
pub fn view_of(spot: Spot, items: &[Item]) -> Sign
    ensures { number result ≡ view spot items.now }
{
    if looks_far(spot) {
        far(items)
    } else {
        near(items)
    }
}
