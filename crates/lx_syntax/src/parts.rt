//! What stands among the parts of a node: nodes, pairs of nodes, operators, signs, names.

ghost use Rattle.std.specs.Prelude.{◌≡◌, ◌∷◌, IfOk};
ghost use Rattle.lx_syntax.specs.Convert.{comparison_of, is_name, names_among, operator_of, prefix_of, sign_of};
ghost use Rattle.lx_syntax.specs.Forming.{couples_of, links_in, nodes_in, signs_in, tokens_in};
ghost use Rattle.lx_syntax.specs.Heads.{AreWords, IsFew, IsHead, IsLine, IsRow, IsTwos};
ghost use Rattle.lx_syntax.specs.Says.{IsSplit};

use crate::forms::{Comparison, Couple, Link, Operator, Prefix, Signed};
use lx_arena::Id;
use lx_grammar::{Sign, token_text};
use lx_pytree::{PyNodes, PyPart};
use lx_text::{List, NoMemory};
use lx_token::Token;
use std::alloc::Global;

// Which word or operator a token is.
pub(crate) fn sign_of(src: &[u8], token: &Token) -> Sign
    ensures { result ≡ sign_of src.now token.now }
{
    lx_grammar::sign_of(token.kind, token_text(src, token))
}

#[tactic(auto, unfolding(crate::specs::Convert::operator_of))]
pub(crate) fn operator_of(sign: Sign) -> Option<Operator>
    ensures { result ≡ operator_of sign }
{
    match sign {
        Sign::Plus => Some(Operator::Add),
        Sign::Minus => Some(Operator::Sub),
        Sign::Star => Some(Operator::Mul),
        Sign::Floor => Some(Operator::Floor),
        Sign::Percent => Some(Operator::Remainder),
        Sign::ShiftLeft => Some(Operator::ShiftLeft),
        Sign::ShiftRight => Some(Operator::ShiftRight),
        Sign::Ampersand => Some(Operator::And),
        Sign::Bar => Some(Operator::Or),
        Sign::Caret => Some(Operator::Xor),
        _ => None,
    }
}

#[tactic(auto, unfolding(crate::specs::Convert::comparison_of))]
pub(crate) fn comparison_of(sign: Sign) -> Option<Comparison>
    ensures { result ≡ comparison_of sign }
{
    match sign {
        Sign::Equal => Some(Comparison::Equal),
        Sign::Unequal => Some(Comparison::Unequal),
        Sign::Less => Some(Comparison::Less),
        Sign::LessEqual => Some(Comparison::LessEqual),
        Sign::Greater => Some(Comparison::Greater),
        Sign::GreaterEqual => Some(Comparison::GreaterEqual),
        Sign::In => Some(Comparison::In),
        _ => None,
    }
}

#[tactic(auto, unfolding(crate::specs::Convert::prefix_of))]
pub(crate) fn prefix_of(sign: Sign) -> Option<Prefix>
    ensures { result ≡ prefix_of sign }
{
    match sign {
        Sign::Minus => Some(Prefix::Minus),
        Sign::Plus => Some(Prefix::Plus),
        Sign::Tilde => Some(Prefix::Tilde),
        _ => None,
    }
}

#[tactic(auto, unfolding(crate::specs::Convert::is_name))]
pub(crate) fn is_name(sign: Sign) -> bool
    ensures { result ≡ is_name sign }
{
    match sign {
        Sign::Name => true,
        Sign::Init => true,
        Sign::SelfName => true,
        _ => false,
    }
}

/// The tokens and the nodes among parts, each in their order.
#[derive(Drop)]
pub(crate) struct Split {
    pub(crate) tokens: List<Token>,
    pub(crate) nodes: List<Id<PyNodes>>,
}

// Nodes, where they are few.
pub(crate) enum Few {
    Zero,
    One(Id<PyNodes>),
    Two(Id<PyNodes>, Id<PyNodes>),
    Many,
}

pub(crate) fn few_of(ids: &[Id<PyNodes>]) -> Few
    ensures { IsFew ids.now result }
{
    match ids {
        [] => Few::Zero,
        [a] => Few::One(*a),
        [a, b] => Few::Two(*a, *b),
        [_a, _b, _c, ..] => Few::Many,
    }
}

// Tokens, where they are few.
pub(crate) enum Words {
    Zero,
    One(Token),
    Two,
    Three,
    Many,
}

pub(crate) fn words_of(tokens: &[Token]) -> Words
    ensures { AreWords tokens.now result }
{
    match tokens {
        [] => Words::Zero,
        [x] => Words::One(*x),
        [_x, _y] => Words::Two,
        [_x, _y, _z] => Words::Three,
        [_x, _y, _z, _w, ..] => Words::Many,
    }
}

// The first of some tokens and those behind it.
pub(crate) enum Line<'a> {
    Done,
    Next(Token, &'a [Token]),
}

pub(crate) fn line_of(tokens: &[Token]) -> Line<'_>
    ensures { IsLine tokens.now result }
{
    match tokens {
        [] => Line::Done,
        [x, rest @ ..] => Line::Next(*x, rest),
    }
}

// The first of some nodes and those behind it.
pub(crate) enum Row<'a> {
    Done,
    Next(Id<PyNodes>, &'a [Id<PyNodes>]),
}

pub(crate) fn row_of(ids: &[Id<PyNodes>]) -> Row<'_>
    ensures { IsRow ids.now result }
{
    match ids {
        [] => Row::Done,
        [id, rest @ ..] => Row::Next(*id, rest),
    }
}

// The first two of some nodes and those behind them.
pub(crate) enum Twos<'a> {
    Done,
    Next(Id<PyNodes>, Id<PyNodes>, &'a [Id<PyNodes>]),
}

#[tactic(auto, using(crate::proofs::Splitting::twos_next, crate::proofs::Splitting::twos_none, crate::proofs::Splitting::twos_one))]
pub(crate) fn twos_of(ids: &[Id<PyNodes>]) -> Twos<'_>
    ensures { IsTwos ids.now result }
{
    match row_of(ids) {
        Row::Done => Twos::Done,
        Row::Next(a, rest) => match row_of(rest) {
            Row::Done => Twos::Done,
            Row::Next(b, left) => Twos::Next(a, b, left),
        },
    }
}

// The first of some parts and those behind it.
pub(crate) enum Head<'a> {
    Done,
    Token(Token, &'a [PyPart]),
    Node(Id<PyNodes>, &'a [PyPart]),
}

pub(crate) fn head_of(parts: &[PyPart]) -> Head<'_>
    ensures { IsHead parts.now result }
{
    match parts {
        [] => Head::Done,
        [PyPart::Token(x), rest @ ..] => Head::Token(*x, rest),
        [PyPart::Node(id), rest @ ..] => Head::Node(*id, rest),
    }
}

// The nodes among parts.
#[tactic(auto, unfolding(crate::specs::Forming::nodes_in))]
pub(crate) fn nodes_in(alloc: Global, parts: &[PyPart]) -> Result<List<Id<PyNodes>>, NoMemory>
    ensures { IfOk result (λ ids. ids ≡ nodes_in parts.now) }
{
    let mut ids = List::new(alloc);
    for part in parts {
        if let PyPart::Node(id) = part {
            ids.push(*id)?;
        }
    }
    Ok(ids)
}

// The tokens among parts.
#[tactic(auto, unfolding(crate::specs::Forming::tokens_in))]
pub(crate) fn tokens_in(alloc: Global, parts: &[PyPart]) -> Result<List<Token>, NoMemory>
    ensures { IfOk result (λ tokens. tokens ≡ tokens_in parts.now) }
{
    let mut tokens = List::new(alloc);
    for part in parts {
        if let PyPart::Token(token) = part {
            tokens.push(*token)?;
        }
    }
    Ok(tokens)
}

#[tactic(auto, using(crate::proofs::Splitting::split_is))]
pub(crate) fn split_of(alloc: Global, parts: &[PyPart]) -> Result<Split, NoMemory>
    ensures { IfOk result (λ split. IsSplit parts.now split.tokens split.nodes) }
{
    let tokens = tokens_in(alloc, parts)?;
    let nodes = nodes_in(alloc, parts)?;
    Ok(Split { tokens, nodes })
}

// Two nodes, and nodes in twos.
#[tactic(auto, using(crate::proofs::Splitting::couples_more, crate::proofs::Splitting::couples_all))]
pub(crate) fn couples_from(
    alloc: Global,
    first: Id<PyNodes>,
    second: Id<PyNodes>,
    ids: &[Id<PyNodes>],
) -> Result<List<Couple>, NoMemory>
    ensures { IfOk result (λ couples. couples ≡ record { first = first; second = second } ∷ couples_of ids.now) }
{
    let mut couples = List::of_one(alloc, Couple { first, second })?;
    let mut rest = ids;
    'couples: loop {
        match twos_of(rest) {
            Twos::Done => return Ok(couples),
            Twos::Next(first, second, left) => {
                couples.push(Couple { first, second })?;
                rest = left;
            }
        }
    }
}

// Operators and the operands behind them, where all tokens are operators and each has an operand.
#[tactic(auto, using(crate::proofs::Splitting::links_short), unfolding(crate::specs::Forming::links_in))]
pub(crate) fn links_in(
    alloc: Global,
    src: &[u8],
    tokens: &[Token],
    ids: &[Id<PyNodes>],
) -> Result<Option<List<Link>>, NoMemory>
    ensures { IfOk result (λ links. links ≡ links_in src.now tokens.now ids.now) }
{
    let mut links = List::new(alloc);
    let mut rest = ids;
    'links: for token in tokens {
        match row_of(rest) {
            Row::Done => return Ok(None),
            Row::Next(operand, left) => {
                let Some(operator) = operator_of(sign_of(src, token)) else {
                    return Ok(None);
                };
                links.push(Link { operator, operand })?;
                rest = left;
            }
        }
    }
    Ok(Some(links))
}

// What signs tokens are, where all are signs.
#[tactic(auto, unfolding(crate::specs::Forming::signs_in))]
pub(crate) fn signs_in(
    alloc: Global,
    src: &[u8],
    tokens: &[Token],
) -> Result<Option<List<Signed>>, NoMemory>
    ensures { IfOk result (λ signs. signs ≡ signs_in src.now tokens.now) }
{
    let mut signs = List::new(alloc);
    'signs: for token in tokens {
        let Some(prefix) = prefix_of(sign_of(src, token)) else {
            return Ok(None);
        };
        signs.push(Signed {
            line: token.line,
            prefix,
        })?;
    }
    Ok(Some(signs))
}

// The names among tokens.
#[tactic(auto, unfolding(crate::specs::Convert::names_among))]
pub(crate) fn names_among(
    alloc: Global,
    src: &[u8],
    tokens: &[Token],
) -> Result<List<Token>, NoMemory>
    ensures { IfOk result (λ names. names ≡ names_among src.now tokens.now) }
{
    let mut names = List::new(alloc);
    for token in tokens {
        if is_name(sign_of(src, token)) {
            names.push(*token)?;
        }
    }
    Ok(names)
}
