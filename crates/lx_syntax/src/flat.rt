//! The forms of nodes that their tokens and nodes tell.

ghost use Rattle.std.specs.Prelude.{ℕ, List, [], ◌∷◌, IfOk, map};
ghost use Rattle.lx_token.specs.declared.tokens.Token.{Token};
ghost use Rattle.lx_syntax.specs.Convert as word;
ghost use Rattle.lx_syntax.specs.Ast as ast;
ghost use Rattle.lx_syntax.specs.Forms.{signed};
ghost use Rattle.lx_syntax.specs.Says.{IsAlone, IsFlat, IsPair};

use crate::forms::{ExprForm, Signed};
use crate::parts::{
    Few, Row, Split, Words, comparison_of, few_of, links_in, row_of, sign_of, signs_in, words_of,
};
use lx_arena::Id;
use lx_grammar::Rule;
use lx_pytree::PyNodes;
use lx_text::{List, NoMemory};
use lx_token::Token;
use std::alloc::Global;

// A form of the only node.
#[tactic(auto, using(crate::proofs::Counting::alone_zero, crate::proofs::Counting::alone_two, crate::proofs::Counting::alone_many, crate::proofs::Counting::negated_one))]
fn negated(words: List<Token>, nodes: &[Id<PyNodes>]) -> ExprForm
    ensures { (src : List ℕ) → IsAlone src (λ _ e. ast.Not (map word.token_line words) e) nodes.now result }
{
    match few_of(nodes) {
        Few::Zero => ExprForm::Misshapen,
        Few::One(of) => ExprForm::Not { words, of },
        Few::Two(_a, _b) => ExprForm::Misshapen,
        Few::Many => ExprForm::Misshapen,
    }
}

#[tactic(auto, using(crate::proofs::Counting::compared_none, crate::proofs::Counting::compared_some))]
fn compared(src: &[u8], token: &Token, left: Id<PyNodes>, right: Id<PyNodes>) -> ExprForm
    ensures { IsPair src.now (λ line. word.compared line (word.comparison_of (word.sign_of src.now token.now))) (left ∷ right ∷ []) result }
{
    match comparison_of(sign_of(src, token)) {
        None => ExprForm::Misshapen,
        Some(by) => ExprForm::Compare { by, left, right },
    }
}

// Two operands of a comparison.
#[tactic(auto, using(crate::proofs::Counting::pair_zero, crate::proofs::Counting::pair_one, crate::proofs::Counting::pair_many, crate::proofs::Counting::pair_two))]
fn compared_two(src: &[u8], token: &Token, nodes: &[Id<PyNodes>]) -> ExprForm
    ensures { IsPair src.now (λ line. word.compared line (word.comparison_of (word.sign_of src.now token.now))) nodes.now result }
{
    match few_of(nodes) {
        Few::Zero => ExprForm::Misshapen,
        Few::One(_a) => ExprForm::Misshapen,
        Few::Two(left, right) => compared(src, token, left, right),
        Few::Many => ExprForm::Misshapen,
    }
}

// An operand before `is None`, or before `is not None`.
#[tactic(auto, using(crate::proofs::Counting::alone_zero, crate::proofs::Counting::alone_two, crate::proofs::Counting::alone_many, crate::proofs::Counting::nothing_one))]
fn is_nothing(negated: bool, nodes: &[Id<PyNodes>]) -> ExprForm
    ensures { (src : List ℕ) → IsAlone src (λ line e. ast.IsNothing line negated e) nodes.now result }
{
    match few_of(nodes) {
        Few::Zero => ExprForm::Misshapen,
        Few::One(of) => ExprForm::IsNothing { negated, of },
        Few::Two(_a, _b) => ExprForm::Misshapen,
        Few::Many => ExprForm::Misshapen,
    }
}

// Two operands and a comparison, or one and `is None` or `is not None`.
#[tactic(auto, using(crate::proofs::Counting::related_none, crate::proofs::Counting::related_one, crate::proofs::Counting::related_two, crate::proofs::Counting::related_three, crate::proofs::Counting::related_many))]
fn related(src: &[u8], tokens: &[Token], nodes: &[Id<PyNodes>]) -> ExprForm
    ensures { IsFlat src.now (word.related src.now) tokens.now nodes.now result }
{
    match words_of(tokens) {
        Words::Zero => ExprForm::Misshapen,
        Words::One(token) => compared_two(src, &token, nodes),
        Words::Two => is_nothing(false, nodes),
        Words::Three => is_nothing(true, nodes),
        Words::Many => ExprForm::Misshapen,
    }
}

// A chain of operators.
#[tactic(auto, using(crate::proofs::Counting::chain_none, crate::proofs::Counting::chain_odd, crate::proofs::Counting::chain_some))]
fn chain(
    alloc: Global,
    src: &[u8],
    tokens: &[Token],
    nodes: &[Id<PyNodes>],
) -> Result<ExprForm, NoMemory>
    ensures { IfOk result (λ form. IsFlat src.now (word.chain src.now) tokens.now nodes.now form) }
{
    match row_of(nodes) {
        Row::Done => Ok(ExprForm::Misshapen),
        Row::Next(first, rest) => match links_in(alloc, src, tokens, rest)? {
            None => Ok(ExprForm::Misshapen),
            Some(rest) => Ok(ExprForm::Chain { first, rest }),
        },
    }
}

#[tactic(auto, using(crate::proofs::Counting::alone_zero, crate::proofs::Counting::alone_two, crate::proofs::Counting::alone_many, crate::proofs::Counting::prefixed_one))]
fn prefixed_by(signs: List<Signed>, nodes: &[Id<PyNodes>]) -> ExprForm
    ensures { (src : List ℕ) → IsAlone src (λ _ e. ast.Prefixed (map signed signs) e) nodes.now result }
{
    match few_of(nodes) {
        Few::Zero => ExprForm::Misshapen,
        Few::One(of) => ExprForm::Prefixed { signs, of },
        Few::Two(_a, _b) => ExprForm::Misshapen,
        Few::Many => ExprForm::Misshapen,
    }
}

// Signs before an operand.
#[tactic(auto, using(crate::proofs::Flats::prefixed_form, crate::proofs::Flats::prefixed_none))]
fn prefixed(
    alloc: Global,
    src: &[u8],
    tokens: &[Token],
    nodes: &[Id<PyNodes>],
) -> Result<ExprForm, NoMemory>
    ensures { IfOk result (λ form. IsFlat src.now (λ xs _ es. word.prefixed (word.signs src.now xs) es) tokens.now nodes.now form) }
{
    match signs_in(alloc, src, tokens)? {
        None => Ok(ExprForm::Misshapen),
        Some(signs) => Ok(prefixed_by(signs, nodes)),
    }
}

#[tactic(auto, using(crate::proofs::Counting::pair_zero, crate::proofs::Counting::pair_one, crate::proofs::Counting::pair_many, crate::proofs::Counting::powered_two))]
fn powered(nodes: &[Id<PyNodes>]) -> ExprForm
    ensures { (src : List ℕ) → IsPair src (λ line. ast.Power line) nodes.now result }
{
    match few_of(nodes) {
        Few::Zero => ExprForm::Misshapen,
        Few::One(_a) => ExprForm::Misshapen,
        Few::Two(base, exponent) => ExprForm::Power { base, exponent },
        Few::Many => ExprForm::Misshapen,
    }
}

#[tactic(auto, using(crate::proofs::Counting::alone_zero, crate::proofs::Counting::alone_two, crate::proofs::Counting::alone_many, crate::proofs::Counting::same_one))]
fn sole(nodes: &[Id<PyNodes>]) -> ExprForm
    ensures { (src : List ℕ) → IsAlone src (λ _ e. e) nodes.now result }
{
    match few_of(nodes) {
        Few::Zero => ExprForm::Misshapen,
        Few::One(of) => ExprForm::Same(of),
        Few::Two(_a, _b) => ExprForm::Misshapen,
        Few::Many => ExprForm::Misshapen,
    }
}

// The form of a node that is no atom and no conditional, and has no trailers.
#[tactic(auto, unfolding(crate::specs::Convert::flat, crate::specs::Forms::expr_form, crate::specs::Forms::expr_ids, crate::specs::Forms::Lower))]
pub(crate) fn flat(
    alloc: Global,
    src: &[u8],
    rule: Rule,
    split: Split,
) -> Result<ExprForm, NoMemory>
    ensures { IfOk result (λ form. IsFlat src.now (word.flat src.now rule) split.tokens split.nodes form) }
{
    let Split { tokens, nodes } = split;
    let words = tokens.as_slice();
    let ids = nodes.as_slice();
    match rule {
        Rule::Values => Ok(ExprForm::Tuple(nodes)),
        Rule::Or => Ok(ExprForm::Either(nodes)),
        Rule::And => Ok(ExprForm::Both(nodes)),
        Rule::Not => Ok(negated(tokens, ids)),
        Rule::Comp => Ok(related(src, words, ids)),
        Rule::Bor => chain(alloc, src, words, ids),
        Rule::Bxor => chain(alloc, src, words, ids),
        Rule::Band => chain(alloc, src, words, ids),
        Rule::Shift => chain(alloc, src, words, ids),
        Rule::Sum => chain(alloc, src, words, ids),
        Rule::Term => chain(alloc, src, words, ids),
        Rule::Unary => prefixed(alloc, src, words, ids),
        Rule::Power => Ok(powered(ids)),
        Rule::Arg => Ok(sole(ids)),
        _ => Ok(ExprForm::Misshapen),
    }
}
