//! A description's text is judged: its tokens, and its tree.

ghost use Rattle.std.specs.Prelude.{◌≡◌};
ghost use Rattle.lx_command.specs.Judging.{Judges};

use lx_pytree::{Tree, read};
use lx_text::Refusal;
use lx_token::tokens::tokens;
use std::alloc::Global;

/// The syntax tree of a text; or the first fault of its tokens, else of its syntax.
#[tactic(auto, using(crate::proofs::Syntax::syntax_fault))]
pub fn judge(alloc: Global, bytes: &[u8]) -> Result<Tree, Refusal>
    ensures { Judges bytes.now result }
{
    let tokens = match tokens(alloc, bytes) {
        Ok(tokens) => tokens,
        Err(refusal) => return Err(refusal),
    };
    match read(alloc, bytes, &tokens) {
        Ok(tree) => Ok(tree),
        Err(refusal) => Err(refusal),
    }
}
