//! The nodes and the classes of a description, whose parts stand lower.

ghost use Rattle.std.specs.Prelude.{Some, ◌≡◌, ◌<◌, IfSome, length, option_copied, slice_get};
ghost use Rattle.lx_syntax.specs.Forms.{expr_form, expr_of, stmt_form, stmt_of};
ghost use Rattle.lx_run.specs.Meant.{IsLowerClass, IsLowerExpr, IsLowerStmt, IsOperand, IsTail};

use lx_arena::Id;
use lx_pytree::PyNodes;
use lx_syntax::{ClassForm, Node, Syntax, Trailer};

/// The node at a place, as an expression.
pub(crate) fn expr_at(syntax: &Syntax, id: Id<PyNodes>) -> &Node
    requires { id.place < length syntax.now.nodes }
    ensures tree { expr_of syntax.now id.place ≡ expr_form syntax.now.src (expr_of syntax.now) result.now.line result.now.expr }
    ensures lower { IsLowerExpr id.place result.now.expr }
{
    syntax.node(id)
}

/// The node at a place, as a statement.
pub(crate) fn stmt_at(syntax: &Syntax, id: Id<PyNodes>) -> &Node
    requires { id.place < length syntax.now.nodes }
    ensures tree { stmt_of syntax.now id.place ≡ stmt_form syntax.now.src (expr_of syntax.now) (stmt_of syntax.now) result.now.line result.now.stmt }
    ensures lower { IsLowerStmt id.place result.now.stmt }
{
    syntax.node(id)
}

/// The class at a place.
pub(crate) fn class_in(syntax: &Syntax, place: usize) -> &ClassForm
    requires { place < length syntax.now.classes }
    ensures class { slice_get syntax.now.classes place ≡ Some result.now }
    ensures lower { IsLowerClass (length syntax.now.nodes) result.now }
{
    syntax.class(place)
}

/// The class at a place, where there is one.
pub(crate) fn class_at(syntax: &Syntax, place: usize) -> Option<&ClassForm>
    ensures class { option_copied result ≡ slice_get syntax.now.classes place }
    ensures lower { IfSome result (λ c. IsLowerClass (length syntax.now.nodes) c.now) }
{
    if place < syntax.class_count() {
        Some(class_in(syntax, place))
    } else {
        None
    }
}

/// The first of some operands: none, the last one, or one before others.
pub(crate) enum Operand<'a> {
    Nothing,
    Last(Id<PyNodes>),
    More(Id<PyNodes>, &'a [Id<PyNodes>]),
}

/// The first of some operands.
pub(crate) fn operand_of(ids: &[Id<PyNodes>]) -> Operand<'_>
    ensures { IsOperand ids.now result }
{
    match ids {
        [] => Operand::Nothing,
        [id] => Operand::Last(*id),
        [id, rest @ ..] => Operand::More(*id, rest),
    }
}

/// The first of some trailers: none, the last one, or one before others.
pub(crate) enum Tail<'a> {
    Nothing,
    Last(&'a Trailer),
    More(&'a Trailer, &'a [Trailer]),
}

/// The first of some trailers.
pub(crate) fn tail_of(trailers: &[Trailer]) -> Tail<'_>
    ensures { IsTail trailers.now result }
{
    match trailers {
        [] => Tail::Nothing,
        [trailer] => Tail::Last(trailer),
        [trailer, rest @ ..] => Tail::More(trailer, rest),
    }
}
