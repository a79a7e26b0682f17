//! Laws of the forms of trees.

ghost use Rattle.std.specs.Prelude.{ℕ, List, map};
ghost use Rattle.lx_token.specs.declared.tokens.Token.{Token};
ghost use Rattle.lx_grammar.specs.Derives.{Tree, IsTreeOf};
ghost use Rattle.lx_grammar.specs.Signs.{item_of};
ghost use Rattle.lx_syntax.specs.Classes.{classes};
ghost use Rattle.lx_formed.specs.Formed.{AreClasses};

/// Nothing in the classes of a tree that the grammar derives is misshapen.
pub fn forms_law()
    ensures { (src : List ℕ) (tokens : List Token) (t : Tree) → IsTreeOf (map (item_of src) tokens) t → AreClasses (classes src t) }
{}
