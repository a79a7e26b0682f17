//! Laws of the grammar.

ghost use Rattle.std.specs.Prelude.{◌≡◌, List};
ghost use Rattle.lx_grammar.specs.declared.sign.Item.{Item};
ghost use Rattle.lx_grammar.specs.Derives.{Tree, IsTreeOf};

/// A list of tokens has at most one tree.
pub fn one_tree_law()
    ensures { (items : List Item) (t u : Tree) → IsTreeOf items t → IsTreeOf items u → t ≡ u }
{}
