//! Laws of the tokens of a text.

ghost use Rattle.lx_token.specs.Order.{TokensRise};
ghost use Rattle.lx_token.specs.Slices.{TokensAreSlices};

/// The tokens of a text are slices of it, none of which starts before the one in front of it ends; the last one is End,
/// which stands at the end of the text.
pub fn tokens_rise()
    ensures { TokensRise }
{}

/// Each token of a text is a piece of it, of the kind that stands there, or an empty slice.
pub fn tokens_are_slices()
    ensures { TokensAreSlices }
{}
