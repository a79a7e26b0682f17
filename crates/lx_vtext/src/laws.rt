//! What ties the text of a module to its reading, as statements that other crates may build on.

ghost use Rattle.lx_vtext.specs.Laws.{OneText, ReadAgain, ReadIsText};
ghost use Rattle.lx_vtext.specs.Worked.{BoundsAreWorked};

/// Two modules never have the same text, so no text has two trees.
pub fn one_text_law()
    ensures { OneText }
{}

/// The reading of a module's text is that module, and bytes that read as a module are its text:
/// the bytes have a tree exactly where they read as one.
pub fn one_reading_law()
    ensures again { ReadAgain }
    ensures text { ReadIsText }
{}

/// Texts at their bounds, and one past them: 32 open brackets, 128 levels of statements, literals of 1 to 128 bits.
pub fn bounds_are_worked()
    ensures { BoundsAreWorked }
{}
