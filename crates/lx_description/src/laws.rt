//! Laws over all descriptions, and descriptions that keep what descriptions keep.

ghost use Rattle.lx_description.specs.Instance.{and_description, system};
ghost use Rattle.lx_description.specs.Keeping.{KeepsDescription};
ghost use Rattle.lx_description.specs.Laws.{PlainKeeps, TestHolds};
ghost use Rattle.lx_description.specs.PlainModule.{ArePlain};
ghost use Rattle.lx_description.specs.Rows.{AreRefused};

/// A description that passes the test keeps what descriptions keep.
pub fn kept_law()
    ensures { TestHolds }
{}

/// A plain module with nothing declared beside its circuit keeps what its design keeps.
pub fn plain_law()
    ensures { PlainKeeps }
{}

/// A plain module, and a system with a register, an event manager, an FSM and a RAM keep what descriptions keep.
pub fn some_descriptions_keep()
    ensures plain { KeepsDescription and_description }
    ensures system { KeepsDescription system }
{}

/// Descriptions that are nearly like them don't.
pub fn others_are_refused()
    ensures { AreRefused }
{}

/// Which descriptions are a circuit and nothing beside, worked by hand.
pub fn plain_modules_are_worked()
    ensures { ArePlain }
{}
