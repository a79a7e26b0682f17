//! Which descriptions are built.

ghost use Rattle.std.specs.Prelude.{◌≡◌};
ghost use Rattle.lx_top.specs.Modules.{is_module};

use lx_description::Description;

/// Whether a description is one that is built: no system, and without FSMs and slaves.
pub fn is_module(description: &Description) -> bool
    ensures { result ≡ is_module description.now }
{
    !description.soc && description.fsms.is_empty() && description.slaves.is_empty()
}
