//! Whether a description is a circuit and nothing beside.

ghost use Rattle.std.specs.Prelude.{◌≡◌, not};
ghost use Rattle.std.specs.List.{list_all};
ghost use Rattle.lx_description.specs.PlainModule.{is_nothing, is_plain};
ghost use Rattle.lx_fhdl.specs.declared.design.Signal.{Signal};

use crate::description::Description;
use lx_fhdl::Signal;

// Whether each signal has a path.
fn have_paths(signals: &[Signal]) -> bool
    ensures { result ≡ list_all (λ (s : Signal). not (is_nothing s.path)) signals.now }
{
    for signal in signals {
        if signal.path.is_empty() {
            return false;
        }
    }
    true
}

/// Whether a description is no system, and declares no memories, no ports of them, no FSMs and no slaves; and each of its
/// signals has a path.
pub fn is_plain(description: &Description) -> bool
    ensures { result ≡ is_plain description.now }
{
    !description.soc
        && description.fsms.is_empty()
        && description.slaves.is_empty()
        && description.design.memories.is_empty()
        && description.design.ports.is_empty()
        && have_paths(description.design.signals.as_slice())
}
