//! The budget of work that running a description may spend.

ghost use Rattle.std.specs.Prelude.{◌≡◌, ◌+◌, ◌≤◌, ◌↔◌, IsTrue};
ghost use Rattle.std.specs.Bool.{OnTrue, OnFalse};
ghost use Rattle.lx_text.specs.Limits.{limit_number};

use lx_text::LimitKind;
use lx_text::faults::greatest;
use std::marker::Model;

/// The units of work that were spent, at most the limit of work: a contract sees it as their number.
#[derive(Drop)]
pub struct Budget {
    spent: u64,
}

impl Model for Budget {
    ghost use Rattle.std.specs.Prelude.{ℕ, ◌≤◌};
    ghost use Rattle.lx_text.specs.Limits.{limit_number};
    ghost use Rattle.lx_text.specs.declared.faults.LimitKind.TheVariants as limit;

    ghost Value = { ℕ };

    ghost view = { λ budget. budget.spent };

    ghost invariant = { λ budget. budget.spent ≤ limit_number limit.Work };
}

impl Budget {
    /// Nothing is spent.
    pub fn new() -> Budget
        ensures { result ≡ 0 }
    {
        Budget { spent: 0 }
    }

    /// Spends so many units, or says that the limit would be passed and spends none of them.
    pub fn spend(&mut self, units: u64) -> bool
        ensures granted { IsTrue result ↔ (self.old + units ≤ limit_number LimitKind.Work) }
        ensures spent { OnTrue result (self.new ≡ self.old + units) }
        ensures refused { OnFalse result (self.new ≡ self.old) }
    {
        let left = greatest(LimitKind::Work) as u64 - self.spent;
        if units > left {
            return false;
        }
        self.spent += units;
        true
    }
}
