//! Lowered designs whose modules are made.

ghost use Rattle.std.specs.Prelude.{◌≡◌};
ghost use Rattle.lx_sheet.specs.Lowered.{IsFit};

use lx_fhdl::Design;
use std::marker::Model;

/// A lowered design that keeps what designs keep, and whose memories fit.
#[derive(Drop)]
pub struct Lowered<'a> {
    pub(crate) design: &'a Design,
}

impl<'a> Model for Lowered<'a> {
    ghost use Rattle.lx_fhdl.specs.declared.design.Design.{Design};

    ghost Value = { Design };

    ghost use Rattle.lx_sheet.specs.Lowered.{IsFit};

    ghost view = { λ a. a.design.now };

    ghost invariant = { λ a. IsFit a.design.now };
}

impl<'a> Lowered<'a> {
    /// This design.
    pub fn new(design: &'a Design) -> Lowered<'a>
        requires { IsFit design.now }
        ensures { result ≡ design.now }
    {
        Lowered { design }
    }
}
