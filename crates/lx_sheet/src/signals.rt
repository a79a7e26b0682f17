//! Signals of a sheet's design.

ghost use Rattle.std.specs.Prelude.{◌≡◌, ◌<◌, length, IfOk};
ghost use Rattle.lx_fhdl.specs.Designs.{shapes};
ghost use Rattle.lx_emission.specs.Emission.{is_port};
ghost use Rattle.lx_emission.specs.Signals.{drive};
ghost use Rattle.lx_sheet.specs.Drives.{IsPlainDrive, IsThere, drive_of};
ghost use Rattle.lx_sheet.specs.Plans.{net_in};

use crate::drive::Drive;
use crate::tables::Sheet;
use lx_fhdl::SigId;
use lx_num::Shape;
use lx_text::{NoMemory, Word};
use std::alloc::Global;

/// A signal of a sheet's design.
#[derive(Clone, Copy)]
pub struct SignalOf<'a> {
    pub sheet: &'a Sheet<'a>,
    pub id: SigId,
    pub ghost there: { id.0 < length sheet.now.design.signals },
}

impl<'a> SignalOf<'a> {
    /// The signal of this number.
    pub fn new(sheet: &'a Sheet<'a>, id: SigId) -> SignalOf<'a>
        requires { id.0 < length sheet.now.design.signals }
        ensures sheet { result.sheet.now ≡ sheet.now }
        ensures id { result.id ≡ id }
    {
        SignalOf { sheet, id }
    }

    /// The name of its net.
    pub fn name(self, alloc: Global) -> Result<Word, NoMemory>
        ensures { IfOk result (λ word. word ≡ net_in self.entry.sheet.now self.entry.id.0) }
    {
        let sheet = self.sheet;
        sheet.names.at(self.id.0).copied(alloc)
    }

    /// Its shape.
    pub fn shape(self) -> Shape
        ensures is { result ≡ shapes self.entry.sheet.now.design self.entry.id.0 }
        ensures narrow { result.bits < 128 }
    {
        let sheet = self.sheet;
        sheet.design.signals.at(self.id.0).shape
    }

    /// Whether it is a port, or a domain's reset.
    pub fn is_port(self) -> bool
        ensures { result ≡ is_port self.entry.sheet.now.design self.entry.id.0 }
    {
        let sheet = self.sheet;
        *sheet.tables.ports.at(self.id.0)
    }

    /// How its net is driven.
    pub fn drive(self) -> &'a Drive
        ensures drive { drive_of result.now ≡ drive self.entry.sheet.now.design self.entry.id.0 }
        ensures there { IsThere self.entry.sheet.now.design (drive_of result.now) }
        ensures plain { IsPlainDrive self.entry.sheet.now.design (drive_of result.now) }
    {
        let sheet = self.sheet;
        sheet.tables.drives.at(self.id.0)
    }
}
