//! A system.

ghost use Rattle.std.specs.Prelude.{IsTrue};
ghost use Rattle.lx_soc.specs.Told.{are_constants, are_numbered, are_regions, are_registers};

use lx_csr::RegisterMap;
use lx_description::ConstDecl;
use lx_fhdl::{Design, Placement};
use lx_text::{List, Word};

/// A system whose registers, regions, banks and interrupts have their places. All its names are made of letters, digits
/// and `_`. A top that is no `SoCCore` has none of them.
#[derive(Drop)]
pub struct System {
    /// The circuit.
    pub design: Design,
    /// The registers, in order of address.
    pub map: RegisterMap,
    /// The regions, the first one that of the registers; the numbers of the banks and of the interrupts. Each list stands
    /// in declared order.
    pub placement: Placement,
    /// The constants for software beside the numbers of interrupts: those of the modules under their full names
    /// (`CSRConstant`), then those that the top adds itself (`add_constant`).
    pub constants: List<ConstDecl>,
    /// The regions that are memories which the bus writes (`add_ram`), in declared order.
    pub rams: List<Word>,
    /// The name of the top's class.
    pub top: Word,
    pub ghost registers: { IsTrue (are_registers map) },
    pub ghost regions: { IsTrue (are_regions placement.regions) },
    pub ghost banks: { IsTrue (are_numbered placement.banks) },
    pub ghost interrupts: { IsTrue (are_numbered placement.irqs) },
    pub ghost numbers: { IsTrue (are_constants constants) },
}
