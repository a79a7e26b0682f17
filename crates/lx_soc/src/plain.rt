//! The system of a circuit without a bus.

ghost use Rattle.lx_soc.specs.Surveyed.{IsPlain};

use crate::system::System;
use lx_csr::RegisterMap;
use lx_fhdl::{Design, Placement};
use lx_text::{List, Word};
use std::alloc::Global;

impl System {
    /// The system of a circuit that has no bus: none of its parts has a place.
    pub fn plain(alloc: Global, design: Design, top: Word) -> System
        ensures { IsPlain design top result }
    {
        System {
            design,
            map: RegisterMap::none(alloc),
            placement: Placement {
                regions: List::new(alloc),
                banks: List::new(alloc),
                irqs: List::new(alloc),
            },
            constants: List::new(alloc),
            rams: List::new(alloc),
            top,
        }
    }
}
