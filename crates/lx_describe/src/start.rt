//! The machine of a description that has not begun.

ghost use Rattle.std.specs.Prelude.{◌≡◌};
ghost use Rattle.lx_describe.specs.Start.{start};

use lx_arena::Arena;
use lx_names::Table;
use lx_shaped::Shaped;
use lx_state::machine::{Frame, Machine, Specials, SystemState};
use lx_text::List;
use lx_value::Budget;
use std::alloc::Global;

/// A machine in which nothing was made, bound or spent.
pub fn start(alloc: Global) -> Machine
    ensures { result ≡ start }
{
    Machine {
        spent: Budget::new(),
        nodes: 0,
        classes: List::new(alloc),
        shaped: Shaped::new(alloc),
        owners: List::new(alloc),
        objects: List::new(alloc),
        modules: List::new(alloc),
        fsms: List::new(alloc),
        memories: List::new(alloc),
        memory_objects: List::new(alloc),
        words: 0,
        ports: List::new(alloc),
        registers: List::new(alloc),
        fields: List::new(alloc),
        constants: List::new(alloc),
        managers: List::new(alloc),
        sources: List::new(alloc),
        regions: List::new(alloc),
        interfaces: List::new(alloc),
        system: SystemState {
            base: 0xf0000000,
            line: 0,
            regions: List::new(alloc),
            slaves: List::new(alloc),
            fixes: List::new(alloc),
            irqs: List::new(alloc),
            constants: List::new(alloc),
        },
        texts: List::new(alloc),
        lists: List::new(alloc),
        dictionaries: List::new(alloc),
        made: List::new(alloc),
        fsm_stmts: Arena::new(alloc),
        domains: Table::new(alloc),
        specials: Specials {
            fields: List::new(alloc),
            comb: List::new(alloc),
            sync: List::new(alloc),
        },
        frame: Frame {
            locals: Table::new(alloc),
            this: None,
            class: 0,
        },
    }
}
