//! The sheet of a lowered design.

ghost use Rattle.std.specs.Prelude.{◌≡◌, IfOk};
ghost use Rattle.lx_emission.specs.Emits.{CanBeEmitted};
ghost use Rattle.lx_sheet.specs.Plans.{plan};

use crate::drives::drives;
use crate::lowered::Lowered;
use crate::marks::marks;
use crate::numbers::numbers;
use lx_fhdl::Design;
use lx_sheet::{Sheet, Tables};
use lx_text::{List, NoMemory, Word};
use lx_width::expr_shapes;
use std::alloc::Global;

/// The sheet of a lowered design.
pub fn sheet<'a>(
    alloc: Global,
    design: &'a Design,
    names: &'a List<Word>,
) -> Result<Sheet<'a>, NoMemory>
    requires { CanBeEmitted design.now names.now }
    ensures { IfOk result (λ sheet. sheet ≡ plan design.now names.now) }
{
    let lowered = Lowered::new(design);
    let shapes = expr_shapes(alloc, design)?;
    let numbers = numbers(alloc, design)?;
    let ports = marks(alloc, &lowered)?;
    let drives = drives(alloc, &lowered, ports.as_slice())?;
    let tables = Tables {
        shapes,
        numbers,
        ports,
        drives,
    };
    Ok(Sheet::new(design, names, tables))
}
