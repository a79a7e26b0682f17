//! The attributes of a module and of all that were added below it with a name, in order.

ghost use Rattle.std.specs.Prelude.{◌≡◌, ◌++◌, ◌∷◌, [], slice_get, OnOk};
ghost use Rattle.lx_fhdl.specs.Keeping.{EachOf};
ghost use Rattle.lx_csr.specs.Collected.{attributes, registers_of};
ghost use Rattle.lx_csr.specs.Gathered.{HasRoom, with_attributes};
ghost use Rattle.lx_csr.specs.Walked.{AreNested, IsFrame, WentOn, below_frames, pending};

use crate::gathering::{Gathered, add_part};
use crate::names::joined;
use lx_description::{ModuleDecl, Part};
use lx_text::{List, NoMemory, Word};
use std::alloc::Global;

// A module whose attributes are being walked.
#[derive(Drop)]
struct Frame {
    // Its place among the modules.
    place: usize,
    // Its full name.
    name: Word,
    // The attribute that comes next.
    next: usize,
}

// The submodule that an attribute is, where it was added with a name: it is walked first.
fn push_below(
    stack: &mut List<Frame>,
    alloc: Global,
    modules: &List<ModuleDecl>,
    owner: &[u8],
    part: &Part,
) -> Result<(), NoMemory>
    ensures { OnOk result (stack.new ≡ stack.old ++ below_frames modules.now owner.now part.now) }
{
    if let Part::Module(k) = part {
        if let Some(module) = modules.get(*k) {
            if module.named {
                stack.push(Frame {
                    place: *k,
                    name: joined(alloc, owner, module.name.as_bytes())?,
                    next: 0,
                })?;
            }
        }
    }
    Ok(())
}

// The next attribute of the module on top of the stack.
fn step(
    gathered: &mut Gathered,
    alloc: Global,
    modules: &List<ModuleDecl>,
    stack: &mut List<Frame>,
    frame: Frame,
) -> Result<(), NoMemory>
    requires nested { AreNested modules.now }
    requires frames { EachOf (IsFrame modules.now) (stack.old ++ frame ∷ []) }
    requires room { HasRoom gathered.old (registers_of (pending modules.now (stack.old ++ frame ∷ []))) }
    ensures { OnOk result (WentOn modules.now gathered.old gathered.new (stack.old ++ frame ∷ []) stack.new) }
{
    let module = modules.at(frame.place);
    if frame.next < module.parts.len() {
        let part = module.parts.at(frame.next);
        add_part(gathered, alloc, frame.name.as_bytes(), part)?;
        let owner = frame.name.copied(alloc)?;
        stack.push(Frame {
            place: frame.place,
            name: frame.name,
            next: frame.next + 1,
        })?;
        push_below(stack, alloc, modules, owner.as_bytes(), part)?;
    }
    Ok(())
}

/// Adds what the module at this place declares, and all below it that were added with a name.
pub(crate) fn walk(
    gathered: &mut Gathered,
    alloc: Global,
    modules: &List<ModuleDecl>,
    place: usize,
    module: &ModuleDecl,
) -> Result<(), NoMemory>
    requires nested { AreNested modules.now }
    requires there { slice_get modules.now place ≡ Some module.now }
    requires room { HasRoom gathered.old (registers_of (attributes modules.now module.now.name module.now)) }
    ensures { OnOk result (gathered.new ≡ with_attributes gathered.old (attributes modules.now module.now.name module.now)) }
{
    let mut stack = List::of_one(
        alloc,
        Frame {
            place,
            name: module.name.copied(alloc)?,
            next: 0,
        },
    )?;
    while let Some(frame) = stack.pop() {
        step(gathered, alloc, modules, &mut stack, frame)?;
    }
    Ok(())
}
