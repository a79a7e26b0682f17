//! Copies of what stands in the machine.

ghost use Rattle.std.specs.Prelude.{◌≡◌, ◌++◌, ◌∷◌, [], IfOk, OnOk};

use lx_state::lists::copied;
use lx_state::machine::{Form, Made, MadeArm};
use lx_text::{List, NoMemory};
use std::alloc::Global;

/// Adds these items.
pub fn push_all<T: Copy + Drop>(into: &mut List<T>, items: &[T]) -> Result<(), NoMemory>
    ensures { OnOk result (into.new ≡ into.old ++ items.now) }
{
    for item in items {
        into.push(*item)?;
    }
    Ok(())
}

// Adds a copy of a key of a `Case` with its statements.
fn push_arm(into: &mut List<MadeArm>, alloc: Global, arm: &MadeArm) -> Result<(), NoMemory>
    ensures { OnOk result (into.new ≡ into.old ++ arm.now ∷ []) }
{
    let body = copied(alloc, &arm.body)?;
    into.push(MadeArm { key: arm.key, body })
}

fn arms_copied(alloc: Global, arms: &[MadeArm]) -> Result<List<MadeArm>, NoMemory>
    ensures { IfOk result (λ list. list ≡ arms.now) }
{
    let mut list = List::new(alloc);
    for arm in arms {
        push_arm(&mut list, alloc, arm)?;
    }
    Ok(list)
}

fn form_copied(alloc: Global, form: &Form) -> Result<Form, NoMemory>
    ensures { IfOk result (λ copy. copy ≡ form.now) }
{
    match form {
        Form::Assign { target, value } => Ok(Form::Assign {
            target: *target,
            value: *value,
        }),
        Form::If { before, cond, body } => Ok(Form::If {
            before: *before,
            cond: *cond,
            body: copied(alloc, body)?,
        }),
        Form::Else { before, body } => Ok(Form::Else {
            before: *before,
            body: copied(alloc, body)?,
        }),
        Form::Case { on, arms, rest } => Ok(Form::Case {
            on: *on,
            arms: arms_copied(alloc, arms.as_slice())?,
            rest: copied(alloc, rest)?,
        }),
        Form::NextState { name } => Ok(Form::NextState { name: *name }),
        Form::NextValue { target, value } => Ok(Form::NextValue {
            target: *target,
            value: *value,
        }),
    }
}

/// A copy of a statement.
pub fn made_copied(alloc: Global, made: &Made) -> Result<Made, NoMemory>
    ensures { IfOk result (λ copy. copy ≡ made.now) }
{
    let form = form_copied(alloc, &made.form)?;
    Ok(Made {
        form,
        line: made.line,
        size: made.size,
        depth: made.depth,
        in_state: made.in_state,
    })
}
