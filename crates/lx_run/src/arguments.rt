//! The arguments of a call as they are run.

ghost use Rattle.std.specs.Prelude.{◌≡◌, IfOk};
ghost use Rattle.lx_run.specs.Calls.{no_arguments, with_held, with_named, with_placed};

use lx_builtins::Arguments;
use lx_ops::Holder;
use lx_state::values::Value;
use lx_text::{List, NoMemory, Word};
use std::alloc::Global;

/// No argument.
pub(crate) fn no_arguments(alloc: Global) -> Arguments
    ensures { result ≡ no_arguments }
{
    Arguments {
        placed: List::new(alloc),
        names: List::new(alloc),
        named: List::new(alloc),
        part: None,
    }
}

/// A value or a fragment behind other arguments; a fragment stands beside a None in its place.
pub(crate) fn with_held(so_far: Arguments, held: Holder) -> Result<Arguments, NoMemory>
    ensures { IfOk result (λ args. args ≡ with_held held so_far) }
{
    let mut args = so_far;
    match held {
        Holder::Plain(value) => args.placed.push(value)?,
        Holder::Part(part) => {
            args.placed.push(Value::Nothing)?;
            args.part = Some(part);
        }
    }
    Ok(args)
}

/// Values behind other arguments.
pub(crate) fn with_items(so_far: Arguments, values: &[Value]) -> Result<Arguments, NoMemory>
    ensures { IfOk result (λ args. args ≡ with_placed values.now so_far) }
{
    let mut args = so_far;
    for value in values {
        args.placed.push(*value)?;
    }
    Ok(args)
}

/// A value with a name behind other arguments.
pub(crate) fn with_named(
    alloc: Global,
    so_far: Arguments,
    name: &[u8],
    value: Value,
) -> Result<Arguments, NoMemory>
    ensures { IfOk result (λ args. args ≡ with_named name.now value so_far) }
{
    let mut args = so_far;
    args.names.push(Word::new(alloc, name)?)?;
    args.named.push(value)?;
    Ok(args)
}
