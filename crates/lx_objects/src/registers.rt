//! Registers for software: what `CSRField`, `CSRStorage`, `CSRStatus`, `CSR` and `CSRConstant` make.

ghost use Rattle.std.specs.Prelude.{◌≡◌, ◌+◌, ◌≤◌, ◌^◌, ◌∷◌, [], ◌++◌, IfOk, OnOk, Some, map, pos, ◌≤ℤ◌, ◌<ℤ◌};
ghost use Rattle.lx_num.specs.Fields.{with_field_of};
ghost use Rattle.lx_description.specs.Wires.{device_wires, register_wires};
ghost use Rattle.lx_description.specs.declared.registers.RegKind.TheVariants as kind;
ghost use Rattle.lx_state.specs.Step.{Gives};
ghost use Rattle.lx_objects.specs.Registers.{IsReset, constant_made, device_parts, drive_bits, drive_field, drive_fields, drive_status, field_made, field_part, field_wire, fields_end, fitting, keep_constant, keep_field, keep_register, laid, laid_at, lowest, part_of, pin_reads, pin_signals, register_made, register_parts, wire_made, wire_of, wire_signal, wires_made, with_first, with_pins, with_resets};
ghost use Rattle.lx_objects.specs.Signals.{new_signal};

use crate::exprs::{put_expr, put_target};
use crate::signals::new_signal;
use crate::statements::keep_made;
use lx_description::{ConstValue, Field, RegDecl, RegKind};
use lx_fhdl::{Expr, ExprId, SigId, Signal, Target};
use lx_num::{Shape, with_field, wrap};
use lx_state::machine::{FieldState, Form, Machine, Made, RegisterState, What};
use lx_state::values::Value;
use lx_text::{List, NoMemory, Refusal, Text, Word};
use std::alloc::Global;

/// A signal that is a part of an object, and the expression that reads it.
#[derive(Clone, Copy)]
pub struct Pin {
    pub signal: SigId,
    pub read: ExprId,
}

/// A signal that is to be made: an unsigned part of an object.
#[derive(Drop)]
pub struct Plan {
    /// The name of the part.
    pub name: Word,
    pub bits: u8,
    /// Its first value, which is taken modulo 2 to its bits.
    pub reset: i128,
    /// Whether a register, a source or a manager gives it its value.
    pub given: bool,
}

// ---- fields

#[tactic(auto, unfolding(crate::specs::Registers::keep_field))]
fn keep_field(machine: &mut Machine, field: FieldState) -> Result<(), Refusal>
    ensures { Gives result machine.new (keep_field field machine.old) }
{
    machine.fields.push(field)?;
    Ok(())
}

/// Makes a `CSRField`, which belongs to no register yet.
#[tactic(auto, unfolding(crate::specs::Registers::field_made))]
pub fn field_made(machine: &mut Machine, field: FieldState) -> Result<Value, Refusal>
    ensures { Gives result machine.new (field_made field machine.old) }
{
    let place = machine.fields.len();
    let object = machine.object_made(What::Field(place), field.line, None)?;
    keep_field(machine, field)?;
    Ok(Value::Object(object))
}

// The lowest bit of a field behind one that ends at this bit.
fn lowest(end: u8, field: &FieldState) -> u8
    ensures { result ≡ lowest end field.now }
{
    field.offset.unwrap_or(end)
}

// Lays a field so that this is its lowest bit.
fn push_laid(
    alloc: Global,
    into: &mut List<Field>,
    low: u8,
    field: &FieldState,
) -> Result<(), NoMemory>
    ensures { OnOk result (into.new ≡ into.old ++ laid_at low field.now ∷ []) }
{
    let name = field.name.copied(alloc)?;
    into.push(Field {
        name,
        offset: low,
        size: field.size,
        reset: field.reset,
        line: field.line,
    })?;
    Ok(())
}

/// The fields of a register at their places: one without an offset begins where the one before it ends. There is no answer
/// where one ends past bit 64.
#[tactic(auto, unfolding(crate::specs::Registers::laid), using(crate::proofs::Laid::fits))]
pub fn lay(alloc: Global, fields: &[FieldState]) -> Result<Option<List<Field>>, NoMemory>
    ensures { IfOk result (λ found. found ≡ fitting (laid 0 fields.now)) }
{
    let mut done = List::new(alloc);
    let mut end: u8 = 0;
    for field in fields {
        let low = lowest(end, field);
        if low as u16 + field.size as u16 > 64 {
            return Ok(None);
        }
        push_laid(alloc, &mut done, low, field)?;
        end = low + field.size;
    }
    Ok(Some(done))
}

/// The greatest end of fields that lie in 64 bits: the size of their register.
#[tactic(auto, unfolding(crate::specs::Registers::fields_end), using(crate::proofs::Laid::end_there))]
pub fn fields_end(fields: &[Field]) -> u8
    requires within { fields_end fields.now ≤ 64 }
    ensures { result ≡ fields_end fields.now }
{
    let mut end: u8 = 0;
    for field in fields {
        end = end.max(field.offset + field.size);
    }
    end
}

// A value with the first value of a field in it. A field of no bits changes nothing.
#[tactic(auto, using(crate::proofs::Laid::nothing_laid))]
fn with_reset(value: i128, field: &Field) -> i128
    requires from_zero { pos 0 ≤ℤ value }
    requires within { value <ℤ pos (2 ^ 64) }
    requires end { field.now.offset + field.now.size ≤ 64 }
    ensures value { result ≡ with_field_of value field.now.offset field.now.size field.now.reset }
    ensures from_zero { pos 0 ≤ℤ result }
    ensures within { result <ℤ pos (2 ^ 64) }
{
    if field.size == 0 {
        return value;
    }
    with_field(value, field.offset, field.size, field.reset)
}

/// The first value of a register that has these fields, which lie in 64 bits. Where two share a bit the later one counts.
#[tactic(auto, unfolding(crate::specs::Registers::with_resets), using(crate::proofs::Laid::end_there))]
pub fn with_resets(fields: &[Field]) -> i128
    requires within { fields_end fields.now ≤ 64 }
    ensures { result ≡ with_resets (pos 0) fields.now }
{
    let mut value: i128 = 0;
    for field in fields {
        value = with_reset(value, field);
    }
    value
}

// ---- signals

// The first value of a signal. One of no bits, or of more than 64, isn't made.
fn first_value(plan: &Plan) -> i128
    ensures { IsReset plan.now.bits plan.now.reset result }
{
    if plan.bits < 1 || plan.bits > 64 {
        return 0;
    }
    let shape = Shape {
        bits: plan.bits,
        signed: false,
    };
    wrap(plan.reset, shape)
}

fn wire_signal(alloc: Global, line: u32, plan: &Plan) -> Signal
    ensures first { IsReset plan.now.bits plan.now.reset result.reset }
    ensures signal { result ≡ with_first result.reset (wire_signal line (wire_of plan.now)) }
{
    let reset = first_value(plan);
    Signal {
        path: List::new(alloc),
        shape: Shape {
            bits: plan.bits,
            signed: false,
        },
        reset,
        reset_less: false,
        by_bus: plan.given,
        line,
    }
}

fn new_wire(
    machine: &mut Machine,
    alloc: Global,
    line: u32,
    object: usize,
    plan: &Plan,
) -> Result<SigId, Refusal>
    ensures { Gives result machine.new (new_signal line (wire_signal line (wire_of plan.now)) object (Some plan.now.name) machine.old) }
{
    let name = plan.name.copied(alloc)?;
    let signal = wire_signal(alloc, line, plan);
    new_signal(machine, line, signal, object, Some(name))
}

/// Makes a signal that is a part of an object.
#[tactic(auto, unfolding(crate::specs::Registers::wire_made))]
pub(crate) fn wire_made(
    machine: &mut Machine,
    alloc: Global,
    line: u32,
    object: usize,
    plan: &Plan,
) -> Result<Pin, Refusal>
    ensures { Gives result machine.new (wire_made line object (wire_of plan.now) plan.now.name machine.old) }
{
    let signal = new_wire(machine, alloc, line, object, plan)?;
    let read = put_expr(machine, line, Expr::Sig(signal))?;
    Ok(Pin { signal, read })
}

/// Makes signals that are parts of an object, in their order.
#[tactic(auto, unfolding(crate::specs::Registers::wires_made))]
pub(crate) fn wires_made(
    machine: &mut Machine,
    alloc: Global,
    line: u32,
    object: usize,
    plans: &[Plan],
) -> Result<List<Pin>, Refusal>
    ensures { Gives result machine.new (wires_made line object (map wire_of plans.now) (map part_of plans.now) machine.old) }
{
    let mut pins = List::new(alloc);
    for plan in plans {
        let pin = wire_made(machine, alloc, line, object, plan)?;
        pins.push(pin)?;
    }
    Ok(pins)
}

/// Adds a signal of this name, so many bits and this first value to those that are to be made.
#[tactic(auto, using(crate::proofs::Wires::wire_more, crate::proofs::Wires::part_more))]
pub(crate) fn add_plan(
    alloc: Global,
    plans: &mut List<Plan>,
    name: &[u8],
    bits: u8,
    reset: i128,
    given: bool,
) -> Result<(), NoMemory>
    ensures wires { OnOk result (map wire_of plans.new ≡ map wire_of plans.old ++ record { bits = bits; reset = reset; given = given } ∷ []) }
    ensures parts { OnOk result (map part_of plans.new ≡ map part_of plans.old ++ name.now ∷ []) }
{
    let name = Word::new(alloc, name)?;
    plans.push(Plan {
        name,
        bits,
        reset,
        given,
    })?;
    Ok(())
}

// `we` and `dat_w` of a storage that the circuit may write.
fn add_device(
    alloc: Global,
    plans: &mut List<Plan>,
    size: u8,
    from_dev: bool,
) -> Result<(), NoMemory>
    ensures wires { OnOk result (map wire_of plans.new ≡ map wire_of plans.old ++ device_wires size from_dev) }
    ensures parts { OnOk result (map part_of plans.new ≡ map part_of plans.old ++ device_parts from_dev) }
{
    if from_dev {
        add_plan(alloc, plans, b"we", 1, 0, false)?;
        add_plan(alloc, plans, b"dat_w", size, 0, false)?;
    }
    Ok(())
}

// The name of a field's signal, as a part of its register.
fn field_part(alloc: Global, field: &Field) -> Result<Word, NoMemory>
    ensures { IfOk result (λ word. word ≡ field_part field.now) }
{
    let mut text = Text::new(alloc);
    text.word(b"fields_")?;
    text.word(field.name.as_bytes())?;
    Ok(Word::from_list(text.into_list()))
}

fn add_field(
    alloc: Global,
    plans: &mut List<Plan>,
    given: bool,
    field: &Field,
) -> Result<(), NoMemory>
    ensures wires { OnOk result (map wire_of plans.new ≡ map wire_of plans.old ++ field_wire given field.now ∷ []) }
    ensures parts { OnOk result (map part_of plans.new ≡ map part_of plans.old ++ field_part field.now ∷ []) }
{
    let name = field_part(alloc, field)?;
    add_plan(
        alloc,
        plans,
        name.as_bytes(),
        field.size,
        field.reset,
        given,
    )
}

fn add_fields(
    alloc: Global,
    plans: &mut List<Plan>,
    given: bool,
    fields: &[Field],
) -> Result<(), NoMemory>
    ensures wires { OnOk result (map wire_of plans.new ≡ map wire_of plans.old ++ map (field_wire given) fields.now) }
    ensures parts { OnOk result (map part_of plans.new ≡ map part_of plans.old ++ map field_part fields.now) }
{
    for field in fields {
        add_field(alloc, plans, given, field)?;
    }
    Ok(())
}

fn storage_plans(alloc: Global, decl: &RegDecl) -> Result<List<Plan>, NoMemory>
    ensures wires { IfOk result (λ plans. map wire_of plans ≡ register_wires decl.now kind.Storage) }
    ensures parts { IfOk result (λ plans. map part_of plans ≡ register_parts decl.now kind.Storage) }
{
    let mut plans = List::new(alloc);
    add_plan(alloc, &mut plans, b"storage", decl.size, decl.reset, true)?;
    add_plan(alloc, &mut plans, b"re", 1, 0, true)?;
    add_device(alloc, &mut plans, decl.size, decl.from_dev)?;
    add_fields(alloc, &mut plans, true, decl.fields.as_slice())?;
    Ok(plans)
}

fn status_plans(alloc: Global, decl: &RegDecl) -> Result<List<Plan>, NoMemory>
    ensures wires { IfOk result (λ plans. map wire_of plans ≡ register_wires decl.now kind.Status) }
    ensures parts { IfOk result (λ plans. map part_of plans ≡ register_parts decl.now kind.Status) }
{
    let mut plans = List::new(alloc);
    add_plan(alloc, &mut plans, b"status", decl.size, decl.reset, false)?;
    add_plan(alloc, &mut plans, b"we", 1, 0, true)?;
    add_fields(alloc, &mut plans, false, decl.fields.as_slice())?;
    Ok(plans)
}

fn raw_plans(alloc: Global, decl: &RegDecl) -> Result<List<Plan>, NoMemory>
    ensures wires { IfOk result (λ plans. map wire_of plans ≡ register_wires decl.now kind.Raw) }
    ensures parts { IfOk result (λ plans. map part_of plans ≡ register_parts decl.now kind.Raw) }
{
    let mut plans = List::new(alloc);
    add_plan(alloc, &mut plans, b"r", decl.size, 0, true)?;
    add_plan(alloc, &mut plans, b"re", 1, 0, true)?;
    add_plan(alloc, &mut plans, b"w", decl.size, 0, false)?;
    add_plan(alloc, &mut plans, b"we", 1, 0, true)?;
    Ok(plans)
}

// The signals of a register. What an event manager declares makes none.
fn register_plans(alloc: Global, decl: &RegDecl) -> Result<List<Plan>, NoMemory>
    ensures wires { IfOk result (λ plans. map wire_of plans ≡ register_wires decl.now decl.now.kind) }
    ensures parts { IfOk result (λ plans. map part_of plans ≡ register_parts decl.now decl.now.kind) }
{
    match decl.kind {
        RegKind::Storage => storage_plans(alloc, decl),
        RegKind::Status => status_plans(alloc, decl),
        RegKind::Raw => raw_plans(alloc, decl),
        RegKind::Pending => Ok(List::new(alloc)),
    }
}

fn register_pins(
    machine: &mut Machine,
    alloc: Global,
    object: usize,
    decl: &RegDecl,
) -> Result<List<Pin>, Refusal>
    ensures { Gives result machine.new (wires_made decl.now.line object (register_wires decl.now decl.now.kind) (register_parts decl.now decl.now.kind) machine.old) }
{
    let plans = register_plans(alloc, decl)?;
    wires_made(machine, alloc, decl.line, object, plans.as_slice())
}

/// The signals of parts.
pub(crate) fn pin_signals(alloc: Global, pins: &[Pin]) -> Result<List<SigId>, NoMemory>
    ensures { IfOk result (λ signals. signals ≡ pin_signals pins.now) }
{
    let mut signals = List::new(alloc);
    for pin in pins {
        signals.push(pin.signal)?;
    }
    Ok(signals)
}

/// The expressions that read parts.
pub(crate) fn pin_reads(alloc: Global, pins: &[Pin]) -> Result<List<ExprId>, NoMemory>
    ensures { IfOk result (λ reads. reads ≡ pin_reads pins.now) }
{
    let mut reads = List::new(alloc);
    for pin in pins {
        reads.push(pin.read)?;
    }
    Ok(reads)
}

// ---- the fields of a status

// A field of a status drives its bits.
#[tactic(auto, unfolding(crate::specs::Registers::drive_field))]
fn drive_field(
    machine: &mut Machine,
    line: u32,
    status: SigId,
    field: &Field,
    pin: Pin,
) -> Result<(), Refusal>
    ensures { Gives result machine.new (drive_field line status field.now pin machine.old) }
{
    let target = put_target(
        machine,
        line,
        Target::Part {
            signal: status,
            low: field.offset,
            len: field.size,
        },
    )?;
    let place = machine.made.len();
    keep_made(
        machine,
        Made {
            form: Form::Assign {
                target,
                value: pin.read,
            },
            line: field.line,
            size: 1,
            depth: 1,
            in_state: false,
        },
    )?;
    machine.specials.fields.push(place)?;
    Ok(())
}

#[tactic(auto, unfolding(crate::specs::Registers::drive_fields))]
fn drive_fields(
    machine: &mut Machine,
    line: u32,
    status: SigId,
    fields: &[Field],
    pins: &[Pin],
) -> Result<(), Refusal>
    ensures { Gives result machine.new (drive_fields line status fields.now pins.now machine.old) }
{
    for (place, field) in fields.iter().enumerate() {
        if place >= pins.len() {
            return Ok(());
        }
        drive_field(machine, line, status, field, pins[place])?;
    }
    Ok(())
}

// The signals of a status are `status`, `we`, and those of its fields.
fn drive_status(
    machine: &mut Machine,
    line: u32,
    fields: &[Field],
    pins: &[Pin],
) -> Result<(), Refusal>
    ensures { Gives result machine.new (drive_status line fields.now pins.now machine.old) }
{
    match pins {
        [status, _, rest @ ..] => drive_fields(machine, line, status.signal, fields, rest),
        _ => Ok(()),
    }
}

fn drive_bits(machine: &mut Machine, decl: &RegDecl, pins: &[Pin]) -> Result<(), Refusal>
    ensures { Gives result machine.new (drive_bits decl.now.line decl.now decl.now.kind pins.now machine.old) }
{
    match decl.kind {
        RegKind::Status => drive_status(machine, decl.line, decl.fields.as_slice(), pins),
        RegKind::Storage | RegKind::Raw | RegKind::Pending => Ok(()),
    }
}

// ---- registers

fn with_pins(alloc: Global, decl: RegDecl, pins: &[Pin]) -> Result<RegisterState, NoMemory>
    ensures { IfOk result (λ register. register ≡ with_pins decl pins.now) }
{
    let mut decl = decl;
    decl.signals = pin_signals(alloc, pins)?;
    let reads = pin_reads(alloc, pins)?;
    Ok(RegisterState { decl, reads })
}

#[tactic(auto, unfolding(crate::specs::Registers::keep_register))]
fn keep_register(machine: &mut Machine, register: RegisterState) -> Result<(), Refusal>
    ensures { Gives result machine.new (keep_register register machine.old) }
{
    machine.registers.push(register)?;
    Ok(())
}

/// Makes the register that is declared so, with its signals, which are its parts. It has no name before it is described;
/// what the declaration says of its signals doesn't count. The fields of a status drive its bits.
#[tactic(auto, unfolding(crate::specs::Registers::register_made))]
pub fn register_made(
    machine: &mut Machine,
    alloc: Global,
    decl: RegDecl,
    given: Option<Word>,
) -> Result<Value, Refusal>
    ensures { Gives result machine.new (register_made decl given machine.old) }
{
    let place = machine.registers.len();
    let object = machine.object_made(What::Register(place), decl.line, given)?;
    let pins = register_pins(machine, alloc, object, &decl)?;
    drive_bits(machine, &decl, pins.as_slice())?;
    let register = with_pins(alloc, decl, pins.as_slice())?;
    keep_register(machine, register)?;
    Ok(Value::Object(object))
}

// ---- constants

#[tactic(auto, unfolding(crate::specs::Registers::keep_constant))]
fn keep_constant(machine: &mut Machine, value: ConstValue) -> Result<(), Refusal>
    ensures { Gives result machine.new (keep_constant value machine.old) }
{
    machine.constants.push(value)?;
    Ok(())
}

/// Makes a `CSRConstant`.
#[tactic(auto, unfolding(crate::specs::Registers::constant_made))]
pub fn constant_made(machine: &mut Machine, line: u32, value: ConstValue) -> Result<Value, Refusal>
    ensures { Gives result machine.new (constant_made line value machine.old) }
{
    let place = machine.constants.len();
    let object = machine.object_made(What::Constant(place), line, None)?;
    keep_constant(machine, value)?;
    Ok(Value::Object(object))
}
