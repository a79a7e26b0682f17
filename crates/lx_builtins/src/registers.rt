//! `CSRField`, `CSRStorage`, `CSRStatus`, `CSR` and `CSRConstant`.

ghost use Rattle.std.specs.Prelude.{◌≡◌, ◌≤◌, ◌++◌, ◌∷◌, [], IfOk, OnOk, option_copied, slice_get};
ghost use Rattle.lx_description.specs.Keeping.{is_plain, is_value};
ghost use Rattle.lx_description.specs.declared.modules.ConstValue.TheVariants as constant;
ghost use Rattle.lx_objects.specs.Registers.{fields_end, laid};
ghost use Rattle.lx_state.specs.Step.{Gives};
ghost use Rattle.lx_builtins.specs.Registers.{argument_looked_at, arguments_looked_at, bits_of, bits_of_fields, byte_fits, byte_of, call_looked_at, constant_bytes, constant_number, constant_text, constant_value, csr_called, csr_constant_called, csr_field_called, csr_status_called, csr_storage_called, new_register, field_at, field_bits, field_from, field_list, field_looked_at, field_of, field_of_object, field_of_what, field_params, field_size_looked_at, fields_laid, fields_looked_at, fields_of, fields_or, fields_within, has_items, names_of, offset_looked_at, offset_of, offset_or, raw_from, raw_params, register_looked_at, register_width_looked_at, size_looked_at, sizing_of, stated_bits, stated_offset, status_from, status_params, storage_from, storage_params, width_fits, width_of};

use crate::arguments::{
    Arguments, argument, bound_to, given, identifier_of, one, optional, required,
};
use crate::domains::name_there;
use crate::numbers::is_zero;
use crate::signals::{integer_looked_at, integer_or, name_given, name_looked_at};
use lx_description::{ConstValue, Field, RegDecl, RegKind};
use lx_num::{Shape, wrap};
use lx_objects::registers::{
    constant_made, field_made, fields_end, lay, register_made, with_resets,
};
use lx_ops::signs::{is_below_zero, magnitude};
use lx_state::machine::{FieldState, What};
use lx_state::work::fault;
use lx_state::{Machine, Value};
use lx_text::{Kind, List, NoMemory, Refusal, Word};
use lx_value::Param;
use std::alloc::Global;

/// What gives a register its size.
#[derive(Clone, Copy)]
pub enum Sizing {
    /// The argument `size`, from 1 to this number.
    Stated(u8),
    /// The fields.
    ByFields,
}

/// What a call describes.
#[derive(Clone, Copy)]
pub enum Described {
    OfField,
    OfRegister(Sizing),
}

/// The bits of a register, and its first value.
#[derive(Clone, Copy)]
pub struct Bits {
    pub size: u8,
    pub reset: i128,
}

fn field_params(alloc: Global) -> Result<List<Param>, NoMemory>
    ensures { IfOk result (λ params. params ≡ field_params) }
{
    let mut params = List::of_one(alloc, required(alloc, b"name")?)?;
    params.push(optional(alloc, b"size")?)?;
    params.push(optional(alloc, b"offset")?)?;
    params.push(optional(alloc, b"reset")?)?;
    params.push(optional(alloc, b"description")?)?;
    params.push(optional(alloc, b"values")?)?;
    Ok(params)
}

// A number from 0 to 255.
fn byte_of(number: i128) -> Option<u8>
    ensures { result ≡ byte_of number }
{
    if is_below_zero(number) {
        return None;
    }
    let byte = magnitude(number);
    if byte <= 255 { Some(byte as u8) } else { None }
}

fn byte_fits(machine: &Machine, line: u32, number: i128) -> Result<u8, Refusal>
    ensures { Gives result machine.now (byte_fits line number machine.now) }
{
    let _machine = machine;
    match byte_of(number) {
        Some(byte) => Ok(byte),
        None => Err(fault(line, Kind::NumberRange)),
    }
}

// A field has at least one bit.
fn field_bits(machine: &Machine, line: u32, number: i128) -> Result<u8, Refusal>
    ensures { Gives result machine.now (field_bits line number machine.now) }
{
    if is_zero(number) {
        return Err(fault(line, Kind::BadWidth));
    }
    byte_fits(machine, line, number)
}

#[tactic(auto, unfolding(crate::specs::Registers::field_size_looked_at))]
fn field_size_looked_at(machine: &Machine, line: u32, value: Value) -> Result<(), Refusal>
    ensures { Gives result machine.now (field_size_looked_at line value machine.now) }
{
    let number = machine.int_of(line, value)?;
    field_bits(machine, line, number)?;
    Ok(())
}

#[tactic(auto, unfolding(crate::specs::Registers::stated_offset))]
fn stated_offset(machine: &Machine, line: u32, value: Value) -> Result<Option<u8>, Refusal>
    ensures { Gives result machine.now (stated_offset line value machine.now) }
{
    let number = machine.int_of(line, value)?;
    let low = byte_fits(machine, line, number)?;
    Ok(Some(low))
}

// The place of a field's lowest bit, or None.
fn offset_of(machine: &Machine, line: u32, value: Value) -> Result<Option<u8>, Refusal>
    ensures { Gives result machine.now (offset_of line value machine.now) }
{
    match value {
        Value::Nothing => Ok(None),
        _ => stated_offset(machine, line, value),
    }
}

#[tactic(auto, unfolding(crate::specs::Registers::offset_looked_at))]
fn offset_looked_at(machine: &Machine, line: u32, value: Value) -> Result<(), Refusal>
    ensures { Gives result machine.now (offset_looked_at line value machine.now) }
{
    offset_of(machine, line, value)?;
    Ok(())
}

// Looks at an argument of `CSRField` that is bound to this name.
fn field_looked_at(
    machine: &Machine,
    alloc: Global,
    line: u32,
    name: &[u8],
    value: Value,
) -> Result<(), Refusal>
    ensures { Gives result machine.now (field_looked_at line name.now value machine.now) }
{
    if name == b"name".as_slice() {
        name_looked_at(machine, alloc, line, value)
    } else if name == b"size".as_slice() {
        field_size_looked_at(machine, line, value)
    } else if name == b"offset".as_slice() {
        offset_looked_at(machine, line, value)
    } else if name == b"reset".as_slice() {
        integer_looked_at(machine, line, value)
    } else {
        Ok(())
    }
}

fn field_of_what(machine: &Machine, what: What) -> Option<&FieldState>
    ensures { option_copied result ≡ field_of_what machine.now what }
{
    match what {
        What::Field(at) => machine.fields.get(at),
        _ => None,
    }
}

fn field_of_object(machine: &Machine, at: usize) -> Option<&FieldState>
    ensures { option_copied result ≡ field_of_object machine.now (slice_get machine.now.objects at) }
{
    match machine.objects.get(at) {
        Some(object) => field_of_what(machine, object.what),
        None => None,
    }
}

// The field that a value is.
fn field_at(machine: &Machine, value: Value) -> Option<&FieldState>
    ensures { option_copied result ≡ field_at machine.now value }
{
    match value {
        Value::Object(at) => field_of_object(machine, at),
        _ => None,
    }
}

fn copied_field(alloc: Global, field: &FieldState) -> Result<FieldState, NoMemory>
    ensures { IfOk result (λ copy. copy ≡ field.now) }
{
    Ok(FieldState {
        name: field.name.copied(alloc)?,
        size: field.size,
        offset: field.offset,
        reset: field.reset,
        line: field.line,
    })
}

#[tactic(auto, unfolding(crate::specs::Registers::field_of))]
fn field_of(
    machine: &Machine,
    alloc: Global,
    line: u32,
    value: Value,
) -> Result<FieldState, Refusal>
    ensures { Gives result machine.now (field_of line value machine.now) }
{
    match field_at(machine, value) {
        Some(field) => Ok(copied_field(alloc, field)?),
        None => Err(fault(line, Kind::WrongKind)),
    }
}

// The fields that some values must be.
#[tactic(auto, unfolding(crate::specs::Registers::fields_of))]
fn fields_of(
    machine: &Machine,
    alloc: Global,
    line: u32,
    values: &[Value],
) -> Result<List<FieldState>, Refusal>
    ensures { Gives result machine.now (fields_of line values.now machine.now) }
{
    let mut fields = List::new(alloc);
    for value in values {
        let field = field_of(machine, alloc, line, *value)?;
        if fields.push(field).is_err() {
            return Err(Refusal::NoMemory);
        }
    }
    Ok(fields)
}

// A list of fields.
#[tactic(auto, unfolding(crate::specs::Registers::field_list))]
fn field_list(
    machine: &Machine,
    alloc: Global,
    line: u32,
    value: Value,
) -> Result<List<FieldState>, Refusal>
    ensures { Gives result machine.now (field_list line value machine.now) }
{
    let values = machine.list_of(alloc, line, value)?;
    fields_of(machine, alloc, line, values.as_slice())
}

#[tactic(auto, unfolding(crate::specs::Registers::fields_looked_at))]
fn fields_looked_at(
    machine: &Machine,
    alloc: Global,
    line: u32,
    value: Value,
) -> Result<(), Refusal>
    ensures { Gives result machine.now (fields_looked_at line value machine.now) }
{
    field_list(machine, alloc, line, value)?;
    Ok(())
}

fn storage_params(alloc: Global) -> Result<List<Param>, NoMemory>
    ensures { IfOk result (λ params. params ≡ storage_params) }
{
    let mut params = List::of_one(alloc, optional(alloc, b"size")?)?;
    params.push(optional(alloc, b"reset")?)?;
    params.push(optional(alloc, b"atomic_write")?)?;
    params.push(optional(alloc, b"write_from_dev")?)?;
    params.push(optional(alloc, b"fields")?)?;
    params.push(optional(alloc, b"name")?)?;
    params.push(optional(alloc, b"description")?)?;
    Ok(params)
}

fn status_params(alloc: Global) -> Result<List<Param>, NoMemory>
    ensures { IfOk result (λ params. params ≡ status_params) }
{
    let mut params = List::of_one(alloc, optional(alloc, b"size")?)?;
    params.push(optional(alloc, b"reset")?)?;
    params.push(optional(alloc, b"fields")?)?;
    params.push(optional(alloc, b"name")?)?;
    params.push(optional(alloc, b"description")?)?;
    Ok(params)
}

fn raw_params(alloc: Global) -> Result<List<Param>, NoMemory>
    ensures { IfOk result (λ params. params ≡ raw_params) }
{
    let mut params = List::of_one(alloc, optional(alloc, b"size")?)?;
    params.push(optional(alloc, b"name")?)?;
    Ok(params)
}

// A register has 1 to so many bits.
fn width_of(most: u8, number: i128) -> Option<u8>
    ensures { result ≡ width_of most number }
{
    if is_below_zero(number) {
        return None;
    }
    let width = magnitude(number);
    if 1 <= width && width <= most as u128 {
        Some(width as u8)
    } else {
        None
    }
}

fn width_fits(machine: &Machine, line: u32, most: u8, number: i128) -> Result<u8, Refusal>
    ensures { Gives result machine.now (width_fits line most number machine.now) }
{
    let _machine = machine;
    match width_of(most, number) {
        Some(width) => Ok(width),
        None => Err(fault(line, Kind::BadWidth)),
    }
}

#[tactic(auto, unfolding(crate::specs::Registers::register_width_looked_at))]
fn register_width_looked_at(
    machine: &Machine,
    line: u32,
    most: u8,
    value: Value,
) -> Result<(), Refusal>
    ensures { Gives result machine.now (register_width_looked_at line most value machine.now) }
{
    let number = machine.int_of(line, value)?;
    width_fits(machine, line, most, number)?;
    Ok(())
}

// Where fields give the size, the stated one is looked at for its kind alone.
fn size_looked_at(machine: &Machine, line: u32, giver: Sizing, value: Value) -> Result<(), Refusal>
    ensures { Gives result machine.now (size_looked_at line giver value machine.now) }
{
    match giver {
        Sizing::Stated(most) => register_width_looked_at(machine, line, most, value),
        Sizing::ByFields => integer_looked_at(machine, line, value),
    }
}

// Looks at an argument of a register that is bound to this name.
fn register_looked_at(
    machine: &Machine,
    alloc: Global,
    line: u32,
    giver: Sizing,
    name: &[u8],
    value: Value,
) -> Result<(), Refusal>
    ensures { Gives result machine.now (register_looked_at line giver name.now value machine.now) }
{
    if name == b"size".as_slice() {
        size_looked_at(machine, line, giver, value)
    } else if name == b"fields".as_slice() {
        fields_looked_at(machine, alloc, line, value)
    } else if name == b"name".as_slice() {
        name_looked_at(machine, alloc, line, value)
    } else if name == b"description".as_slice() {
        Ok(())
    } else {
        integer_looked_at(machine, line, value)
    }
}

fn argument_looked_at(
    machine: &Machine,
    alloc: Global,
    line: u32,
    of: Described,
    name: &[u8],
    value: Value,
) -> Result<(), Refusal>
    ensures { Gives result machine.now (argument_looked_at line of name.now value machine.now) }
{
    match of {
        Described::OfField => field_looked_at(machine, alloc, line, name, value),
        Described::OfRegister(giver) => register_looked_at(
            machine, alloc, line, giver, name, value,
        ),
    }
}

// Looks at arguments that are bound to these names, in their order.
#[tactic(auto, unfolding(crate::specs::Registers::arguments_looked_at))]
fn arguments_looked_at(
    machine: &Machine,
    alloc: Global,
    line: u32,
    of: Described,
    names: &[Word],
    values: &[Value],
) -> Result<(), Refusal>
    ensures { Gives result machine.now (arguments_looked_at line of names.now 0 values.now machine.now) }
{
    for (place, value) in values.iter().enumerate() {
        argument_looked_at(machine, alloc, line, of, name_there(names, place), *value)?;
    }
    Ok(())
}

fn push_name(alloc: Global, names: &mut List<Word>, param: &Param) -> Result<(), NoMemory>
    ensures { OnOk result (names.new ≡ names.old ++ param.now.name ∷ []) }
{
    names.push(param.name.copied(alloc)?)
}

// The names of parameters, in their order.
fn names_of(alloc: Global, params: &[Param]) -> Result<List<Word>, NoMemory>
    ensures { IfOk result (λ names. names ≡ names_of params.now) }
{
    let mut names = List::new(alloc);
    for param in params {
        push_name(alloc, &mut names, param)?;
    }
    Ok(names)
}

// Looks at all arguments of a call. The one that stands first has the first fault.
#[tactic(auto, unfolding(crate::specs::Registers::call_looked_at))]
fn call_looked_at(
    machine: &Machine,
    alloc: Global,
    line: u32,
    of: Described,
    params: &[Param],
    args: &Arguments,
) -> Result<(), Refusal>
    ensures { Gives result machine.now (call_looked_at line of params.now args.now machine.now) }
{
    let names = names_of(alloc, params)?;
    arguments_looked_at(
        machine,
        alloc,
        line,
        of,
        names.as_slice(),
        args.placed.as_slice(),
    )?;
    arguments_looked_at(
        machine,
        alloc,
        line,
        of,
        args.names.as_slice(),
        args.named.as_slice(),
    )
}

fn offset_or(machine: &Machine, line: u32, value: Option<Value>) -> Result<Option<u8>, Refusal>
    ensures { Gives result machine.now (offset_or line value machine.now) }
{
    match value {
        Some(value) => offset_of(machine, line, value),
        None => Ok(None),
    }
}

#[tactic(auto, unfolding(crate::specs::Registers::field_from))]
fn field_from(
    machine: &mut Machine,
    alloc: Global,
    line: u32,
    name: Value,
    values: &[Option<Value>],
) -> Result<Value, Refusal>
    ensures { Gives result machine.new (field_from line name values.now machine.old) }
{
    let name = identifier_of(machine, alloc, line, name)?;
    let number = integer_or(machine, line, 1, argument(values, 1))?;
    let size = field_bits(machine, line, number)?;
    let offset = offset_or(machine, line, argument(values, 2))?;
    let reset = integer_or(machine, line, 0, argument(values, 3))?;
    let field = FieldState {
        name,
        size,
        offset,
        reset,
        line,
    };
    field_made(machine, field)
}

/// `CSRField(name, size=1, offset=None, reset=0, description=, values=)`. The argument that stands first has the first
/// fault.
#[tactic(auto, unfolding(crate::specs::Registers::csr_field_called))]
pub fn csr_field_called(
    machine: &mut Machine,
    alloc: Global,
    line: u32,
    args: &Arguments,
) -> Result<Value, Refusal>
    ensures { Gives result machine.new (csr_field_called line args.now machine.old) }
{
    let params = field_params(alloc)?;
    let values = bound_to(machine, alloc, line, params.as_slice(), args)?;
    call_looked_at(
        machine,
        alloc,
        line,
        Described::OfField,
        params.as_slice(),
        args,
    )?;
    let name = given(machine, line, values.as_slice(), 0)?;
    field_from(machine, alloc, line, name, values.as_slice())
}

fn has_items(values: Option<&List<Value>>) -> bool
    ensures { result ≡ has_items (option_copied values.entry) }
{
    match values {
        Some(values) => !values.is_empty(),
        None => false,
    }
}

// What gives a register its size: its fields where there are any.
fn sizing_of(machine: &Machine, fields: Option<Value>) -> Sizing
    ensures { result ≡ sizing_of machine.now fields }
{
    match fields {
        Some(value) => {
            if has_items(machine.list_at(value)) {
                Sizing::ByFields
            } else {
                Sizing::Stated(64)
            }
        }
        None => Sizing::Stated(64),
    }
}

// The fields at their places; all of them lie in the lowest 64 bits.
#[tactic(auto, unfolding(crate::specs::Registers::fields_laid))]
fn fields_laid(
    machine: &Machine,
    alloc: Global,
    line: u32,
    value: Value,
) -> Result<List<Field>, Refusal>
    ensures gives { Gives result machine.now (fields_laid line value machine.now) }
    ensures end { IfOk result (λ fields. fields_end fields ≤ 64) }
{
    let fields = field_list(machine, alloc, line, value)?;
    fields_within(machine, alloc, line, fields.as_slice())
}

#[tactic(auto, using(crate::proofs::Fitting::fitted))]
fn fields_within(
    machine: &Machine,
    alloc: Global,
    line: u32,
    fields: &[FieldState],
) -> Result<List<Field>, Refusal>
    ensures gives { Gives result machine.now (fields_within line (laid 0 fields.now) machine.now) }
    ensures end { IfOk result (λ fields. fields_end fields ≤ 64) }
{
    let _machine = machine;
    match lay(alloc, fields)? {
        Some(fields) => Ok(fields),
        None => Err(fault(line, Kind::BadWidth)),
    }
}

#[tactic(auto, using(crate::proofs::Fitting::none_fit))]
fn fields_or(
    machine: &Machine,
    alloc: Global,
    line: u32,
    value: Option<Value>,
) -> Result<List<Field>, Refusal>
    ensures gives { Gives result machine.now (fields_or line value machine.now) }
    ensures end { IfOk result (λ fields. fields_end fields ≤ 64) }
{
    match value {
        Some(value) => fields_laid(machine, alloc, line, value),
        None => Ok(List::new(alloc)),
    }
}

#[tactic(auto, unfolding(crate::specs::Registers::stated_bits))]
fn stated_bits(
    machine: &Machine,
    line: u32,
    most: u8,
    size: i128,
    reset: i128,
) -> Result<Bits, Refusal>
    requires { most ≤ 64 }
    ensures { Gives result machine.now (stated_bits line most size reset machine.now) }
{
    let bits = width_fits(machine, line, most, size)?;
    let shape = Shape {
        bits,
        signed: false,
    };
    Ok(Bits {
        size: bits,
        reset: wrap(reset, shape),
    })
}

fn bits_of_fields(fields: &[Field]) -> Bits
    requires { fields_end fields.now ≤ 64 }
    ensures { result ≡ bits_of_fields fields.now }
{
    Bits {
        size: fields_end(fields),
        reset: with_resets(fields),
    }
}

// Where there are fields, they give a register's size and its first value.
fn bits_of(
    machine: &Machine,
    line: u32,
    size: i128,
    reset: i128,
    fields: &[Field],
) -> Result<Bits, Refusal>
    requires { fields_end fields.now ≤ 64 }
    ensures { Gives result machine.now (bits_of line size reset fields.now machine.now) }
{
    match fields {
        [] => stated_bits(machine, line, 64, size, reset),
        [_, ..] => Ok(bits_of_fields(fields)),
    }
}

// A register that has neither a name nor signals yet.
fn new_register(alloc: Global, line: u32, kind: RegKind, bits: Bits, fields: List<Field>) -> RegDecl
    ensures { result ≡ new_register line kind bits fields }
{
    RegDecl {
        name: Word::empty(alloc),
        kind,
        size: bits.size,
        reset: bits.reset,
        atomic: false,
        from_dev: false,
        fields,
        signals: List::new(alloc),
        line,
    }
}

#[tactic(auto, unfolding(crate::specs::Registers::storage_from))]
fn storage_from(
    machine: &mut Machine,
    alloc: Global,
    line: u32,
    values: &[Option<Value>],
) -> Result<Value, Refusal>
    ensures { Gives result machine.new (storage_from line values.now machine.old) }
{
    let size = integer_or(machine, line, 1, argument(values, 0))?;
    let reset = integer_or(machine, line, 0, argument(values, 1))?;
    let atomic = integer_or(machine, line, 0, argument(values, 2))?;
    let from_dev = integer_or(machine, line, 0, argument(values, 3))?;
    let fields = fields_or(machine, alloc, line, argument(values, 4))?;
    let bits = bits_of(machine, line, size, reset, fields.as_slice())?;
    let name = name_given(machine, alloc, line, argument(values, 5))?;
    let mut decl = new_register(alloc, line, RegKind::Storage, bits, fields);
    decl.atomic = !is_zero(atomic);
    decl.from_dev = !is_zero(from_dev);
    register_made(machine, alloc, decl, name)
}

/// `CSRStorage(size=1, reset=0, atomic_write=False, write_from_dev=False, fields=[], name=, description=)`. The argument
/// that stands first has the first fault; then come fields that reach past 64 bits.
#[tactic(auto, unfolding(crate::specs::Registers::csr_storage_called))]
pub fn csr_storage_called(
    machine: &mut Machine,
    alloc: Global,
    line: u32,
    args: &Arguments,
) -> Result<Value, Refusal>
    ensures { Gives result machine.new (csr_storage_called line args.now machine.old) }
{
    let params = storage_params(alloc)?;
    let values = bound_to(machine, alloc, line, params.as_slice(), args)?;
    let of = Described::OfRegister(sizing_of(machine, argument(values.as_slice(), 4)));
    call_looked_at(machine, alloc, line, of, params.as_slice(), args)?;
    storage_from(machine, alloc, line, values.as_slice())
}

#[tactic(auto, unfolding(crate::specs::Registers::status_from))]
fn status_from(
    machine: &mut Machine,
    alloc: Global,
    line: u32,
    values: &[Option<Value>],
) -> Result<Value, Refusal>
    ensures { Gives result machine.new (status_from line values.now machine.old) }
{
    let size = integer_or(machine, line, 1, argument(values, 0))?;
    let reset = integer_or(machine, line, 0, argument(values, 1))?;
    let fields = fields_or(machine, alloc, line, argument(values, 2))?;
    let bits = bits_of(machine, line, size, reset, fields.as_slice())?;
    let name = name_given(machine, alloc, line, argument(values, 3))?;
    let decl = new_register(alloc, line, RegKind::Status, bits, fields);
    register_made(machine, alloc, decl, name)
}

/// `CSRStatus(size=1, reset=0, fields=[], name=, description=)`. The argument that stands first has the first fault; then
/// come fields that reach past 64 bits.
#[tactic(auto, unfolding(crate::specs::Registers::csr_status_called))]
pub fn csr_status_called(
    machine: &mut Machine,
    alloc: Global,
    line: u32,
    args: &Arguments,
) -> Result<Value, Refusal>
    ensures { Gives result machine.new (csr_status_called line args.now machine.old) }
{
    let params = status_params(alloc)?;
    let values = bound_to(machine, alloc, line, params.as_slice(), args)?;
    let of = Described::OfRegister(sizing_of(machine, argument(values.as_slice(), 2)));
    call_looked_at(machine, alloc, line, of, params.as_slice(), args)?;
    status_from(machine, alloc, line, values.as_slice())
}

#[tactic(auto, unfolding(crate::specs::Registers::raw_from))]
fn raw_from(
    machine: &mut Machine,
    alloc: Global,
    line: u32,
    values: &[Option<Value>],
) -> Result<Value, Refusal>
    ensures { Gives result machine.new (raw_from line values.now machine.old) }
{
    let size = integer_or(machine, line, 1, argument(values, 0))?;
    let bits = stated_bits(machine, line, 32, size, 0)?;
    let name = name_given(machine, alloc, line, argument(values, 1))?;
    let decl = new_register(alloc, line, RegKind::Raw, bits, List::new(alloc));
    register_made(machine, alloc, decl, name)
}

/// `CSR(size=1, name=)`, of at most 32 bits. The argument that stands first has the first fault.
#[tactic(auto, unfolding(crate::specs::Registers::csr_called))]
pub fn csr_called(
    machine: &mut Machine,
    alloc: Global,
    line: u32,
    args: &Arguments,
) -> Result<Value, Refusal>
    ensures { Gives result machine.new (csr_called line args.now machine.old) }
{
    let params = raw_params(alloc)?;
    let values = bound_to(machine, alloc, line, params.as_slice(), args)?;
    let of = Described::OfRegister(Sizing::Stated(32));
    call_looked_at(machine, alloc, line, of, params.as_slice(), args)?;
    raw_from(machine, alloc, line, values.as_slice())
}

// Whether a number is one from -2 ^ 63 to 2 ^ 64 - 1.
fn is_constant_number(number: i128) -> bool
    ensures { result ≡ is_value (constant.Number number) }
{
    -0x8000_0000_0000_0000 <= number && number < 0x1_0000_0000_0000_0000
}

fn constant_number(machine: &Machine, line: u32, number: i128) -> Result<ConstValue, Refusal>
    ensures { Gives result machine.now (constant_number line number machine.now) }
{
    let _machine = machine;
    if is_constant_number(number) {
        Ok(ConstValue::Number(number))
    } else {
        Err(fault(line, Kind::NumberRange))
    }
}

// Printable, and neither quote, backslash nor comma.
fn is_plain(byte: u8) -> bool
    ensures { result ≡ is_plain byte }
{
    32 <= byte && byte <= 126 && byte != b'"' && byte != b'\\' && byte != b','
}

fn is_constant_text(bytes: &[u8]) -> bool
    ensures { result ≡ is_value (constant.Text bytes.now) }
{
    bytes.iter().all(|byte| is_plain(*byte))
}

fn constant_bytes(machine: &Machine, line: u32, bytes: Word) -> Result<ConstValue, Refusal>
    ensures { Gives result machine.now (constant_bytes line bytes machine.now) }
{
    let _machine = machine;
    if is_constant_text(bytes.as_bytes()) {
        Ok(ConstValue::Text(bytes))
    } else {
        Err(fault(line, Kind::BadKey))
    }
}

#[tactic(auto, unfolding(crate::specs::Registers::constant_text))]
fn constant_text(
    machine: &Machine,
    alloc: Global,
    line: u32,
    value: Value,
) -> Result<ConstValue, Refusal>
    ensures { Gives result machine.now (constant_text line value machine.now) }
{
    let bytes = machine.text_of(alloc, line, value)?;
    constant_bytes(machine, line, bytes)
}

// An integer, a text or None.
pub(crate) fn constant_value(
    machine: &Machine,
    alloc: Global,
    line: u32,
    value: Value,
) -> Result<ConstValue, Refusal>
    ensures { Gives result machine.now (constant_value line value machine.now) }
{
    match value {
        Value::Nothing => Ok(ConstValue::Nothing),
        Value::Int(number) => constant_number(machine, line, number),
        _ => constant_text(machine, alloc, line, value),
    }
}

/// `CSRConstant(value)`: an integer from -2 to the 63 up to 2 to the 64, less 1 (else NumberRange), a text of printable
/// ASCII without quote, backslash and comma (else BadKey), or None.
#[tactic(auto, unfolding(crate::specs::Registers::csr_constant_called))]
pub fn csr_constant_called(
    machine: &mut Machine,
    alloc: Global,
    line: u32,
    args: &Arguments,
) -> Result<Value, Refusal>
    ensures { Gives result machine.new (csr_constant_called line args.now machine.old) }
{
    let value = one(machine, alloc, line, b"value", args)?;
    let constant = constant_value(machine, alloc, line, value)?;
    constant_made(machine, line, constant)
}
