//! Going through the classes of a description, and making its top.

ghost use Rattle.std.specs.Prelude.{[], ◌≡◌, All, IfOk, length, map, slice_get};
ghost use Rattle.std.specs.List.{list_any};
ghost use Rattle.lx_syntax.specs.Classes.{base_of};
ghost use Rattle.lx_syntax.specs.Forms.{bound_at, class_of, classes_of, expr_of, param_at};
ghost use Rattle.lx_state.specs.Changes.{changed};
ghost use Rattle.lx_state.specs.Step.{Gives};
ghost use Rattle.lx_builtins.specs.Arguments.{argument, bound_to};
ghost use Rattle.lx_run.specs.Classes.{all_have_defaults, are_params, as_system, bases_run, begun, class_defaults, class_kind, class_run, classes_run, default_run, defaults_of, defaults_run, description_run, is_none, is_system_base, is_system_class, keep_class, keep_defaults, module_begun, module_object, param_bound, param_name, param_of, param_value, params_bound, params_fit, top_made, with_base, with_defaults, with_lite};
ghost use Rattle.lx_state.specs.declared.machine.ModuleKind.TheVariants as kinds;
ghost use Rattle.lx_run.specs.Meant.{IsLowerClass, IsLowerOption, IsLowerParam, makes};

use crate::descent::{GREATEST_NESTED, Levels};
use crate::reading::{class_at, class_in};
use crate::run::{eval, module_run};
use lx_arena::Id;
use lx_builtins::Arguments;
use lx_builtins::arguments::{argument, bound_to};
use lx_objects::modules::module_made;
use lx_objects::systems::system_begun;
use lx_pytree::PyNodes;
use lx_state::machine::{Class, Machine, ModuleKind};
use lx_state::values::Value;
use lx_state::work::{fault, unknown};
use lx_syntax::{ClassForm, Parameter, Syntax};
use lx_text::{Kind, List, NoMemory, Refusal, Word};
use lx_token::Token;
use lx_value::{Param, Seen};
use std::alloc::Global;

// ---- parameters

// Whether a parameter must be given: it has no default.
#[tactic(auto, unfolding(lx_syntax::specs::Forms::bound_at))]
fn is_required(syntax: &Syntax, default: Option<Id<PyNodes>>) -> bool
    ensures { result ≡ is_none (bound_at (expr_of syntax.now) default) }
{
    let _syntax = syntax;
    match default {
        None => true,
        Some(_) => false,
    }
}

// What a parameter of a class takes.
fn class_param(alloc: Global, syntax: &Syntax, param: &Parameter) -> Result<Param, NoMemory>
    ensures { IfOk result (λ made. made ≡ param_of (param_at syntax.now.src (expr_of syntax.now) param.now)) }
{
    Ok(Param {
        name: Word::new(alloc, syntax.text(&param.name))?,
        by_place: true,
        required: is_required(syntax, param.default),
    })
}

// What the parameters of a class take.
fn class_params(
    alloc: Global,
    syntax: &Syntax,
    params: &[Parameter],
) -> Result<List<Param>, NoMemory>
    ensures { IfOk result (λ made. made ≡ map param_of (map (param_at syntax.now.src (expr_of syntax.now)) params.now)) }
{
    let mut made = List::new(alloc);
    for param in params {
        made.push(class_param(alloc, syntax, param)?)?;
    }
    Ok(made)
}

/// What the arguments of a call give to the parameters of a class.
pub(crate) fn class_bound(
    machine: &Machine,
    alloc: Global,
    syntax: &Syntax,
    line: u32,
    class: &ClassForm,
    args: &Arguments,
) -> Result<List<Option<Value>>, Refusal>
    ensures { Gives result machine.now (bound_to line (map param_of (class_of syntax.now class.now).params) args.now machine.now) }
{
    let params = class_params(alloc, syntax, class.params.as_slice())?;
    bound_to(machine, alloc, line, params.as_slice(), args)
}

// The default of a parameter of a class, where it has one.
fn default_in(machine: &Machine, class: usize, at: usize) -> Option<Value>
    ensures { result ≡ argument (defaults_of (slice_get machine.now.classes class)) at }
{
    match machine.classes.get(class) {
        Some(class) => argument(class.defaults.as_slice(), at),
        None => None,
    }
}

// What a parameter is bound to.
#[tactic(auto, unfolding(crate::specs::Classes::param_value))]
fn param_value(
    machine: &Machine,
    line: u32,
    class: usize,
    values: &List<Option<Value>>,
    at: usize,
) -> Result<Value, Refusal>
    ensures { Gives result machine.now (param_value line class values.now at machine.now) }
{
    if let Some(value) = argument(values.as_slice(), at) {
        return Ok(value);
    }
    match default_in(machine, class, at) {
        Some(value) => Ok(value),
        None => Err(fault(line, Kind::WrongCount)),
    }
}

#[tactic(auto, unfolding(crate::specs::Classes::param_bound))]
fn param_bound(
    machine: &mut Machine,
    line: u32,
    class: usize,
    values: &List<Option<Value>>,
    at: usize,
    name: &[u8],
) -> Result<(), Refusal>
    ensures { Gives result machine.new (param_bound line class values.now at name.now machine.old) }
{
    let value = param_value(machine, line, class, values, at)?;
    machine.set_param(line, name, value)
}

/// Binds the parameters of a class.
#[tactic(auto, unfolding(crate::specs::Classes::params_bound))]
pub(crate) fn params_bound(
    machine: &mut Machine,
    syntax: &Syntax,
    line: u32,
    class: usize,
    values: &List<Option<Value>>,
    params: &[Parameter],
) -> Result<(), Refusal>
    ensures { Gives result machine.new (params_bound line class values.now 0 (map param_name (map (param_at syntax.now.src (expr_of syntax.now)) params.now)) machine.old) }
{
    for (at, param) in params.iter().enumerate() {
        param_bound(machine, line, class, values, at, syntax.text(&param.name))?;
    }
    Ok(())
}

// ---- modules

// What the bases of the class at a place make of its modules.
#[tactic(auto, unfolding(crate::specs::Classes::class_kind))]
fn class_kind(machine: &Machine, line: u32, at: usize) -> Result<ModuleKind, Refusal>
    ensures { Gives result machine.now (class_kind line at machine.now) }
{
    match machine.classes.get(at) {
        Some(class) => Ok(class.kind),
        None => Err(fault(line, Kind::WrongKind)),
    }
}

// The object of the module at a place.
#[tactic(auto, unfolding(crate::specs::Classes::module_object))]
fn module_object(machine: &Machine, line: u32, made: usize) -> Result<usize, Refusal>
    ensures { Gives result machine.now (module_object line made machine.now) }
{
    match machine.modules.get(made) {
        Some(module) => Ok(module.object),
        None => Err(fault(line, Kind::WrongKind)),
    }
}

/// A further module of the class at a place, and its object.
#[tactic(auto, unfolding(crate::specs::Classes::module_begun))]
pub(crate) fn module_begun(
    machine: &mut Machine,
    alloc: Global,
    line: u32,
    at: usize,
) -> Result<(usize, usize), Refusal>
    ensures { Gives result machine.new (module_begun line at machine.old) }
{
    let kind = class_kind(machine, line, at)?;
    let made = module_made(machine, alloc, line, at, kind)?;
    let object = module_object(machine, line, made)?;
    Ok((made, object))
}

// ---- going through the classes

// Only the last class may be a system.
fn as_system(machine: &Machine, line: u32, last: bool) -> Result<ModuleKind, Refusal>
    ensures { Gives result machine.now (as_system line last machine.now) }
{
    let _machine = machine;
    if last {
        Ok(ModuleKind::Soc)
    } else {
        Err(fault(line, Kind::WrongKind))
    }
}

// The kind with a further base.
fn with_base(
    machine: &Machine,
    alloc: Global,
    syntax: &Syntax,
    last: bool,
    base: &Token,
    so_far: ModuleKind,
) -> Result<ModuleKind, Refusal>
    ensures { Gives result machine.now (with_base last (base_of syntax.now.src base.now) so_far machine.now) }
{
    let name = syntax.text(base);
    if name == b"Module".as_slice() || name == b"AutoCSR".as_slice() {
        return Ok(so_far);
    }
    if name == b"LiteXModule".as_slice() {
        return Ok(with_lite(so_far));
    }
    if name == b"SoCCore".as_slice() {
        return as_system(machine, base.line, last);
    }
    Err(unknown(alloc, base.line, name))
}

fn with_lite(so_far: ModuleKind) -> ModuleKind
    ensures { result ≡ with_lite so_far }
{
    match so_far {
        ModuleKind::Soc => ModuleKind::Soc,
        ModuleKind::Lite => ModuleKind::Lite,
        ModuleKind::Plain => ModuleKind::Lite,
    }
}

#[tactic(auto, unfolding(crate::specs::Classes::bases_run))]
fn bases_run(
    machine: &Machine,
    alloc: Global,
    syntax: &Syntax,
    last: bool,
    bases: &[Token],
) -> Result<ModuleKind, Refusal>
    ensures { Gives result machine.now (bases_run last kinds.Plain (map (base_of syntax.now.src) bases.now) machine.now) }
{
    let mut kind = ModuleKind::Plain;
    for base in bases {
        kind = with_base(machine, alloc, syntax, last, base, kind)?;
    }
    Ok(kind)
}

#[tactic(auto, unfolding(crate::specs::Classes::default_run, lx_syntax::specs::Forms::bound_at))]
fn default_run(
    machine: &mut Machine,
    alloc: Global,
    syntax: &Syntax,
    depth: Levels,
    default: Option<Id<PyNodes>>,
) -> Result<Option<Value>, Refusal>
    requires { IsLowerOption (length syntax.now.nodes) default }
    ensures { Gives result machine.new (default_run (makes syntax.now depth.classes) (bound_at (expr_of syntax.now) default) machine.old) }
{
    match default {
        None => Ok(None),
        Some(id) => {
            let value = eval(machine, alloc, syntax, depth, id)?;
            Ok(Some(value))
        }
    }
}

#[tactic(auto, unfolding(crate::specs::Classes::defaults_run))]
fn defaults_run(
    machine: &mut Machine,
    alloc: Global,
    syntax: &Syntax,
    depth: Levels,
    params: &[Parameter],
) -> Result<List<Option<Value>>, Refusal>
    requires { All (IsLowerParam (length syntax.now.nodes)) params.now }
    ensures { Gives result machine.new (defaults_run (makes syntax.now depth.classes) (map (param_at syntax.now.src (expr_of syntax.now)) params.now) machine.old) }
{
    let mut defaults = List::new(alloc);
    for param in params {
        let value = default_run(machine, alloc, syntax, depth, param.default)?;
        defaults.push(value)?;
    }
    Ok(defaults)
}

// Whether no two parameters, with `self`, have one name.
fn are_params(alloc: Global, syntax: &Syntax, params: &[Parameter]) -> Result<bool, NoMemory>
    ensures { IfOk result (λ are. are ≡ are_params (map (param_at syntax.now.src (expr_of syntax.now)) params.now)) }
{
    let mut seen = Seen::new(alloc);
    seen.add(b"self")?;
    for param in params {
        if !seen.add(syntax.text(&param.name))? {
            return Ok(false);
        }
    }
    Ok(true)
}

#[tactic(auto, unfolding(crate::specs::Classes::params_fit))]
fn params_fit(
    machine: &Machine,
    alloc: Global,
    syntax: &Syntax,
    class: &ClassForm,
) -> Result<(), Refusal>
    ensures { Gives result machine.now (params_fit (class_of syntax.now class.now) machine.now) }
{
    let _machine = machine;
    if are_params(alloc, syntax, class.params.as_slice())? {
        Ok(())
    } else {
        Err(fault(class.init_line, Kind::WrongCount))
    }
}

// Keeps a further class, which no module is of yet, and gives its place.
#[tactic(auto, unfolding(crate::specs::Classes::keep_class))]
fn keep_class(
    machine: &mut Machine,
    alloc: Global,
    name: &[u8],
    kind: ModuleKind,
) -> Result<usize, Refusal>
    ensures { Gives result machine.new (keep_class (record { name = name.now; kind = kind; defaults = [] }) machine.old) }
{
    let at = machine.classes.len();
    let name = Word::new(alloc, name)?;
    machine.classes.push(Class {
        name,
        kind,
        defaults: List::new(alloc),
    })?;
    Ok(at)
}

// Gives the class at a place its defaults.
#[tactic(auto, using(lx_state::proofs::Changes::changed_there, lx_state::proofs::Changes::set_twice, lx_state::proofs::Changes::not_changed))]
fn put_defaults(alloc: Global, classes: &mut List<Class>, at: usize, defaults: List<Option<Value>>)
    ensures { classes.new ≡ changed classes.old at (with_defaults defaults) }
{
    if at < classes.len() {
        let empty = Class {
            name: Word::empty(alloc),
            kind: ModuleKind::Plain,
            defaults: List::new(alloc),
        };
        let Class { name, kind, .. } = classes.replace(at, empty);
        classes.replace(
            at,
            Class {
                name,
                kind,
                defaults,
            },
        );
    }
}

// Runs the defaults of the class at a place, which see no parameter and no `self`.
#[tactic(auto, unfolding(crate::specs::Classes::class_defaults, crate::specs::Classes::keep_defaults))]
fn class_defaults(
    machine: &mut Machine,
    alloc: Global,
    syntax: &Syntax,
    depth: Levels,
    at: usize,
    class: &ClassForm,
) -> Result<(), Refusal>
    requires { IsLowerClass (length syntax.now.nodes) class.now }
    ensures { Gives result machine.new (class_defaults (makes syntax.now depth.classes) at (class_of syntax.now class.now) machine.old) }
{
    let frame = machine.enter(alloc, None, at);
    let defaults = defaults_run(machine, alloc, syntax, depth, class.params.as_slice())?;
    machine.leave(frame);
    put_defaults(alloc, &mut machine.classes, at, defaults);
    Ok(())
}

// Goes through a class.
#[tactic(auto, unfolding(crate::specs::Classes::class_run))]
fn class_run(
    machine: &mut Machine,
    alloc: Global,
    syntax: &Syntax,
    depth: Levels,
    last: bool,
    class: &ClassForm,
) -> Result<(), Refusal>
    requires { IsLowerClass (length syntax.now.nodes) class.now }
    ensures { Gives result machine.new (class_run (makes syntax.now depth.classes) last (class_of syntax.now class.now) machine.old) }
{
    let name = syntax.text(&class.name);
    machine.name_fits(class.line, name)?;
    let kind = bases_run(machine, alloc, syntax, last, class.bases.as_slice())?;
    params_fit(machine, alloc, syntax, class)?;
    let at = keep_class(machine, alloc, name, kind)?;
    class_defaults(machine, alloc, syntax, depth, at, class)
}

// Goes through all classes.
#[tactic(auto, using(crate::proofs::Going::classes_more, crate::proofs::Going::classes_done))]
fn classes_run(
    machine: &mut Machine,
    alloc: Global,
    syntax: &Syntax,
    depth: Levels,
) -> Result<(), Refusal>
    ensures { Gives result machine.new (classes_run (makes syntax.now depth.classes) (classes_of syntax.now) machine.old) }
{
    let count = syntax.class_count();
    for place in 0..count {
        let class = class_in(syntax, place);
        class_run(machine, alloc, syntax, depth, place + 1 == count, class)?;
    }
    Ok(())
}

// ---- the top

fn all_have_defaults(syntax: &Syntax, params: &[Parameter]) -> bool
    ensures { result ≡ all_have_defaults (map (param_at syntax.now.src (expr_of syntax.now)) params.now) }
{
    for param in params {
        if is_required(syntax, param.default) {
            return false;
        }
    }
    true
}

// Makes the module of the last class.
#[tactic(auto, unfolding(crate::specs::Classes::top_made))]
fn top_made(
    machine: &mut Machine,
    alloc: Global,
    syntax: &Syntax,
    at: usize,
    class: &ClassForm,
) -> Result<Value, Refusal>
    requires { IsLowerClass (length syntax.now.nodes) class.now }
    ensures { Gives result machine.new (top_made (classes_of syntax.now) at (class_of syntax.now class.now) machine.old) }
{
    if all_have_defaults(syntax, class.params.as_slice()) {
        let values = List::new(alloc);
        let depth = Levels {
            classes: 63,
            nested: GREATEST_NESTED,
        };
        module_run(
            machine, alloc, syntax, depth, class.line, at, class, &values,
        )
    } else {
        Err(fault(class.init_line, Kind::WrongCount))
    }
}

// Whether one of these bases makes a class a system.
fn have_system(syntax: &Syntax, bases: &[Token]) -> bool
    ensures { result ≡ list_any is_system_base (map (base_of syntax.now.src) bases.now) }
{
    for base in bases {
        if syntax.text(base) == b"SoCCore".as_slice() {
            return true;
        }
    }
    false
}

// Whether the class at a place is a system.
#[tactic(auto, using(crate::proofs::Making::class_there))]
fn is_system_at(syntax: &Syntax, at: usize) -> bool
    ensures { result ≡ is_system_class (slice_get (classes_of syntax.now) at) }
{
    match class_at(syntax, at) {
        Some(class) => have_system(syntax, class.bases.as_slice()),
        None => false,
    }
}

// A system begins before anything is run.
fn begin(machine: &mut Machine, alloc: Global, is_system: bool) -> Result<(), Refusal>
    ensures { Gives result machine.new (begun is_system machine.old) }
{
    if is_system {
        system_begun(machine, alloc)
    } else {
        Ok(())
    }
}

/// Goes through the classes of a description in their order, and makes the last one's module. A system begins with the
/// ports of its bus.
#[tactic(auto, using(crate::proofs::Making::class_there, crate::proofs::Going::count_is), unfolding(crate::specs::Classes::description_run))]
pub fn description_run(
    machine: &mut Machine,
    alloc: Global,
    syntax: &Syntax,
) -> Result<Value, Refusal>
    ensures { Gives result machine.new (description_run (classes_of syntax.now) machine.old) }
{
    let depth = Levels {
        classes: 64,
        nested: GREATEST_NESTED,
    };
    let at = syntax.class_count().saturating_sub(1);
    begin(machine, alloc, is_system_at(syntax, at))?;
    classes_run(machine, alloc, syntax, depth)?;
    match class_at(syntax, at) {
        Some(class) => top_made(machine, alloc, syntax, at, class),
        None => Err(fault(0, Kind::NoTop)),
    }
}
