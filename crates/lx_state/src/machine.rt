//! The machine that holds what a running description has made.

use crate::values::Value;
use lx_description::{ConstDecl, ConstValue, FsmStmts, RegDecl, SlaveDecl, SourceKind};
use lx_fhdl::{ExprId, Fix, Memory, Port, RegionWish, SigId, TargetId};
use lx_names::Table;
use lx_shaped::Shaped;
use lx_text::{List, Word};
use lx_value::Budget;

/// All that a description has made and bound so far.
#[derive(Drop)]
pub struct Machine {
    /// The units of work.
    pub spent: Budget,
    /// The expressions and statements that count towards the limit of nodes.
    pub nodes: u32,
    /// The classes that were gone through, from the first one on.
    pub classes: List<Class>,
    /// The design so far: expressions, targets, statements, signals.
    pub shaped: Shaped,
    /// Whose each signal is.
    pub owners: List<Owner>,
    /// All that can be named, in order of making.
    pub objects: List<Object>,
    pub modules: List<Module>,
    pub fsms: List<Fsm>,
    /// The memories in order of making; they have no paths before they are described.
    pub memories: List<Memory>,
    /// The place of each memory among the objects.
    pub memory_objects: List<usize>,
    /// The words of all memories, which count towards a limit.
    pub words: u32,
    /// The ports of all memories, in order of making.
    pub ports: List<PortState>,
    /// The registers in order of making.
    pub registers: List<RegisterState>,
    /// What fields of registers were described by, in order of making.
    pub fields: List<FieldState>,
    /// The values of the constants for software that modules hold, in order of making.
    pub constants: List<ConstValue>,
    /// The event managers in order of making.
    pub managers: List<ManagerState>,
    /// The sources of events in order of making.
    pub sources: List<SourceState>,
    /// What regions were described by, in order of making.
    pub regions: List<RegionState>,
    /// The interfaces of the bus in order of making.
    pub interfaces: List<InterfaceState>,
    pub system: SystemState,
    pub texts: List<Word>,
    /// The items of lists, tuples and Arrays.
    pub lists: List<Items>,
    pub dictionaries: List<List<Pair>>,
    pub made: List<Made>,
    /// The statements of FSMs, once they are laid out.
    pub fsm_stmts: FsmStmts,
    /// The clock domains, in order of first mention.
    pub domains: Table<DomainState>,
    pub specials: Specials,
    pub frame: Frame,
}

/// The statements that stand for what takes part once it is made. They stand before those of all modules.
#[derive(Drop)]
pub struct Specials {
    /// Those that drive the bits of a register from its fields. They stand before all others.
    pub fields: List<usize>,
    /// The other combinatorial ones.
    pub comb: List<usize>,
    /// The synchronous ones.
    pub sync: List<SyncItem>,
}

/// The names of the `__init__` that runs.
#[derive(Drop)]
pub struct Frame {
    /// Parameters and local names.
    pub locals: Table<Value>,
    /// The module that is made; none while a default runs.
    pub this: Option<usize>,
    /// How many classes stand above.
    pub class: usize,
}

/// A class that was gone through.
#[derive(Drop)]
pub struct Class {
    pub name: Word,
    pub kind: ModuleKind,
    /// The default of each parameter, where it has one.
    pub defaults: List<Option<Value>>,
}

/// What the bases of a class make of its modules.
#[derive(Clone, Copy)]
pub enum ModuleKind {
    Plain,
    /// Binding a module to an attribute adds it.
    Lite,
    /// A system's top, where binding adds too.
    Soc,
}

/// The items of a list, a tuple or an Array. They never change; what is noted beside them says what hangs in it, in
/// lists within lists too.
#[derive(Drop)]
pub struct Items {
    pub values: List<Value>,
    /// The levels of lists and tuples, itself counted.
    pub depth: u8,
    /// What hangs in it.
    pub leaves: Leaves,
    /// The nodes of the statements that hang in it, counted as far as one past the limit.
    pub size: u32,
    /// The binding by which it named its items.
    pub named: Binding,
}

/// What hangs in a list.
#[derive(Clone, Copy)]
pub enum Leaves {
    Nothing,
    /// Statements alone.
    Statements,
    /// Statements, some of which may stand in a state of an FSM alone.
    StateStatements,
    /// Modules, FSMs and event managers alone.
    Modules,
    /// `ClockDomain`s alone.
    ClockDomains,
    /// `MultiReg`s, memories and their ports alone.
    Specials,
    /// Something else, or things of several kinds.
    Others,
}

/// By what something has a name; a later one of these goes before an earlier one.
#[derive(Clone, Copy)]
pub enum Binding {
    Nowhere,
    Local,
    Attribute,
}

/// A key of a dictionary with its value.
#[derive(Clone, Copy)]
pub struct Pair {
    pub key: Value,
    pub value: Value,
}

/// What can be named.
#[derive(Drop)]
pub struct Object {
    pub what: What,
    /// The line of the call that made it.
    pub line: u32,
    /// The module in whose `__init__` it was made.
    pub maker: Option<usize>,
    /// `name=`.
    pub given: Option<Word>,
    /// The name of its first binding to an attribute.
    pub by_attribute: Option<Word>,
    /// The name of its first binding to a local name.
    pub by_local: Option<Word>,
    /// The module an attribute of which first bound it itself, and not within a list.
    pub home: Option<usize>,
}

/// What an object is.
#[derive(Clone, Copy)]
pub enum What {
    Signal(SigId),
    Module(usize),
    ClockDomain(ClockDomain),
    MultiReg,
    Fsm(usize),
    /// A memory, by its place among the memories.
    Memory(usize),
    /// A port of a memory, by its place among the ports.
    Port(usize),
    /// A register, by its place among the registers.
    Register(usize),
    /// A `CSRField`, by its place among the fields.
    Field(usize),
    /// A `CSRConstant`, by its place among the constants.
    Constant(usize),
    /// An event manager, by its place among the managers.
    Manager(usize),
    /// A source of events, by its place among the sources.
    Source(usize),
    /// A `SoCRegion`, by its place among the regions.
    Region(usize),
    /// An interface of the bus, by its place among the interfaces.
    Interface(usize),
}

/// A `ClockDomain`, which declares a domain when it is first bound to an attribute.
#[derive(Clone, Copy)]
pub struct ClockDomain {
    /// Whether the domain has a reset.
    pub reset: bool,
    /// Whether an attribute was bound to it.
    pub bound: bool,
}

/// Whose a signal is: an object's own, or a part of one. An FSM's own is `state`, and a part of it is named by the state
/// that it is `ongoing` of. A port of a memory has the parts `adr`, `dat_r`, `dat_w` and `we`. Registers, sources and event
/// managers have their signals as parts; a manager's `enable` has no path, since hardware that is generated is nobody's.
#[derive(Drop)]
pub struct Owner {
    pub object: usize,
    pub part: Option<Word>,
}

/// A state machine (`FSM`) with the states that it has so far.
#[derive(Drop)]
pub struct Fsm {
    /// Its place among the objects.
    pub object: usize,
    /// The place of the module by which it is added to others. It has nothing of its own.
    pub module: usize,
    /// The signal `state`, whose bits are known once all states are.
    pub state: SigId,
    /// `reset_state=`.
    pub start: Option<Word>,
    /// The name of each state, with its place among the bodies, in the order of the first `act`s.
    pub names: Table<usize>,
    /// For each state the statements of all its `act`s.
    pub bodies: List<List<usize>>,
    /// What was asked for by `ongoing`, by the state's name, in the order of the first calls.
    pub asked: Table<Ongoing>,
}

/// A signal that is 1 in a state.
#[derive(Clone, Copy)]
pub struct Ongoing {
    pub signal: SigId,
    /// The expression that reads it.
    pub read: ExprId,
    /// The line of the first call.
    pub line: u32,
}

/// A port of a memory, with the expressions that read its signals.
#[derive(Clone, Copy)]
pub struct PortState {
    pub port: Port,
    pub adr: ExprId,
    pub dat_r: ExprId,
    /// Where it may write.
    pub writing: Option<Writing>,
}

/// The expressions that read what a port writes, and by what it is told which parts.
#[derive(Clone, Copy)]
pub struct Writing {
    pub dat_w: ExprId,
    pub we: ExprId,
}

/// A register (`CSRStorage`, `CSRStatus`, `CSR`).
#[derive(Drop)]
pub struct RegisterState {
    /// What it is; it has no name before it is described.
    pub decl: RegDecl,
    /// The expression that reads each of its signals, in their order.
    pub reads: List<ExprId>,
}

/// A field of a register as it is described (`CSRField`).
#[derive(Drop)]
pub struct FieldState {
    pub name: Word,
    /// Its bits, 1 to 255.
    pub size: u8,
    /// Its lowest bit. Without it it follows the field before it.
    pub offset: Option<u8>,
    pub reset: i128,
    /// The line of its call.
    pub line: u32,
}

/// An event manager (`EventManager`) with the sources that it has so far.
#[derive(Drop)]
pub struct ManagerState {
    /// Its place among the objects.
    pub object: usize,
    /// The place of the module by which it is added to others. It has nothing of its own.
    pub module: usize,
    /// The sources that are bound to it, in order of binding.
    pub sources: List<usize>,
    /// The source under each name that its attributes have.
    pub names: Table<usize>,
    pub irq: SigId,
    /// The expression that reads `irq`.
    pub read: ExprId,
    /// The value of its register `enable`, whose bits are known once all sources are.
    pub enable: SigId,
}

/// A source of events.
#[derive(Drop)]
pub struct SourceState {
    /// Its place among the objects.
    pub object: usize,
    pub kind: SourceKind,
    /// `trigger`, `status`, `pending`, `clear`.
    pub signals: List<SigId>,
    /// The expression that reads each of them.
    pub reads: List<ExprId>,
    /// Whether it is bound to an event manager.
    pub bound: bool,
}

/// What a `SoCRegion` asks for.
#[derive(Clone, Copy)]
pub struct RegionState {
    /// The address of its first byte, where it is stated.
    pub origin: Option<u64>,
    /// Its bytes.
    pub size: u64,
    pub cached: bool,
}

/// An interface of the bus (`wishbone.Interface`).
#[derive(Drop)]
pub struct InterfaceState {
    /// `adr`, `dat_w`, `dat_r`, `sel`, `cyc`, `stb`, `we`, `ack`, `err`.
    pub signals: List<SigId>,
    /// The expression that reads each of them.
    pub reads: List<ExprId>,
    /// Whether it was handed to the bus, which gives its inputs from then on.
    pub handed: bool,
}

/// What a system declares beside its modules.
#[derive(Drop)]
pub struct SystemState {
    /// The address of its registers (`csr_base`).
    pub base: u64,
    /// The line of the last call of `super().__init__`; 0 without one.
    pub line: u32,
    /// The regions that it wishes for beside that of the registers, in order of the calls.
    pub regions: List<RegionWish>,
    /// What answers at each of them.
    pub slaves: List<SlaveDecl>,
    /// The numbers that it wishes for its banks (`csr.add`).
    pub fixes: List<Fix>,
    /// The interrupts that it wishes for (`irq.add`).
    pub irqs: List<Fix>,
    /// What `add_constant` added.
    pub constants: List<ConstDecl>,
}

/// A module and its fragment.
#[derive(Drop)]
pub struct Module {
    pub object: usize,
    pub class: usize,
    pub kind: ModuleKind,
    pub attributes: Table<Value>,
    /// The objects that its attributes bound themselves, in the order of the bindings.
    pub bound: List<usize>,
    /// Its combinatorial statements.
    pub comb: List<usize>,
    /// Its synchronous statements.
    pub sync: List<SyncItem>,
    pub submodules: List<Submodule>,
    /// The module that it was added to.
    pub added: Option<usize>,
    /// How many modules may still stand above it.
    pub room: u8,
}

/// A statement that was added to a clock domain.
#[derive(Clone, Copy)]
pub struct SyncItem {
    pub domain: usize,
    pub made: usize,
}

/// A module that was added, and whether by a name.
#[derive(Clone, Copy)]
pub struct Submodule {
    pub place: usize,
    pub named: bool,
}

/// A clock domain that was mentioned.
#[derive(Clone, Copy)]
pub struct DomainState {
    /// Whether a `ClockDomain` has declared it.
    pub declared: bool,
    /// Whether it has a reset.
    pub reset: bool,
}

/// A statement of FHDL, and what it counts.
#[derive(Drop)]
pub struct Made {
    pub form: Form,
    pub line: u32,
    /// Its nodes.
    pub size: u32,
    /// The levels of statements and targets in it.
    pub depth: u8,
    /// Whether `NextState` or `NextValue` stands in it, so that it may stand in a state alone.
    pub in_state: bool,
}

/// The form of a statement.
#[derive(Drop)]
pub enum Form {
    Assign {
        target: TargetId,
        value: ExprId,
    },
    /// `If`, or an `Elif` after the statement before.
    If {
        before: Option<usize>,
        cond: ExprId,
        body: List<usize>,
    },
    /// `Else` after the statement before.
    Else {
        before: usize,
        body: List<usize>,
    },
    Case {
        on: ExprId,
        arms: List<MadeArm>,
        rest: List<usize>,
    },
    /// `NextState`, with the place of the name among the texts.
    NextState {
        name: usize,
    },
    NextValue {
        target: TargetId,
        value: ExprId,
    },
}

/// A key of a `Case` with its statements.
#[derive(Drop)]
pub struct MadeArm {
    pub key: i128,
    pub body: List<usize>,
}
