//! The values of a running description.

use lx_fhdl::ExprId;

/// What an expression of a description gives. Texts, lists and all that is made stand in the machine, and a value
/// names them by their places.
#[derive(Clone, Copy)]
pub enum Value {
    Nothing,
    /// `True` is 1, and `False` 0.
    Int(i128),
    Text(usize),
    List(usize),
    Tuple(usize),
    Dictionary(usize),
    /// FHDL's `Array`: its items stand among the lists.
    Array(usize),
    /// An expression of FHDL; a signal is one whose node names it.
    Expr(ExprId),
    /// A statement of FHDL, added or not.
    Made(usize),
    Object(usize),
    Class(usize),
    Builtin(Builtin),
    Method(Method),
    /// `super()` in the `__init__` of this module.
    Super(usize),
    /// `fields` of a register, by its place among the registers.
    Fields(usize),
    /// `bus`, `csr` or `irq` of a system.
    Hub(Hub),
}

/// A method that is bound to its object.
#[derive(Clone, Copy)]
pub enum Method {
    /// `eq` of an expression.
    Eq(ExprId),
    /// `Elif` of an `If`.
    Elif(usize),
    /// `Else` of an `If`.
    Else(usize),
    /// `super().__init__` of a module.
    Init(usize),
    /// `act` of an FSM.
    Act(usize),
    /// `ongoing` of an FSM.
    Ongoing(usize),
    /// `get_port` of a memory.
    GetPort(usize),
    /// `finalize` of an event manager, which has no effect.
    Finalize,
    /// `Interface` of `wishbone`.
    Interface,
    /// `add_ram` of a system.
    AddRam,
    /// `add_rom` of a system.
    AddRom,
    /// `add_constant` of a system.
    AddConstant,
    /// `bus.add_slave` of a system.
    AddSlave,
    /// `csr.add` of a system.
    AddBank,
    /// `irq.add` of a system.
    AddInterrupt,
}

/// What a system is asked by for places.
#[derive(Clone, Copy)]
pub enum Hub {
    Bus,
    Csr,
    Irq,
}

/// The names that every description may use ("Built-in names" of the description's language).
#[derive(Clone, Copy)]
pub enum Builtin {
    Range,
    Len,
    Enumerate,
    Zip,
    Reversed,
    List,
    Min,
    Max,
    Int,
    Str,
    BitsFor,
    Log2Int,
    SetAttr,
    GetAttr,
    Super,
    Signal,
    C,
    Constant,
    Cat,
    Replicate,
    Mux,
    Array,
    If,
    Case,
    Memory,
    WriteFirst,
    ReadFirst,
    NoChange,
    ClockDomain,
    MultiReg,
    Fsm,
    NextState,
    NextValue,
    Csr,
    CsrStorage,
    CsrStatus,
    CsrConstant,
    CsrField,
    EventManager,
    EventSourcePulse,
    EventSourceProcess,
    EventSourceLevel,
    SocRegion,
    Wishbone,
}
