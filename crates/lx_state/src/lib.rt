//! The values of a running description, the machine that holds them, and the steps that it takes.
#![tactic(auto)]

pub mod builtins;
pub mod frames;
pub mod lists;
pub mod machine;
pub mod naming;
pub mod values;
pub mod work;
pub mod worked;

pub use machine::{
    Binding, Class, ClockDomain, DomainState, Form, Frame, Fsm, Items, Leaves, Machine, Made,
    MadeArm, Module, ModuleKind, Object, Ongoing, Owner, Pair, Specials, Submodule, SyncItem, What,
};
pub use values::{Builtin, Hub, Method, Value};
