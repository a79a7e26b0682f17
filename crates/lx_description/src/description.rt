//! A description.

use crate::fsms::{FsmDecl, FsmStmts};
use crate::modules::{ConstDecl, ModuleDecl};
use crate::slaves::SlaveDecl;
use lx_fhdl::{Design, Wishes};
use lx_text::{List, Word};

/// What a text describes.
#[derive(Drop)]
pub struct Description {
    /// The name of the last class.
    pub top: Word,
    /// Whether it is a system (`SoCCore`): a master port of the bus and the reset of the domain `sys` are there.
    pub soc: bool,
    /// The circuit. Of a system the first ten signals are the ports of the bus: `wb_adr`, `wb_dat_w`, `wb_sel`, `wb_cyc`,
    /// `wb_stb`, `wb_we`, `wb_dat_r`, `wb_ack`, `wb_err`, `irq`.
    pub design: Design,
    /// The top, then the modules that were added to it or below.
    pub modules: List<ModuleDecl>,
    /// The slave of each region but the first, in declared order.
    pub slaves: List<SlaveDecl>,
    /// The wishes for places. Of a system the first region is that of the registers. The lists of banks and of modules
    /// with event managers are empty: they are told by the modules.
    pub wishes: Wishes,
    /// The constants that the top adds itself (`add_constant`).
    pub constants: List<ConstDecl>,
    /// The statements of all FSMs, over the design's expressions and targets.
    pub fsm_stmts: FsmStmts,
    /// The FSMs whose statements the design doesn't have yet, in order of creation.
    pub fsms: List<FsmDecl>,
}
