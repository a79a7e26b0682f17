//! What is counted once for all nodes of a design.

ghost use Rattle.std.specs.Prelude.{◌≡◌};
ghost use Rattle.lx_emission.specs.Emits.{CanBeEmitted};
ghost use Rattle.lx_emission.specs.Naming.{has_net};
ghost use Rattle.lx_sheet.specs.Plans.{plan};
ghost use Rattle.lx_sheet.specs.Tables.{AreTables};

use crate::drive::Drive;
use lx_fhdl::{Design, Expr};
use lx_num::Shape;
use lx_text::{List, Word};
use std::marker::Model;

/// What is counted once for all nodes and signals of a design.
#[derive(Drop)]
pub struct Tables {
    /// The shapes of all expressions.
    pub shapes: List<Shape>,
    /// The numbers of all expressions' nets.
    pub numbers: List<usize>,
    /// Whether each signal is a port.
    pub ports: List<bool>,
    /// How the net of each signal is driven.
    pub drives: List<Drive>,
}

/// What is read while the module of a design is made: a lowered design that keeps what it must, a name for the net
/// of each signal, and what is counted once for all nodes and signals.
#[derive(Drop)]
pub struct Sheet<'a> {
    /// The design.
    pub design: &'a Design,
    /// The names of its signals and memories.
    pub names: &'a List<Word>,
    pub(crate) tables: Tables,
}

impl<'a> Model for Sheet<'a> {
    ghost use Rattle.lx_sheet.specs.Plans.{Plan};

    ghost Value = { Plan };

    ghost use Rattle.lx_sheet.specs.Sheets.{plan_of, IsSheet};

    ghost view = { plan_of };

    ghost invariant = { IsSheet };
}

impl<'a> Sheet<'a> {
    /// The sheet of a lowered design, with its tables.
    pub fn new(design: &'a Design, names: &'a List<Word>, tables: Tables) -> Sheet<'a>
        requires can { CanBeEmitted design.now names.now }
        requires tables { AreTables design.now tables }
        ensures { result ≡ plan design.now names.now }
    {
        Sheet {
            design,
            names,
            tables,
        }
    }
}

/// Whether an expression has a net of its own, as every operator and slice has.
pub fn has_net(node: &Expr) -> bool
    ensures { result ≡ has_net node.now }
{
    match node {
        Expr::Const { .. } | Expr::Sig(_) => false,
        Expr::Unary { .. }
        | Expr::Binary { .. }
        | Expr::Mux { .. }
        | Expr::Cat(_)
        | Expr::Pick { .. }
        | Expr::Replicate { .. }
        | Expr::Slice { .. }
        | Expr::Fetch { .. } => true,
    }
}
