//! Shapes of nodes over two children, of four signed and four unsigned bits.

ghost use Rattle.std.specs.Prelude.{◌≡◌};

use lx_arena::Id;
use lx_fhdl::{Expr, ExprId};
use lx_num::Shape;
use lx_tables::Op;
use lx_text::{NoMemory, Text};
use lx_width::node_shape;
use std::marker::PhantomData;

fn id(place: usize) -> ExprId
    ensures { result.place ≡ place }
{
    Id {
        place,
        of: PhantomData,
    }
}

/// The shapes of a choice, of a sum, and of the read of a word of nine bits.
pub(crate) fn show_shapes(out: &mut Text) -> Result<(), NoMemory> {
    let shapes = [
        Shape {
            bits: 4,
            signed: true,
        },
        Shape {
            bits: 4,
            signed: false,
        },
    ];
    let mux = Expr::Mux {
        cond: id(0),
        yes: id(0),
        no: id(1),
    };
    show_shape(b"a choice", node_shape(&mux, &shapes, &[]).ok(), out)?;
    let sum = Expr::Binary {
        op: Op::Add,
        left: id(0),
        right: id(1),
    };
    show_shape(b"a sum", node_shape(&sum, &shapes, &[]).ok(), out)?;
    let word = Expr::Fetch {
        memory: 0,
        width: 9,
        at: id(1),
    };
    show_shape(b"a word", node_shape(&word, &shapes, &[]).ok(), out)
}

fn show_shape(what: &[u8], shape: Option<Shape>, out: &mut Text) -> Result<(), NoMemory> {
    out.word(what)?;
    let Some(shape) = shape else {
        return out.word(b": no shape\n");
    };
    out.word(b": ")?;
    out.count(shape.bits as u128)?;
    out.word(if shape.signed {
        b" signed\n".as_slice()
    } else {
        b" unsigned\n".as_slice()
    })
}
