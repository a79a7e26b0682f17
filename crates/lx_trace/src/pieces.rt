//! Bytes that are cut at a byte.

ghost use Rattle.std.specs.Prelude.{◌≡◌, IfOk, OnOk};
ghost use Rattle.lx_trace.specs.Pieces.{pieces};
ghost use Rattle.lx_trace.specs.Cuts.{IsCut};

use lx_text::{List, NoMemory, Word};
use std::alloc::Global;
use std::mem;

// The pieces so far, and what is there of the next one.
#[derive(Drop)]
struct Cutting {
    done: List<Word>,
    front: List<u8>,
}

// One byte more.
fn put(alloc: Global, cutting: &mut Cutting, mark: u8, byte: u8) -> Result<(), NoMemory>
    ensures { OnOk result (IsCut mark byte cutting.old cutting.new) }
{
    if byte != mark {
        return cutting.front.push(byte);
    }
    let front = mem::replace(&mut cutting.front, List::new(alloc));
    cutting.done.push(Word::from_list(front))
}

#[tactic(auto, using(crate::proofs::Cuts::cut_more, crate::proofs::Cuts::cut_start, crate::proofs::Cuts::cut_end))]
/// The pieces of some bytes, between those that are the mark.
pub fn pieces(alloc: Global, mark: u8, bytes: &[u8]) -> Result<List<Word>, NoMemory>
    ensures { IfOk result (λ list. list ≡ pieces mark bytes.now) }
{
    let mut cutting = Cutting {
        done: List::new(alloc),
        front: List::new(alloc),
    };
    for byte in bytes {
        put(alloc, &mut cutting, mark, *byte)?;
    }
    let Cutting { done, front } = cutting;
    let mut list = done;
    list.push(Word::from_list(front))?;
    Ok(list)
}
