//! One run of the program.

ghost use Rattle.std.specs.Prelude.{◌≡◌, ℕ, List, [], Some};
ghost use Rattle.lx_text.specs.declared.faults.Fault.{Fault};
ghost use Rattle.lx_command.specs.Commands.{Asked, command_of};
ghost use Rattle.lx_command.specs.Next.{Refuses};
ghost use Rattle.lx_command.specs.World.{world};
ghost use Rattle.lx_top.specs.Outcome.{Ends};
ghost use Rattle.lx_top.specs.Table.{Step};

use crate::making::make;
use lx_command::commands::read_command;
use lx_command::delivering::{deliver, report};
use lx_command::{Line, Status, tell};
use lx_outside::{Console, Sink, Source};
use lx_text::Word;
use std::alloc::Global;

/// Runs the command that the words are: loads from `src`, stores into `out`, says its answer on `con`, and one line
/// on `err` where it fails. All texts are made before the first is stored. The status tells how it ended.
pub fn lxb<S: Source, K: Sink, C: Console, E: Console>(
    alloc: Global,
    words: &[Word],
    src: &mut S,
    out: &mut K,
    con: &mut C,
    err: &mut E,
) -> Status
    ensures ends { Ends words.now
        (world (S.files src.old) (S.faults src.old) (K.stored out.old) (K.faults out.old) (C.said con.old) (C.faults con.old) (E.said err.old) (E.faults err.old))
        (world (S.files src.new) (S.faults src.new) (K.stored out.new) (K.faults out.new) (C.said con.new) (C.faults con.new) (E.said err.new) (E.faults err.new))
        result }
    ensures quiet { (c : Asked) (file : List ℕ) (f : Fault) → command_of words.now ≡ Some c → Step c [] (Refuses file f) → src.new ≡ src.old }
{
    let Some(command) = read_command(words) else {
        tell(err, Line::Usage);
        return Status::Usage;
    };
    match make(alloc, command, src) {
        Ok(texts) => deliver(&texts, out, con, err),
        Err(stop) => report(alloc, &stop, err),
    }
}
