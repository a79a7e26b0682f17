//! Pieces of a line, each behind a blank.

use lx_fhdl::{ExprId, SigId, StmtId, TargetId};
use lx_text::{NoMemory, Text, Word};

/// A word and a number.
pub(crate) fn put(word: &[u8], number: usize, out: &mut Text) -> Result<(), NoMemory> {
    out.word(word)?;
    out.count(number as u128)
}

pub(crate) fn put_line(line: u32, out: &mut Text) -> Result<(), NoMemory> {
    put(b" line ", line as usize, out)
}

pub(crate) fn put_signal(id: SigId, out: &mut Text) -> Result<(), NoMemory> {
    put(b" s", id.0, out)
}

pub(crate) fn put_signals(ids: &[SigId], out: &mut Text) -> Result<(), NoMemory> {
    for id in ids {
        put_signal(*id, out)?;
    }
    Ok(())
}

pub(crate) fn put_expr(id: ExprId, out: &mut Text) -> Result<(), NoMemory> {
    put(b" #", id.place, out)
}

pub(crate) fn put_exprs(ids: &[ExprId], out: &mut Text) -> Result<(), NoMemory> {
    for id in ids {
        put_expr(*id, out)?;
    }
    Ok(())
}

pub(crate) fn put_target(id: TargetId, out: &mut Text) -> Result<(), NoMemory> {
    put(b" @", id.place, out)
}

pub(crate) fn put_targets(ids: &[TargetId], out: &mut Text) -> Result<(), NoMemory> {
    for id in ids {
        put_target(*id, out)?;
    }
    Ok(())
}

pub(crate) fn put_stmts(ids: &[StmtId], out: &mut Text) -> Result<(), NoMemory> {
    for id in ids {
        put(b" !", id.place, out)?;
    }
    Ok(())
}

/// Names, each behind the mark.
pub(crate) fn put_path(path: &[Word], out: &mut Text) -> Result<(), NoMemory> {
    let mut mark: &[u8] = b" ";
    for name in path {
        out.word(mark)?;
        out.word(name.as_bytes())?;
        mark = b".";
    }
    Ok(())
}
