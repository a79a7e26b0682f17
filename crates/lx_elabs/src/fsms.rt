//! State machines, and the nodes of their statements.

use crate::pieces::{put, put_expr, put_line, put_signal, put_target};
use lx_description::{
    Asked, Description, FsmArm, FsmBranch, FsmDecl, FsmPlace, FsmStmt, FsmStmtId, StateDecl,
};
use lx_text::{NoMemory, Text, Word};

fn put_ids(ids: &[FsmStmtId], out: &mut Text) -> Result<(), NoMemory> {
    for id in ids {
        put(b" ^", id.place, out)?;
    }
    Ok(())
}

fn put_name(name: &Word, out: &mut Text) -> Result<(), NoMemory> {
    out.word(b" ")?;
    out.word(name.as_bytes())
}

fn put_branches(branches: &[FsmBranch], out: &mut Text) -> Result<(), NoMemory> {
    for branch in branches {
        out.word(b" if")?;
        put_expr(branch.cond, out)?;
        put_ids(branch.body.as_slice(), out)?;
    }
    Ok(())
}

fn put_arms(arms: &[FsmArm], out: &mut Text) -> Result<(), NoMemory> {
    for arm in arms {
        out.word(b" key ")?;
        out.dec(arm.key)?;
        put_ids(arm.body.as_slice(), out)?;
    }
    Ok(())
}

fn put_stmt(stmt: &FsmStmt, out: &mut Text) -> Result<(), NoMemory> {
    match stmt {
        FsmStmt::Assign {
            target,
            value,
            line,
        } => {
            put_target(*target, out)?;
            out.word(b" =")?;
            put_expr(*value, out)?;
            put_line(*line, out)
        }
        FsmStmt::If {
            branches,
            rest,
            line,
        } => {
            put_branches(branches.as_slice(), out)?;
            out.word(b" else")?;
            put_ids(rest.as_slice(), out)?;
            put_line(*line, out)
        }
        FsmStmt::Case {
            on,
            arms,
            rest,
            line,
        } => {
            out.word(b" case")?;
            put_expr(*on, out)?;
            put_arms(arms.as_slice(), out)?;
            out.word(b" default")?;
            put_ids(rest.as_slice(), out)?;
            put_line(*line, out)
        }
        FsmStmt::NextState { name, line } => {
            out.word(b" next")?;
            put_name(name, out)?;
            put_line(*line, out)
        }
        FsmStmt::NextValue {
            target,
            value,
            line,
        } => {
            out.word(b" next")?;
            put_target(*target, out)?;
            out.word(b" =")?;
            put_expr(*value, out)?;
            put_line(*line, out)
        }
    }
}

fn put_stmts(stmts: &[FsmStmt], out: &mut Text) -> Result<(), NoMemory> {
    for (place, stmt) in stmts.iter().enumerate() {
        put(b"  ^", place, out)?;
        out.word(b":")?;
        put_stmt(stmt, out)?;
        out.word(b"\n")?;
    }
    Ok(())
}

fn put_place(place: Option<FsmPlace>, out: &mut Text) -> Result<(), NoMemory> {
    match place {
        Some(before) => {
            put(b" behind ", before.comb, out)?;
            put(b" ", before.sync, out)
        }
        None => out.word(b" nowhere"),
    }
}

fn put_start(start: Option<&Word>, out: &mut Text) -> Result<(), NoMemory> {
    match start {
        Some(name) => {
            out.word(b" start")?;
            put_name(name, out)
        }
        None => Ok(()),
    }
}

fn put_state(state: &StateDecl, out: &mut Text) -> Result<(), NoMemory> {
    out.word(b"   ")?;
    put_name(&state.name, out)?;
    out.word(b":")?;
    put_ids(state.body.as_slice(), out)?;
    out.word(b"\n")
}

fn put_asked(asked: &Asked, out: &mut Text) -> Result<(), NoMemory> {
    out.word(b"    ongoing")?;
    put_name(&asked.name, out)?;
    put_signal(asked.signal, out)?;
    put_line(asked.line, out)?;
    out.word(b"\n")
}

fn put_parts(fsm: &FsmDecl, out: &mut Text) -> Result<(), NoMemory> {
    for state in fsm.states.as_slice() {
        put_state(state, out)?;
    }
    for asked in fsm.asked.as_slice() {
        put_asked(asked, out)?;
    }
    Ok(())
}

fn put_fsm(fsm: &FsmDecl, out: &mut Text) -> Result<(), NoMemory> {
    out.word(b"  fsm")?;
    put_signal(fsm.state, out)?;
    put_start(fsm.start.as_ref(), out)?;
    put_place(fsm.place, out)?;
    put_line(fsm.line, out)?;
    out.word(b"\n")?;
    put_parts(fsm, out)
}

pub(crate) fn put_fsms(description: &Description, out: &mut Text) -> Result<(), NoMemory> {
    put_stmts(description.fsm_stmts.as_slice(), out)?;
    for fsm in description.fsms.as_slice() {
        put_fsm(fsm, out)?;
    }
    Ok(())
}
