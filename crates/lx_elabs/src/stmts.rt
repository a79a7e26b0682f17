//! The nodes of statements.

use crate::pieces::{put, put_expr, put_line, put_stmts, put_target};
use lx_fhdl::{Arm, Branch, Stmt};
use lx_text::{NoMemory, Text};

fn put_branches(branches: &[Branch], out: &mut Text) -> Result<(), NoMemory> {
    for branch in branches {
        out.word(b" if")?;
        put_expr(branch.cond, out)?;
        put_stmts(branch.body.as_slice(), out)?;
    }
    Ok(())
}

fn put_arms(arms: &[Arm], out: &mut Text) -> Result<(), NoMemory> {
    for arm in arms {
        out.word(b" key ")?;
        out.dec(arm.key)?;
        put_stmts(arm.body.as_slice(), out)?;
    }
    Ok(())
}

fn put_stmt(stmt: &Stmt, out: &mut Text) -> Result<(), NoMemory> {
    match stmt {
        Stmt::Assign {
            target,
            value,
            line,
        } => {
            put_target(*target, out)?;
            out.word(b" =")?;
            put_expr(*value, out)?;
            put_line(*line, out)
        }
        Stmt::If {
            branches,
            rest,
            line,
        } => {
            put_branches(branches.as_slice(), out)?;
            out.word(b" else")?;
            put_stmts(rest.as_slice(), out)?;
            put_line(*line, out)
        }
        Stmt::Case {
            on,
            arms,
            rest,
            line,
        } => {
            out.word(b" case")?;
            put_expr(*on, out)?;
            put_arms(arms.as_slice(), out)?;
            out.word(b" default")?;
            put_stmts(rest.as_slice(), out)?;
            put_line(*line, out)
        }
    }
}

pub(crate) fn put_all_stmts(stmts: &[Stmt], out: &mut Text) -> Result<(), NoMemory> {
    for (place, stmt) in stmts.iter().enumerate() {
        put(b"  !", place, out)?;
        out.word(b":")?;
        put_stmt(stmt, out)?;
        out.word(b"\n")?;
    }
    Ok(())
}
