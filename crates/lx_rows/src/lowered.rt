//! The module of a design with statements and targets of each form, and the lines of its lowered statements.

ghost use Rattle.std.specs.Prelude.{◌≡◌};
ghost use Rattle.lx_rows.specs.Forms as form;

use crate::each_form::{forms, forms_names};
use lx_fhdl::{Design, Stmt};
use lx_lower::lower;
use lx_text::{NoMemory, Text};
use lx_vprint::print;
use lx_write::write_module;
use std::alloc::Global;

/// Adds the module of the design, and a line of text for each of its lowered statements: its kind, and its line.
pub fn show(alloc: Global, out: &mut Text) -> Result<(), NoMemory> {
    let design = forms(alloc)?;
    show_module(alloc, &design, out)?;
    show_lines(alloc, &design, out)
}

fn show_module(alloc: Global, design: &Design, out: &mut Text) -> Result<(), NoMemory>
    requires { design.now ≡ form.forms }
{
    let names = forms_names(alloc)?;
    let module = write_module(alloc, design, &names)?;
    let text = print(alloc, &module)?;
    out.word(text.as_bytes())
}

fn show_lines(alloc: Global, design: &Design, out: &mut Text) -> Result<(), NoMemory>
    requires { design.now ≡ form.forms }
{
    let lowered = lower(alloc, design)?;
    for stmt in lowered.stmts.as_slice() {
        show_line(stmt, out)?;
    }
    Ok(())
}

fn show_line(stmt: &Stmt, out: &mut Text) -> Result<(), NoMemory> {
    let (kind, line) = match stmt {
        Stmt::Assign { line, .. } => (b"assign ".as_slice(), *line),
        Stmt::If { line, .. } => (b"if ".as_slice(), *line),
        Stmt::Case { line, .. } => (b"case ".as_slice(), *line),
    };
    out.word(kind)?;
    out.dec(line as i128)?;
    out.word(b"\n")
}
