//! Tables of words and of operators.
#![tactic(auto)]

pub mod operators;
pub mod words;

pub use operators::{Mix, Op, OpRow, OpText, op_row};
pub use words::{LONGEST, Words, is_python_word, is_verilog_word};
