//! The tokens of a description's text.
#![tactic(auto)]

mod bytes;
pub mod laws;
mod levels;
mod lexemes;
mod lines;
mod meanings;
mod numbers;
mod pieces;
mod quotes;
mod reader;
pub mod tokens;

pub use meanings::quoted_word;
pub use numbers::whole_number;
pub use tokens::{Token, TokenKind};
