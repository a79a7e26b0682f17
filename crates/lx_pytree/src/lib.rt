//! The syntax tree of a description: what the grammar derives from its tokens.
#![tactic(auto)]

mod machine;
pub mod reading;
pub mod tree;

pub use reading::read;
pub use tree::{PyNode, PyNodes, PyPart, Tree};
