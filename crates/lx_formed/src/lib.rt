//! That what the grammar derives has a form throughout.
#![tactic(auto)]

pub mod laws;
