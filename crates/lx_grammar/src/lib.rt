//! The grammar of a description, the signs of its tokens, and what stands ahead of a place.
#![tactic(auto)]

pub mod ahead;
pub mod grammar;
pub mod laws;
pub mod sign;

pub use ahead::view_of;
pub use grammar::{Rule, Spot, Symbol, looks_far, production, rule_of};
pub use sign::{Item, Sign, number_of, sign_of, signed, token_text};
