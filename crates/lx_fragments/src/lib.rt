//! What a description has made and added, laid out as the statements of a design.
#![tactic(auto)]

pub mod copies;
pub mod domains;
pub mod fragments;
pub mod laying;
pub mod places;
pub mod states;
pub mod worked;
