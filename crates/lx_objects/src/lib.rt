//! Statements and modules as a running description makes them, and what it adds to them.
#![tactic(auto)]

pub mod cases;
pub mod crossings;
pub mod domains;
pub mod events;
pub mod exprs;
pub mod fsms;
pub mod ios;
pub mod memories;
pub mod modules;
pub mod registers;
pub mod signals;
pub mod statements;
pub mod systems;
pub mod worked;
