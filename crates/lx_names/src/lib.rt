//! Values under names, in the order in which the names came first.
#![tactic(auto)]

mod table;

pub use table::{Table, table_law, tables_are_worked};
