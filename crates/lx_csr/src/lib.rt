//! The registers of a system (LiteX's CSR documentation): collected from its modules, bank by bank, with the words
//! that the bus reaches them by; and their map once the banks have their numbers.
#![tactic(auto)]

pub mod c_words;
pub mod collecting;
mod defining;
mod faults;
mod gathering;
pub mod mapping;
mod names;
pub mod registers;
mod walking;
mod words;
pub mod worked;

pub use c_words::is_c_word;
pub use collecting::{bank_wishes, collect, constants};
pub use mapping::map;
pub use registers::{Bank, Register, RegisterMap, Registers, WordPlace};
