//! Systems whose parts have their places (the SoC builder of LiteX, its `SoC`).
#![tactic(auto)]

mod plain;
pub mod surveying;
pub mod system;
pub mod worked;

pub use surveying::survey;
pub use system::System;
