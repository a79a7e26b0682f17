//! The leaves of elaboration: Python's whole numbers, the budget of work, names that came before, and the binding of
//! arguments.
#![tactic(auto)]

pub mod arguments;
pub mod numbers;
pub mod seen;
pub mod work;

pub use arguments::{BindFault, Bound, Param, bind};
pub use numbers::{NumFault, PyOp, int_op};
pub use seen::Seen;
pub use work::Budget;
