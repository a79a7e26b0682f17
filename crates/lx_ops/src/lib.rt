//! What the operators of a description do with its values, and what their attributes are.
#![tactic(auto)]

pub mod attributes;
pub mod comparisons;
pub mod exprs;
pub mod items;
pub mod operators;
pub mod places;
pub mod signs;
pub mod targets;
pub mod worked;

pub use attributes::{Fragment, attribute_of};
pub use comparisons::{Comparison, Sign, compare, negated, prefixed, truth, truth_value};
pub use exprs::{expr_of, exprs_of};
pub use items::{item_of, slice_of};
pub use operators::binary;
pub use places::{Holder, Part, add_at, adds, bind_at, holder_of, read_at, setattr_holder};
pub use targets::{Aim, assign, target_of};
