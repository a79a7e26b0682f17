//! The files that tell software where a system's parts are (LiteX's `export`), and a listing for a reader.
#![tactic(auto)]

pub mod lines;
pub mod memories;
pub mod object;
mod orders;
pub mod table;
mod texts;
pub mod worked;

pub use lines::listing;
pub use memories::regions_ld;
pub use object::csr_json;
pub use table::csr_csv;
