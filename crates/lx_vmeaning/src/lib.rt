//! What a Verilog module means: own sizes and bits in a context, drivers, steps and views, and when it
//! has a cycle meaning at all (IEEE 1364-2005, in two states).
#![tactic(auto)]

pub mod laws;
