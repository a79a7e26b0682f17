//! That there are designs with memories to be written.

ghost use Rattle.lx_emission.specs.Instance.{stored, stored_names};
ghost use Rattle.lx_write.specs.Writes.{CanBeWritten};

/// A design with memories that are written in parts and whole, and read at a signal and at a constant, can be written.
pub fn stored_law()
    ensures { CanBeWritten stored stored_names }
{}
