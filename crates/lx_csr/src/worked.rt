//! Register maps and faults worked by hand.

ghost use Rattle.lx_csr.specs.Worked.{CollectionsAreWorked, FaultsAreWorked, MapsAreWorked, NamesAreWorked, WordsAreWorked};

/// Names, words, maps, and what is collected and refused.
pub fn registers_are_worked()
    ensures names { NamesAreWorked }
    ensures words { WordsAreWorked }
    ensures maps { MapsAreWorked }
    ensures collections { CollectionsAreWorked }
    ensures faults { FaultsAreWorked }
{}
