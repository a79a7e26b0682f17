//! Files worked by hand.

ghost use Rattle.lx_export.specs.Worked.{CsvIsWorked, JsonIsWorked, LdIsWorked, ListingIsWorked};

/// The files of a timer's system, of one without a bank, of registers of two words, and of no system.
pub fn files_are_worked()
    ensures csv { CsvIsWorked }
    ensures json { JsonIsWorked }
    ensures ld { LdIsWorked }
    ensures listing { ListingIsWorked }
{}
