//! The laws of the system machine: settling and views of a system, and what an accessor does on its bus
//! (Wishbone B4, "Standard single read and write"; LiteX, "CSR" and "Event Manager").

ghost use Rattle.lx_machine.specs.Laws.{IsAnswerLaw, IsAtomicLaw, IsEachLaw, IsLaidLaw, IsOthersLaw, IsPendingLaw, IsRamLaw, IsRawLaw, IsReadLaw, IsShownLaw, IsStorageLaw, IsStrobeLaw, IsWriteLaw};
ghost use Rattle.lx_machine.specs.Maps.{IsMapLaw};
ghost use Rattle.lx_machine.specs.Running.{IsComputedLaw};
ghost use Rattle.lx_machine.specs.Settling.{IsRunLaw, IsSystemSettlingLaw, IsSystemViewLaw};

/// A system in which an order of reads exists, the bus's own among them, has exactly one settled
/// valuation, under each state and all inputs.
pub fn system_settling_law()
    ensures { IsSystemSettlingLaw }
{}

/// A system in which an order of reads exists has exactly one view after every list of steps.
pub fn system_view_law()
    ensures { IsSystemViewLaw }
{}

/// A view is what is settled in the state where a run of the same steps ended, and the other way round.
pub fn run_law()
    ensures { IsRunLaw }
{}

/// Where an order of reads has ranks below n, what n rounds compute in each step is a run.
pub fn computed_law()
    ensures { IsComputedLaw }
{}

/// For every width of words, ordering, paging and base, the map of banks that fit has each register in
/// words without gaps, and no two words at one address.
pub fn map_law()
    ensures { IsMapLaw }
{}

/// An access of a register's region, from an idle bus and with any other inputs and edges between, is
/// acknowledged after its taking edge up to its last step, and leaves the bus idle.
pub fn answer_law()
    ensures { IsAnswerLaw }
{}

/// A word laid over a register: its bits become those of the number, and no other bit changes.
pub fn laid_law()
    ensures { IsLaidLaw }
{}

/// What an access leaves of each storage and of its buffer: the word that is written, the device's
/// writes, and nothing else.
pub fn storage_law()
    ensures { IsStorageLaw }
{}

/// `re` of a storage is 1 after its last word was written, and `we` of a status after its last word was read.
pub fn strobe_law()
    ensures { IsStrobeLaw }
{}

/// What an access leaves of each pending bit: a trigger wins over a clear, and a clear needs the word that
/// holds the bit.
pub fn pending_law()
    ensures { IsPendingLaw }
{}

/// A raw register shows a write, or a read, in each view up to the taking edge, and none after it.
pub fn raw_law()
    ensures { IsRawLaw }
{}

/// An access of a register's region changes no word of a RAM.
pub fn ram_law()
    ensures { IsRamLaw }
{}

/// Each access of an accessor is one from an idle bus, so the laws of one access hold of each.
pub fn each_law()
    ensures { IsEachLaw }
{}

/// A read accessor returns the fields of the register's value, for any number of words in either ordering.
pub fn read_law()
    ensures { IsReadLaw }
{}

/// A write accessor leaves its number in a storage that no device writes, for any number of words in
/// either ordering.
pub fn write_law()
    ensures { IsWriteLaw }
{}

/// An atomic storage becomes the number as a whole at the last taking edge.
pub fn atomic_law()
    ensures { IsAtomicLaw }
{}

/// An accessor of a register changes no storage of another one, but by that one's device, and no word of a
/// RAM; a read accessor changes no storage at all.
pub fn others_law()
    ensures { IsOthersLaw }
{}

/// The signals `storage` and `re` of a storage are what the machine keeps of it.
pub fn shown_law()
    ensures { IsShownLaw }
{}
