//! Systems that run, worked by hand; and a system that meets every premise of the laws.

ghost use Rattle.lx_machine.specs.Worked.{EventsAreWorked, StoragesAreWorked};
ghost use Rattle.lx_machine.specs.WorkedTiny.{TinyIsWorked, TinyMeetsPremises};

/// Storages of 12, 33 and 40 bits in words of 8 and 32 bits, in both orderings, plain and atomic.
pub fn storages_are_worked()
    ensures { StoragesAreWorked }
{}

/// Pulses, rising and falling triggers and levels, cleared and enabled.
pub fn events_are_worked()
    ensures { EventsAreWorked }
{}

/// A system with a register of each kind, an event manager, a RAM, a ROM and a user slave.
pub fn tiny_is_worked()
    ensures { TinyIsWorked }
{}

/// It keeps to the rules, has an order of its reads, and runs every access and accessor.
pub fn tiny_meets_premises()
    ensures { TinyMeetsPremises }
{}
