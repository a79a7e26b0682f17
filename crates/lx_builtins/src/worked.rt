//! Built-in names worked by hand.

ghost use Rattle.lx_builtins.specs.Worked.{AreClocked, AreCounted, AreDeclared, AreExpressed, AreStaged, AreStored, HavePorts};
ghost use Rattle.lx_builtins.specs.WorkedRegisters.{AreConstants, HaveFields, HaveSizes, HaveSources};
ghost use Rattle.lx_builtins.specs.WorkedSystems.{AreNumbered, AreOnTheBus, AreOptions, AreRegions};

/// What built-in names do, worked by hand.
pub fn builtins_are_worked()
    ensures clocked { AreClocked }
    ensures counted { AreCounted }
    ensures declared { AreDeclared }
    ensures expressed { AreExpressed }
    ensures staged { AreStaged }
    ensures stored { AreStored }
    ensures ports { HavePorts }
{}

/// What the built-in names of registers and events do, worked by hand.
pub fn registers_are_worked()
    ensures fields { HaveFields }
    ensures sizes { HaveSizes }
    ensures constants { AreConstants }
    ensures sources { HaveSources }
{}

/// What a system's top is asked for, worked by hand.
pub fn systems_are_worked()
    ensures options { AreOptions }
    ensures regions { AreRegions }
    ensures on_the_bus { AreOnTheBus }
    ensures numbered { AreNumbered }
{}
