//! Operators worked by hand.

ghost use Rattle.lx_ops.specs.Worked.{AreAssigned, AreCompared, AreComputed, AreExpressed, AreLookedAt, HaveAttributes, HaveMemories, HavePorts, HaveStates};
ghost use Rattle.lx_ops.specs.WorkedRegisters.{AreBound, HaveInterfaces, HaveRegisters, HaveSources};

/// What operators do, worked by hand.
pub fn operators_are_worked()
    ensures computed { AreComputed }
    ensures compared { AreCompared }
    ensures expressed { AreExpressed }
    ensures assigned { AreAssigned }
    ensures attributes { HaveAttributes }
    ensures looked_at { AreLookedAt }
    ensures ports { HavePorts }
    ensures states { HaveStates }
    ensures memories { HaveMemories }
{}

/// What attributes registers, event managers and interfaces have, and what is bound to them, worked by hand.
pub fn registers_are_worked()
    ensures registers { HaveRegisters }
    ensures sources { HaveSources }
    ensures bound { AreBound }
    ensures interfaces { HaveInterfaces }
{}
