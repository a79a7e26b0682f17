//! Laws of making, and instances worked by hand.

ghost use Rattle.lx_shaped.specs.Laws.{MadeStands, OldStays};
ghost use Rattle.lx_shaped.specs.Worked.{AreAssigned, AreDeclared, AreFaulty, AreMade, HaveNoPlace};

/// What was made stands at its place, and what stood stays.
pub fn making_law()
    ensures made { MadeStands }
    ensures stays { OldStays }
{}

/// What comes of nodes over a small draft.
pub fn makings_are_worked()
    ensures made { AreMade }
    ensures faulty { AreFaulty }
    ensures misplaced { HaveNoPlace }
    ensures assigned { AreAssigned }
    ensures declared { AreDeclared }
{}
