//! What holds of every run.

ghost use Rattle.lx_top.specs.Completeness.{IsCompletenessLaw, IsGivingLaw};
ghost use Rattle.lx_top.specs.Modules.{AreBuilt};
ghost use Rattle.lx_top.specs.Worked.{AreWorked};
ghost use Rattle.lx_top.specs.Table.{IsOneAnswerLaw, IsOneTextLaw};

/// Where the words are a command that comes to no fault and lacks no file, and no call failed, a run is done or out of
/// memory. With sources, sinks and consoles whose count of faults is always 0, no call fails.
pub fn completeness_law()
    ensures { IsCompletenessLaw }
{}

/// From the same files a command goes on in one way.
pub fn one_answer_law()
    ensures { IsOneAnswerLaw }
{}

/// From the same files `sim` gives one text, and stores nothing.
pub fn one_text_law()
    ensures { IsOneTextLaw }
{}

/// A command that comes to give, over files that are told, comes to no fault, and lacks no file.
pub fn giving_law()
    ensures { IsGivingLaw }
{}

/// What the files of a circuit without a bus tell, worked by hand.
pub fn files_are_worked()
    ensures { AreWorked }
{}

/// Which descriptions are built, worked by hand.
pub fn modules_are_worked()
    ensures { AreBuilt }
{}
