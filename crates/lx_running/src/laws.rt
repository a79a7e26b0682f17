//! What holds of the answers of a trace.

ghost use Rattle.lx_running.specs.Laws.{IsOneAnswerLaw};

/// A circuit without a fault has one answer to a trace.
pub fn one_answer_law()
    ensures { IsOneAnswerLaw }
{}
