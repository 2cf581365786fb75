// What holds of all verdicts.

ghost use Rattle.answer_check.specs.Laws.{AnswersHold, HoldingProves};
ghost use Rattle.answer_check.specs.Worked.{VerdictsAreWorked};

/// Worked verdicts.
pub fn verdicts_are_worked()
    ensures { VerdictsAreWorked }
{}

/// A certificate that holds proves what it states: the value of its query lies in its interval, which is no wider than
/// its budget. Nothing is asked of who made it.
pub fn holding_proves()
    ensures { HoldingProves }
{}

/// The certificate of the answer of a descent over a store holds over that store.
pub fn answers_hold()
    ensures { AnswersHold }
{}
