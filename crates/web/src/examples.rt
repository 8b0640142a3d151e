//! Worked examples.

ghost use Rattle.web.specs.Examples.{WorkedAnswers};

/// Does nothing when run; the contract has the worked answers, byte for byte.
pub fn worked_answers_hold()
    ensures { WorkedAnswers }
{}
