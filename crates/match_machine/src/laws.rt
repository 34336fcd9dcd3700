//! A law of the definitions, on a function that does nothing.
ghost use Rattle.match_machine.specs.Answers.{AnswersAreMatches};

/// Over the forest of some triggers the answer to an entry has exactly the matches of its trigger whose pattern at the
/// entry's start matches the root.
pub fn answers_law()
    ensures { AnswersAreMatches }
{}
