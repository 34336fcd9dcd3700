//! Laws of the definitions, each on a function that does nothing.
ghost use Rattle.std.specs.Prelude.{ℕ, ◌<◌, ◌++◌, List, length};
ghost use Rattle.graph_trigger.specs.declared.trigger.Trigger.{Trigger};
ghost use Rattle.graph_meaning.specs.declared.claim.Claim.{Claim};
ghost use Rattle.graph_meaning.specs.declared.done.Done.{Done};
ghost use Rattle.graph_meaning.specs.Justified.{Justified};
ghost use Rattle.graph_meaning.specs.Lawful.{IsLawful};
ghost use Rattle.graph_meaning.specs.Match.{IsItemMatch, IsMatch};
ghost use Rattle.graph_meaning.specs.Same.{IsLeader, Same};
ghost use Rattle.graph_meaning.specs.Standing.{terms_of};
ghost use Rattle.match_laws.specs.History.{GivesLaw, HistoryLaw, StepHolds};
ghost use Rattle.match_laws.specs.OwedLaw.{CompleteLaw, CoversLaw, GivenLaw, JustifiedLaw, LateLaw, NothingCameLaw, SettledLaw, SoundLaw};
ghost use Rattle.match_laws.specs.StepLaw.{AreSame, Decided, StepLaw};

/// Whether two terms are equal can be told, and each term has a leader.
pub fn classes_law()
    ensures decided { (standing : List Done) (s t : ℕ) → IsLawful standing → Decided (Same standing s t) }
    ensures leader { (standing : List Done) (term : ℕ) → IsLawful standing → term < length (terms_of standing) → (leader : ℕ) × IsLeader standing term leader }
{}

/// After any operations that are no Pops, each match of an item was there before, up to classes, or a claim that is
/// justified since then has it.
pub fn step_law()
    ensures { StepLaw }
{}

/// What stays when operations come at the end: a match of an item, with the leaders of then; that a claim is justified
/// since an earlier list; and what is justified since a list is so since each of its fronts.
pub fn stay_law()
    ensures item { (before more : List Done) → IsLawful (before ++ more) → (trigger : Trigger) (start root : ℕ) (earlier binding : List ℕ) → IsItemMatch before trigger start root earlier → AreSame (before ++ more) earlier binding →
        IsMatch (before ++ more) trigger binding → IsItemMatch (before ++ more) trigger start root binding }
    ensures claim { (earlier before more : List Done) (claim : Claim) → IsLawful (before ++ more) → Justified earlier before claim → Justified earlier (before ++ more) claim }
    ensures front { (before more now : List Done) (claim : Claim) → IsLawful (before ++ more) → Justified (before ++ more) now claim → Justified before now claim }
{}

/// An operation that adds at most one term, and lists its unions, gives exactly the claims that it justifies.
pub fn given_law()
    ensures { GivenLaw }
{}

/// What is owed stays complete, justified and sound when operations come that give their claims; claims that were answered
/// in an earlier list may go, where those that came since stay; and where all were answered, each match is stored.
pub fn owed_law()
    ensures complete { CompleteLaw }
    ensures justified { JustifiedLaw }
    ensures sound { SoundLaw }
    ensures nothing_came { NothingCameLaw }
    ensures covers { CoversLaw }
    ensures late { LateLaw }
    ensures settled { SettledLaw }
{}

/// Through any steps, pushes and pops among them, what is owed stays complete and justified, and what is stored sound. The
/// claims of an operation's term, trigger and unions are what it has to give.
pub fn history_law()
    ensures step { StepHolds }
    ensures history { HistoryLaw }
    ensures gives { GivesLaw }
{}
