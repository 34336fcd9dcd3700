//! Laws on which literals are looked at.
ghost use Rattle.search_watch.specs.Back.{GoesBackFurther};
ghost use Rattle.search_watch.specs.Covers.{JoinIsUndone, JoinKeepsCovering, JoinKeepsItems};
ghost use Rattle.search_watch.specs.Serves.{CoveringServes};
ghost use Rattle.search_watch.specs.Grown.{TermsKeepClasses, AddsAreTerms};
ghost use Rattle.search_watch.specs.Found.{FoundClashes, FoundSuffices, UnionsAreLed};
ghost use Rattle.search_watch.specs.Laws.{ChangesAreLookedAt, DifferencesAreLookedAt, ClashesAreMet, ValuesStay};

/// The unions that a graph lists name two leaders each, as the walk over them asks.
pub fn unions_are_led()
    ensures { UnionsAreLed }
{}

/// Each literal whose value is another after some unions is among those looked at.
pub fn changes_are_looked_at()
    ensures { ChangesAreLookedAt }
{}

/// Each literal whose value is another after one more difference is between the two classes.
pub fn differences_are_looked_at()
    ensures { DifferencesAreLookedAt }
{}

/// A difference whose ends became equal is met at one of the unions.
pub fn clashes_are_met()
    ensures { ClashesAreMet }
{}

/// A value that is set stays, until a conflict.
pub fn values_stay()
    ensures { ValuesStay }
{}

/// Chains hold what the terms of each class end, also once two of them were joined.
pub fn join_keeps_covering()
    ensures { JoinKeepsCovering }
{}

/// Each literal whose value is another after some unions was found, or is between the ends of a difference that was found.
pub fn found_suffices()
    ensures { FoundSuffices }
{}

/// Two notes undo what joined two chains.
pub fn join_is_undone()
    ensures { JoinIsUndone }
{}

/// A watch can go back to itself, and as far as what it can go back to could.
pub fn can_go_back_further()
    ensures { GoesBackFurther }
{}

/// The chains after the unions are those by which the graph after them is evaluated.
pub fn covering_serves()
    ensures { CoveringServes }
{}

/// A difference whose ends became equal was found.
pub fn found_clashes()
    ensures { FoundClashes }
{}

/// Joined chains have the items that they had.
pub fn join_keeps_items()
    ensures { JoinKeepsItems }
{}

/// Where only terms came, terms that stood are equal just where they were before; and only terms come where operations add
/// rows.
pub fn terms_law()
    ensures same { TermsKeepClasses }
    ensures adds { AddsAreTerms }
{}
