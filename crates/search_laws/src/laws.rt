//! Laws of the search, each on a function that does nothing.
ghost use Rattle.search_laws.specs.Laws.{HasOneVerdict, UnsatRefutes, SatSatisfies, OpensForACause};

use formula_assert::laws::{asserts_law, one_answer_law, tables_law};
use formula_table::laws::entry_law;
use match_store::laws::new_law;

/// The search of what is held ends in one way.
pub fn one_verdict_law()
    ensures { HasOneVerdict }
{
    asserts_law();
    tables_law();
    one_answer_law();
    new_law();
}

/// Where the search of what is held ends without a way out, finitely many instances of foralls refute what is asserted:
/// no finite assignment satisfies it and obeys each of them.
pub fn unsat_law()
    ensures { UnsatRefutes }
{
    entry_law();
}

/// Where the search ends with a way out, the leaders of its terms make an assignment that satisfies what is asserted.
pub fn sat_law()
    ensures { SatSatisfies }
{}

/// Where the search ends open, no conflict stands, no disjunction is open and some forall is live. Where it ends so as nothing
/// is new, nothing is; where it ends so as its rounds are spent, some instance is new, and as many rounds as it may have entered
/// one instance or more each.
pub fn open_law()
    ensures { OpensForACause }
{}
