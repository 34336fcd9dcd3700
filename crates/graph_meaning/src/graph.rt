//! What every graph of terms answers. No answer takes memory.
ghost use Rattle.std.specs.Prelude.{◌≡◌, ℕ, ◌<◌, ◌↔◌, List, length, slice_get, IsTrue, IfSome, IfNone};
ghost use Rattle.graph_meaning.specs.declared.done.Done.{Done};
ghost use Rattle.graph_terms.specs.Terms.{term_row, HasRow, IsAbsent};
ghost use Rattle.graph_meaning.specs.Standing.{terms_of, triggers_of};
ghost use Rattle.graph_trigger.specs.Trigger.{IsValid};
ghost use Rattle.graph_meaning.specs.Same.{Same, IsLeader};
ghost use Rattle.graph_meaning.specs.Questions.{HasSymbol, InClass, IsParent, IsNth};
ghost use Rattle.graph_meaning.specs.Lawful.{IsLawful};
ghost use Rattle.graph_meaning.specs.Front.{StillStands, front_of};

use crate::front::Front;
use graph_terms::TermRow;
use graph_trigger::Trigger;

/// Terms in classes. Its meaning is the list of the operations that stand, and how many were done.
pub trait ClassGraph {
    /// The operations that stand, with their serials.
    ghost standing: { Self → List Done };

    /// How many operations were done.
    ghost done: { Self → ℕ };

    /// How many terms there are, true and false included. Terms have the numbers below it.
    fn len(&self) -> u32
        ensures value { result ≡ length (terms_of (standing self.now)) }
        ensures lawful { IsLawful (standing self.now) };

    /// The row of the term with this number.
    fn row(&self, term: u32) -> &TermRow
        requires { term < length (terms_of (standing self.now)) }
        ensures { HasRow (terms_of (standing self.now)) term result.now };

    /// The term with this row, or `None` where there is none.
    fn find(&self, symbol: u32, args: &[u32]) -> Option<u32>
        ensures found { IfSome result (λ term. HasRow (terms_of (standing self.now)) term (term_row symbol args.now)) }
        ensures absent { IfNone result (IsAbsent (terms_of (standing self.now)) (term_row symbol args.now)) };

    /// The leader of the term: the least term that is equal to it.
    fn leader(&self, term: u32) -> u32
        requires { term < length (terms_of (standing self.now)) }
        ensures { IsLeader (standing self.now) term result };

    /// Whether two terms are equal by the equations that stand, and by congruence.
    fn same(&self, left: u32, right: u32) -> bool
        requires left { left < length (terms_of (standing self.now)) }
        requires right { right < length (terms_of (standing self.now)) }
        ensures { IsTrue result ↔ Same (standing self.now) left right };

    /// The k-th member with this symbol of the class of a term, rising, counted from 0, or `None` where there are at most k.
    fn in_class(&self, term: u32, symbol: u32, k: u32) -> Option<u32>
        requires { term < length (terms_of (standing self.now)) }
        ensures { IsNth (InClass (standing self.now) term symbol) k result };

    /// The k-th term with this symbol, rising, counted from 0, or `None` where there are at most k.
    fn with_symbol(&self, symbol: u32, k: u32) -> Option<u32>
        ensures { IsNth (HasSymbol (standing self.now) symbol) k result };

    /// The k-th term with this symbol of which the argument at the place, counted from 0, is in the class of a term, rising,
    /// counted from 0, or `None` where there are at most k.
    fn parent(&self, term: u32, symbol: u32, place: u32, k: u32) -> Option<u32>
        requires { term < length (terms_of (standing self.now)) }
        ensures { IsNth (IsParent (standing self.now) term symbol place) k result };

    /// How many triggers are live.
    fn triggers(&self) -> u32
        ensures { result ≡ length (triggers_of (standing self.now)) };

    /// The live trigger with this number: the n-th that was made live and still is, counted from 0.
    fn trigger(&self, n: u32) -> &Trigger
        requires { n < length (triggers_of (standing self.now)) }
        ensures trigger { slice_get (triggers_of (standing self.now)) n ≡ Some result.now }
        ensures valid { IsValid result.now };

    /// How many operations were done, Pops and what they took away included.
    fn version(&self) -> u64
        ensures { result ≡ done self.now };

    /// The name of the list of operations that stand.
    fn front(&self) -> Front
        ensures { result ≡ front_of (standing self.now) };

    /// Whether the list that the front names still stands, as the beginning of what stands now.
    fn still_front(&self, front: &Front) -> bool
        ensures { IsTrue result ↔ StillStands (standing self.now) front.now };
}
