//! Whether a forall is live.
ghost use Rattle.std.specs.Prelude.{◌≡◌, ◌≢◌, ◌<◌, true, false, [], length, All, IsTrue, ◌↔◌};
ghost use Rattle.search_laws.specs.Branch.{foralls_among};
ghost use Rattle.search_check.specs.Live.{IsForall};

use formula_assert::AssertionStack;
use formula_table::Node;

/// Whether the node is a forall.
fn is_forall(node: &Node) -> bool
    ensures { IsTrue result ↔ IsForall node.now }
{
    match node {
        Node::Forall { .. } => true,
        Node::Equal { .. } | Node::Atom { .. } | Node::And { .. } | Node::Or { .. } => false,
    }
}

/// Whether some asserted node is a forall.
pub(crate) fn has_live(stack: &AssertionStack) -> bool
    requires { All (λ n. n < length stack.now.formulas.nodes) stack.now.asserted }
    ensures some { result ≡ true → foralls_among stack.now.formulas.nodes stack.now.asserted ≢ [] }
    ensures none { result ≡ false → foralls_among stack.now.formulas.nodes stack.now.asserted ≡ [] }
{
    for n in stack.asserted() {
        if is_forall(stack.formulas().node(*n)) {
            return true;
        }
    }
    false
}
