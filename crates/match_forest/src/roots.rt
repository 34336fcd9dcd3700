//! Roots by what their codes begin with.
ghost use Rattle.std.specs.Prelude.{◌≡◌, ℕ, slice_get, Some, IfSome, IfNone};
ghost use Rattle.graph_meaning.specs.Questions.{IsNth};
ghost use Rattle.match_code.specs.declared.instr.Instr.{Instr};
ghost use Rattle.match_trees.specs.Trees.{IsRoot};

use match_code::Instr;
use match_trees::NodeTable;

/// The root that begins with this symbol and so many arguments.
fn next_init(nodes: &NodeTable<Instr>, symbol: u32, arguments: u32) -> Option<u32>
    ensures root { IfSome result (λ root. IsRoot nodes.now root) }
    ensures has { IfSome result (λ root. slice_get nodes.now.labels root ≡ Some (Instr.Init symbol arguments)) }
    ensures none { IfNone result ((root : ℕ) → IsRoot nodes.now root → slice_get nodes.now.labels root ≡ Some (Instr.Init symbol arguments) → ⊥) }
{
    nodes.next_with(None, &Instr::Init { symbol, arguments })
}

/// The number of the root that begins with this symbol and so many arguments.
pub fn root_with(nodes: &NodeTable<Instr>, symbol: u32, arguments: u32) -> Option<u32>
    ensures some { IfSome result (λ tree. (root : ℕ) × IsNth (IsRoot nodes.now) tree (Some root) × (slice_get nodes.now.labels root ≡ Some (Instr.Init symbol arguments))) }
    ensures none { IfNone result ((root : ℕ) → IsRoot nodes.now root → slice_get nodes.now.labels root ≡ Some (Instr.Init symbol arguments) → ⊥) }
{
    let root = next_init(nodes, symbol, arguments)?;
    Some(nodes.root_number(root))
}
