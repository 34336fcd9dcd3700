//! Laws of trees of instructions.
ghost use Rattle.match_code.specs.declared.instr.Instr.{Instr};
ghost use Rattle.match_trees.specs.TreeLaws.{ShareFronts};

use match_code::Instr;
use match_trees::laws;

/// Two ways share exactly the nodes at which their common fronts end.
pub fn sharing_law()
    ensures { ShareFronts Instr }
{
    laws::sharing_law::<Instr>();
}
