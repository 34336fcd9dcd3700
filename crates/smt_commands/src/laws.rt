//! Laws of the definitions of commands, on a function that does nothing.
ghost use Rattle.em_outside.specs.declared.limits.Limits.{Limits};
ghost use Rattle.smt_commands.specs.SessionLaws.{IsSound, KeepsSound};
ghost use Rattle.smt_names.specs.Names.{at_start};

use smt_laws::laws::{definition_law, formula_law};

/// What stands when a script begins is right, every command that is answered keeps it so, and each formula that is asserted is
/// a formula, sorted as the functions are declared.
pub fn session_law()
    ensures starts { (limits : Limits) → IsSound (at_start limits) }
    ensures keeps { KeepsSound }
{
    formula_law();
    definition_law();
}
