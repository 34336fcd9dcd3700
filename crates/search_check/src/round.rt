//! A round of instances.
ghost use Rattle.std.specs.Prelude.{◌≡◌, ◌≢◌, ℕ, ◌++◌, ◌∷◌, [], List, All, IfErr, OnOk};
ghost use Rattle.formula_table.specs.declared.enter_fault.EnterFault.{EnterFault as Fault};
ghost use Rattle.formula_table.specs.declared.enter_fault.EnterFault.TheVariants.{Memory as NoMemory};
ghost use Rattle.formula_assert.specs.AssertInstance.{AssertsInstance, StopsAssertInstance};
ghost use Rattle.formula_assert.specs.InLevel.{KeepsLevels};
ghost use Rattle.search_laws.specs.Rounds.{EntersAll, Overflows};
ghost use Rattle.formula_assert.specs.Assertions.{held_of};
ghost use Rattle.search_branch.specs.declared.branch_values.BranchValues.{BranchValues as ValuesOf};
ghost use Rattle.search_branch.specs.Grown.{StandIn};
ghost use Rattle.search_branch.specs.Levels.{IsLevelOver};
ghost use Rattle.search_branch.specs.Right.{AreValuesOf};
ghost use Rattle.search_branch.specs.Struck.{IsPlaceOf};
ghost use Rattle.search_check.specs.Round.{path_at, CanEnter, LivesAreAsserted};

use formula_assert::AssertionStack;
use formula_assert::laws::over_law;
use formula_table::EnterFault;
use match_store::{DoneInstances, Instance};
use search_branch::BranchValues;
use std::alloc::Global;

/// Enters an instance and asserts it, and puts it among those that are done.
fn enter(
    alloc: Global,
    stack: &mut AssertionStack,
    values: &mut BranchValues,
    done: &mut DoneInstances,
    instance: &Instance,
) -> Result<(), EnterFault>
    requires can { CanEnter stack.old instance.now }
    requires values { (struck : List (ℕ × ℕ)) × StandIn stack.old struck × AreValuesOf stack.old struck values.old }
    ensures ok { OnOk result (AssertsInstance instance.now.forall instance.now.tuple stack.old stack.new × (done.new ≡ done.old ++ instance.now ∷ [])) }
    ensures fault { IfErr result (λ fault. fault ≢ NoMemory → StopsAssertInstance instance.now.forall instance.now.tuple stack.old stack.new fault) }
    ensures levels { KeepsLevels stack.old stack.new }
    ensures values { OnOk result ((struck : List (ℕ × ℕ)) → StandIn stack.old struck → AreValuesOf stack.old struck values.old → AreValuesOf stack.new struck values.new) }
    ensures level { OnOk result ((before : ValuesOf) → IsLevelOver before values.old → IsLevelOver before values.new) }
{
    values.assert_instance(alloc, stack, instance.forall, instance.tuple.as_slice())?;
    done.add(instance.forall, instance.tuple.as_slice())?;
    Ok(())
}

/// Enters and asserts the instances, one after another, up to one for which there is no room.
pub(crate) fn enter_all(
    alloc: Global,
    stack: &mut AssertionStack,
    values: &mut BranchValues,
    done: &mut DoneInstances,
    instances: &[Instance],
) -> Result<(), EnterFault>
    requires can { All (CanEnter stack.old) instances.now }
    requires lives { LivesAreAsserted stack.old.formulas (held_of stack.old) }
    requires values { (struck : List (ℕ × ℕ)) × All (IsPlaceOf stack.old.formulas.nodes) struck × AreValuesOf stack.old struck values.old }
    ensures ok { OnOk result ((struck : List (ℕ × ℕ)) (spent : List ℕ) → EntersAll instances.now (path_at stack.old struck done.old spent) (path_at stack.new struck done.new spent)) }
    ensures limit { IfErr result (λ fault. fault ≢ NoMemory → (struck : List (ℕ × ℕ)) (spent : List ℕ) → Overflows instances.now (path_at stack.old struck done.old spent) fault) }
    ensures levels { KeepsLevels stack.old stack.new }
    ensures values { OnOk result ((struck : List (ℕ × ℕ)) → All (IsPlaceOf stack.old.formulas.nodes) struck → AreValuesOf stack.old struck values.old → AreValuesOf stack.new struck values.new) }
    ensures level { OnOk result ((before : ValuesOf) → IsLevelOver before values.old → IsLevelOver before values.new) }
{
    over_law();
    for instance in instances {
        enter(alloc, stack, values, done, instance)?;
    }
    Ok(())
}
