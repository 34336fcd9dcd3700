//! Tells changed nodes to the nodes whose parts they are.
ghost use Rattle.std.specs.Prelude.{◌≡◌, ◌<◌, ◌≤◌, ◌+◌, ℕ, [], length, All, OnOk};
ghost use Rattle.search_board.specs.Board.{with_place, places_at, place_at, truth_at, asserted_at};
ghost use Rattle.search_values.specs.Wiring.{ups_at};
ghost use Rattle.search_values.specs.History.{now, KeepsHistory};
ghost use Rattle.search_values.specs.Settled.{AreWires, IsSettledBut, IsSettled, Waits, WaitsIn, Raises, Tells, weight};

use crate::noted::Noted;
use crate::value::value_at;
use crate::wiring::Wiring;
use formula_truth::is_set;
use search_board::Place;
use std::alloc::AllocError;

impl Noted {
    /// Gives a node the value that its places tell, where it has none, and puts it on the work list then.
    fn raise(&mut self, n: u32, work: &mut Vec<u32>) -> Result<(), AllocError>
        requires { n < length (now self.old).kinds }
        ensures ok { OnOk result (Raises n (now self.old) (now self.new) work.old.items work.new.items) }
        ensures history { KeepsHistory self.old self.new }
    {
        let value = value_at(&self.board, n);
        if is_set(self.board.truth(n)) {
            return Ok(());
        }
        if !is_set(value) {
            return Ok(());
        }
        self.set_truth(n, value)?;
        work.push(n)?;
        Ok(())
    }

    /// Tells a node to one of the places whose part it is.
    fn tell_place(
        &mut self,
        wiring: &Wiring,
        n: u32,
        k: u32,
        work: &mut Vec<u32>,
    ) -> Result<(), AllocError>
        requires wires { AreWires wiring.now (now self.old) }
        requires node { n < length wiring.now.parts }
        requires place { k < length (ups_at wiring.now n) }
        requires settled { IsSettledBut (Waits wiring.now work.old.items n k) wiring.now (now self.old) }
        requires work { All (λ m. m < length wiring.now.parts) work.old.items }
        ensures wires { OnOk result (AreWires wiring.now (now self.new)) }
        ensures settled { OnOk result (IsSettledBut (Waits wiring.now work.new.items n (k + 1)) wiring.now (now self.new)) }
        ensures work { OnOk result (All (λ m. m < length wiring.now.parts) work.new.items) }
        ensures tells { OnOk result (Tells (now self.old) (now self.new)) }
        ensures weight { OnOk result (weight (now self.new) work.new.items ≤ weight (now self.old) work.old.items) }
        ensures history { KeepsHistory self.old self.new }
    {
        let up = wiring.up(n, k);
        let told = self.board.truth(n);
        let taken = self.board.asserted(n);
        let struck = self.board.place(up.node, up.place).struck;
        self.set_place(
            up.node,
            up.place,
            Place {
                told,
                taken,
                struck,
            },
        )?;
        self.raise(up.node, work)?;
        Ok(())
    }

    /// Tells a node to each place whose part it is.
    fn tell(&mut self, wiring: &Wiring, n: u32, work: &mut Vec<u32>) -> Result<(), AllocError>
        requires wires { AreWires wiring.now (now self.old) }
        requires node { n < length wiring.now.parts }
        requires settled { IsSettledBut (Waits wiring.now work.old.items n 0) wiring.now (now self.old) }
        requires work { All (λ m. m < length wiring.now.parts) work.old.items }
        ensures wires { OnOk result (AreWires wiring.now (now self.new)) }
        ensures settled { OnOk result (IsSettledBut (WaitsIn wiring.now work.new.items) wiring.now (now self.new)) }
        ensures work { OnOk result (All (λ m. m < length wiring.now.parts) work.new.items) }
        ensures tells { OnOk result (Tells (now self.old) (now self.new)) }
        ensures weight { OnOk result (weight (now self.new) work.new.items ≤ weight (now self.old) work.old.items) }
        ensures history { KeepsHistory self.old self.new }
    {
        for k in 0..wiring.ups(n) {
            self.tell_place(wiring, n, k, work)?;
        }
        Ok(())
    }

    /// Tells the nodes of the work list, and those that change by that, until none is left.
    pub(crate) fn settle(&mut self, wiring: &Wiring, work: &mut Vec<u32>) -> Result<(), AllocError>
        requires wires { AreWires wiring.now (now self.old) }
        requires settled { IsSettledBut (WaitsIn wiring.now work.old.items) wiring.now (now self.old) }
        requires work { All (λ m. m < length wiring.now.parts) work.old.items }
        ensures wires { OnOk result (AreWires wiring.now (now self.new)) }
        ensures settled { OnOk result (IsSettled wiring.now (now self.new)) }
        ensures tells { OnOk result (Tells (now self.old) (now self.new)) }
        ensures history { KeepsHistory self.old self.new }
    {
        let _count = wiring.len();
        while let Some(n) = work.pop() {
            self.tell(wiring, n, work)?;
        }
        Ok(())
    }
}
