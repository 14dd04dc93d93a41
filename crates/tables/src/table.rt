// A table over lent cells of any kind, widened by forbidden.
ghost use Rattle.std.specs.Prelude.{◌↔◌, ◌≡◌, map, IfNone, IsTrue, MatchOption};
ghost use Rattle.costs.specs.Wide.{widened};
ghost use Rattle.costs.specs.declared.values.Widened.TheVariants.{Allowed};
ghost use Rattle.tables.specs.Lent.{side, cells_of, at};
ghost use Rattle.tables.specs.Promises.{cost_in, StepMade, StepLowers, StepsLower, SettledWhereReached};
ghost use Rattle.tables.specs.LeastCells.{NoneInside, LeastInside};
ghost use Rattle.tables.specs.Steps.{stepped, stepped_all, AtMostInside, AllAbsorbed, FirstNotAbsorbed, wide, is_forbidden};

use crate::cells::{apply_step, at_most_inside, first_not_absorbed, least_cell, roster_cost};
use crate::values::{Least, Sets, Size, Step};
use costs::kind::CostKind;
use costs::values::Widened;

// The cells lie row by row; those behind the last row are in surplus.
#[derive(Drop)]
pub struct Table<'a, K> {
    pub cells: &'a mut [Widened<K>],
    pub size: Size,
}

impl<'a, K: CostKind> Table<'a, K> {
    // What a roster costs.
    pub fn cost(&self, roster: &[u8]) -> Widened<K>
        ensures { result ≡ cost_in K.operations (side self.now) (cells_of self.now) roster.now }
    {
        roster_cost(self.cells, self.size, roster)
    }

    // The least cell in a set of rows and a set of columns, with its row and column.
    pub fn least(&self, sets: Sets) -> Option<Least<Widened<K>>>
        ensures { MatchOption result (NoneInside (side self.now) sets) (λ least. LeastInside (widened K.operations) (side self.now) (at K.operations self.now) sets least) }
    {
        least_cell(self.cells, self.size, sets)
    }

    // Whether the step's amount is at most every cell in both its sets.
    pub fn amount_fits(&self, step: Step<K>) -> bool
        ensures { IsTrue result ↔ (AtMostInside (widened K.operations) (side self.now) (at K.operations self.now) step.sets (Allowed step.amount)) }
    {
        let amount = Widened::Allowed(step.amount);
        at_most_inside(amount, self.cells, self.size, step.sets)
    }

    // The first row of a roster whose cell is not absorbed by the value `z`.
    // Where there is none, the roster is cheapest in every table from which steps of value `z` lead to this one.
    pub fn first_not_absorbed(&self, z: K, roster: &[u8]) -> Option<usize>
        ensures row { MatchOption result (AllAbsorbed (widened K.operations) (at K.operations self.now) (Allowed z) roster.now) (λ row. FirstNotAbsorbed (widened K.operations) (at K.operations self.now) (Allowed z) roster.now row) }
        ensures cheapest { IfNone result (SettledWhereReached K.operations (side self.now) (cells_of self.now) z roster.now) }
    {
        first_not_absorbed(Widened::Allowed(z), self.cells, self.size, roster)
    }

    // Makes a step.
    pub fn apply(&mut self, step: Step<K>)
        ensures lent { self.new.cells.ghost_name ≡ self.old.cells.ghost_name }
        ensures size { self.new.size ≡ self.old.size }
        ensures cells { cells_of self.new ≡ stepped (widened K.operations) (side self.old) (wide step) (cells_of self.old) }
        ensures made { StepMade K.operations (side self.old) (cells_of self.old) step (cells_of self.new) }
        ensures rosters { StepLowers K.operations (side self.old) (cells_of self.old) step (cells_of self.new) }
        ensures forbidden { map is_forbidden (cells_of self.new) ≡ map is_forbidden (cells_of self.old) }
    {
        apply_step(self.cells, self.size, step.widened());
    }

    // Makes one step after the other.
    pub fn apply_all(&mut self, steps: &[Step<K>])
        ensures lent { self.new.cells.ghost_name ≡ self.old.cells.ghost_name }
        ensures size { self.new.size ≡ self.old.size }
        ensures cells { cells_of self.new ≡ stepped_all (widened K.operations) (side self.old) (map wide steps.now) (cells_of self.old) }
        ensures rosters { StepsLower K.operations (side self.old) (cells_of self.old) steps.now (cells_of self.new) }
        ensures forbidden { map is_forbidden (cells_of self.new) ≡ map is_forbidden (cells_of self.old) }
    {
        // A plain loop: each step changes the table itself.
        for step in steps {
            self.apply(*step);
        }
    }
}
