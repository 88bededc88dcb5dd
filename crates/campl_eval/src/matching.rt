//! Matches.
ghost use Rattle.std.specs.Prelude.{slice_get};
ghost use Rattle.campl_code.specs.Machine as m;
ghost use Rattle.campl_eval.specs.Flow.{Leads};
ghost use Rattle.campl_eval.specs.View.{code_of, seen, seens};

use crate::{Flow, Machine};
use campl_operands::RowEffect;
use campl_program::Program;
use sqlite_items::at;

impl Machine {
    // Goes to the place of the row that the decision finds, and sets its variables.
    pub(crate) fn find_row(&mut self, program: &Program, n: u32, first: u32, places: &[u32]) -> Flow
        ensures { Leads (m.matches (slice_get (code_of program.now).decisions n) first places.now (seen self.old.frame) (seens self.old.callers)) result (seen self.new.frame) (seens self.new.callers) }
    {
        let Some(decision) = program.raw().decision(n) else {
            return Flow::Faulty;
        };
        let width = decision.width as usize;
        let Some(values) = self.frame.operands.top(width) else {
            return Flow::Faulty;
        };
        let Some((row, spots)) = decision.find(values) else {
            return Flow::Faulty;
        };
        let Some(to) = at(places, row as usize) else {
            return Flow::Faulty;
        };
        match self.frame.variables.put_row(values, first, spots) {
            RowEffect::Done => {
                self.frame.operands.drop_top(width);
                self.frame.at = *to as usize;
                Flow::Goes
            }
            RowEffect::Missing => Flow::Faulty,
            RowEffect::OutOfMemory => Flow::OutOfMemory,
        }
    }
}
