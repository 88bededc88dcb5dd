//! Matches.
ghost use Rattle.std.specs.Prelude.{◌≡◌, Some, None, MatchOption, is_some, slice_get};
ghost use Rattle.campl_code.specs.Decisions.{chosen, values_at};
ghost use Rattle.campl_code.specs.Decisions as decisions;
ghost use Rattle.campl_code.specs.Frames.{set_from};
ghost use Rattle.campl_code.specs.Instructions as i;
ghost use Rattle.campl_instructions.specs.View.{view_decision};
ghost use Rattle.campl_meaning.specs.States as k;
ghost use Rattle.campl_cells.specs.Wants.{onward, quiet, with_found};
ghost use Rattle.campl_parts.specs.Ends.{ends_of};
ghost use Rattle.campl_parts.specs.Views.{held_of};
ghost use Rattle.campl_parts.specs.Wanted.{all_there, done_of, or_none, row_vars, want_of};

use crate::entry::Kind;
use crate::want::{Deed, Want};
use crate::wanting::Ready;
use campl_instructions::{Decision, Spot, value_at};
use campl_value::Value;
use sqlite_items::at;

impl<'a> Ready<'a> {
    pub(crate) fn case(&self, decision: u32, first: u32, targets: &'a [u32]) -> Want<'a>
        ensures { want_of result ≡ done_of self.now (i.Case decision first targets.now) }
    {
        match self.program.raw().decision(decision) {
            None => Want::Rests,
            Some(decision) => self.decide(decision, first, targets),
        }
    }

    fn decide(&self, decision: &'a Decision, first: u32, targets: &'a [u32]) -> Want<'a>
        ensures { want_of result ≡ with_found (chosen (view_decision decision.now).tree self.now.values.now) (λ r. with_found (slice_get targets.now r.0)
            (λ to. quiet k.Case None (onward (held_of self.now.running.now) to (set_from first r.1 self.now.variables.now) (ends_of self.now.running.now.ends)))) }
    {
        match self.find(decision) {
            None => Want::Rests,
            Some(row) => self.go_to_row(first, targets, row.0, row.1),
        }
    }

    // The row that a decision finds, where the values of its variables are there.
    fn find(&self, decision: &'a Decision) -> Option<(u32, &'a [Spot])>
        ensures { MatchOption result (chosen (view_decision decision.now).tree self.now.values.now ≡ None)
            (λ row. chosen (view_decision decision.now).tree self.now.values.now ≡ Some (row.0, or_none (values_at self.now.values.now row.1.now))) }
    {
        match decision.find(self.values) {
            None => None,
            Some(row) => {
                if are_there(self.values, row.1) {
                    return Some(row);
                }
                None
            }
        }
    }

    fn go_to_row(&self, first: u32, targets: &'a [u32], row: u32, spots: &'a [Spot]) -> Want<'a>
        ensures { want_of result ≡ with_found (slice_get targets.now row)
            (λ to. quiet k.Case None (onward (held_of self.now.running.now) to (row_vars first self.now.values.now spots.now self.now.variables.now) (ends_of self.now.running.now.ends))) }
    {
        match at(targets, row as usize) {
            None => Want::Rests,
            Some(to) => Want::Moves {
                kind: Kind::Case,
                end: None,
                deed: Deed::Cases {
                    place: self.place(*to as usize),
                    first,
                    values: self.values,
                    spots,
                },
            },
        }
    }
}

fn are_there(values: &[Value], spots: &[Spot]) -> bool
    ensures { result ≡ all_there values.now spots.now }
{
    for spot in spots {
        if !is_there(values, spot.as_slice()) {
            return false;
        }
    }
    true
}

fn is_there(values: &[Value], spot: &[u32]) -> bool
    ensures { result ≡ is_some (decisions.value_at values.now spot.now) }
{
    match value_at(values, spot) {
        None => false,
        Some(_) => true,
    }
}
