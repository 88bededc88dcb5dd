//! The patterns of rows: what they bind, and whether they cover all values.
ghost use Rattle.std.specs.Prelude.{◌≡◌, [], ◌∷◌, IfOk, map};
ghost use Rattle.campl_tree.specs.Plain.Pattern.{Patterns, pattern_then, no_patterns};
ghost use Rattle.campl_tree.specs.View.{view_seq, view_pattern, patterns as seen, view_expr_row, expr_rows, view_case_row, view_decl};
ghost use Rattle.campl_types.specs.Forms.{form_of, part_forms, list_of};
ghost use Rattle.campl_missing.specs.View.{view_forms, view_rows};
ghost use Rattle.campl_vars.specs.Variables.{view_vars};
ghost use Rattle.campl_seqcheck.specs.Answered.{IsVerdict};
ghost use Rattle.campl_seqcheck.specs.Judged.{fine};
ghost use Rattle.campl_seqcheck.specs.Judging.{case_rows};
ghost use Rattle.campl_seqcheck.specs.RowPatterns.{bare_row, judge_each_row, exhaustive, judge_match};
ghost use Rattle.campl_seqcheck.specs.Steps.{fitted, fitted_all, fitted_row};

use crate::fault::SeqFault;
use crate::fitting::{counted, fit, fit_all};
use campl_missing::{Form, form_of, forms_text, missing};
use campl_names::World;
use campl_tree::{CaseRow, ExprRow, FunctionRow, Pattern, Place, SeqType};
use campl_vars::Vars;
use sqlite_items::Items;
use std::alloc::{AllocError, Global};
use std::slice;

/// A row that begins with patterns.
pub trait Row {
    ghost patterns: { Self → Patterns };

    /// Its patterns.
    fn patterns(&self) -> &[Pattern]
        ensures { seen (map view_pattern result.now) ≡ patterns self.now };
}

impl Row for ExprRow {
    ghost patterns = { λ r. pattern_then (view_expr_row r).0 no_patterns };

    #[tactic(auto, using(crate::proofs::RowsJudged::row_views))]
    fn patterns(&self) -> &[Pattern] {
        slice::from_ref(&self.pattern)
    }
}

impl Row for CaseRow {
    ghost patterns = { λ r. pattern_then (view_case_row r).0 no_patterns };

    #[tactic(auto, using(crate::proofs::RowsJudged::row_views))]
    fn patterns(&self) -> &[Pattern] {
        slice::from_ref(&self.pattern)
    }
}

impl Row for FunctionRow {
    ghost patterns = { λ r. seen (map view_pattern r.patterns) };

    fn patterns(&self) -> &[Pattern] {
        self.patterns.as_slice()
    }
}

/// Judges rows of patterns for values of these types: the patterns of each row in order, and last whether the rows
/// are exhaustive. The place is that of the whole.
///
/// # Errors
///
/// The first fault, or `OutOfMemory` where memory wants.
pub fn check_match<R: Row>(
    alloc: Global,
    world: &World,
    at: Place,
    types: &[SeqType],
    rows: &[R],
) -> Result<(), SeqFault>
    ensures { IsVerdict (λ _. fine) (judge_match at (map view_decl world.now) (map view_seq types.now) (map (λ r. bare_row at (R.patterns r)) rows.now)) result }
{
    match fit_rows(alloc, world, at, types, rows) {
        Ok(()) => rows_are_exhaustive(alloc, world, at, types, rows),
        Err(fault) => Err(fault),
    }
}

/// The same for the rows of a `case` and the type of what it looks at.
pub(crate) fn check_case_rows(
    alloc: Global,
    world: &World,
    at: Place,
    t: &SeqType,
    rows: &[ExprRow],
) -> Result<(), SeqFault>
    ensures { IsVerdict (λ _. fine) (judge_match at (map view_decl world.now) (view_seq t.now ∷ []) (case_rows at (expr_rows (map view_expr_row rows.now)))) result }
{
    check_match(alloc, world, at, slice::from_ref(t), rows)
}

/// Judges the patterns of rows.
fn fit_rows<R: Row>(
    alloc: Global,
    world: &World,
    at: Place,
    types: &[SeqType],
    rows: &[R],
) -> Result<(), SeqFault>
    ensures { IsVerdict (λ _. fine) (judge_each_row (map view_decl world.now) (map view_seq types.now) (map (λ r. bare_row at (R.patterns r)) rows.now)) result }
{
    for i in 0..rows.len() {
        let row = &rows[i];
        let ps = row.patterns();
        fit_row(alloc, world, at, types, ps)?;
    }
    Ok(())
}

/// The variables of a row's patterns, one for each type.
#[tactic(auto, using(crate::proofs::RowsJudged::one_row))]
pub(crate) fn fit_row(
    alloc: Global,
    world: &World,
    at: Place,
    types: &[SeqType],
    ps: &[Pattern],
) -> Result<Vars, SeqFault>
    ensures { IsVerdict (λ xs. view_vars xs) (fitted_row (map view_decl world.now) (map view_seq types.now) at (seen (map view_pattern ps.now))) result }
{
    match counted(at, ps.len(), types.len()) {
        Ok(()) => fit_patterns(alloc, world, types, ps),
        Err(fault) => Err(fault),
    }
}

/// The variables of patterns, as long as there are types for them.
fn fit_patterns(
    alloc: Global,
    world: &World,
    types: &[SeqType],
    ps: &[Pattern],
) -> Result<Vars, SeqFault>
    ensures { IsVerdict (λ xs. view_vars xs) (fitted_all (map view_decl world.now) [] (seen (map view_pattern ps.now)) (map view_seq types.now)) result }
{
    let mut bound = Vars::new(alloc);
    match fit_all(alloc, world, &mut bound, ps, types) {
        Ok(()) => Ok(bound),
        Err(fault) => Err(fault),
    }
}

/// The variables of a pattern that fits a type.
pub(crate) fn pattern_variables(
    alloc: Global,
    world: &World,
    p: &Pattern,
    t: &SeqType,
) -> Result<Vars, SeqFault>
    ensures { IsVerdict (λ xs. view_vars xs) (fitted (map view_decl world.now) [] (view_pattern p.now) (view_seq t.now)) result }
{
    let mut bound = Vars::new(alloc);
    match fit(alloc, world, &mut bound, p, t) {
        Ok(()) => Ok(bound),
        Err(fault) => Err(fault),
    }
}

/// Refuses rows that don't cover some values of these types.
pub(crate) fn rows_are_exhaustive<R: Row>(
    alloc: Global,
    world: &World,
    at: Place,
    types: &[SeqType],
    rows: &[R],
) -> Result<(), SeqFault>
    ensures { IsVerdict (λ _. fine) (exhaustive at (map view_decl world.now) (map (λ r. list_of (part_forms (R.patterns r))) rows.now) (map view_seq types.now)) result }
{
    let forms = forms_of_rows(alloc, rows)?;
    are_exhaustive(alloc, world, at, forms.as_slice(), types)
}

/// Refuses rows of forms that don't cover some values of these types, and tells the first missing forms.
fn are_exhaustive(
    alloc: Global,
    world: &World,
    at: Place,
    rows: &[Items<Form>],
    types: &[SeqType],
) -> Result<(), SeqFault>
    ensures { IsVerdict (λ _. fine) (exhaustive at (map view_decl world.now) (view_rows rows.now) (map view_seq types.now)) result }
{
    match missing(alloc, world, rows, types)? {
        None => Ok(()),
        Some(forms) => {
            let missing = forms_text(alloc, forms.as_slice())?;
            Err(SeqFault::NotExhaustive { place: at, missing })
        }
    }
}

/// What the patterns of rows ask of values.
fn forms_of_rows<R: Row>(alloc: Global, rows: &[R]) -> Result<Items<Items<Form>>, AllocError>
    ensures { IfOk result (λ forms. view_rows forms ≡ map (λ r. list_of (part_forms (R.patterns r))) rows.now) }
{
    let mut forms = Items::new(alloc);
    for row in rows {
        let ps = row.patterns();
        let row_forms = forms_of_patterns(alloc, ps)?;
        forms.push(row_forms)?;
    }
    Ok(forms)
}

/// What patterns ask of values.
fn forms_of_patterns(alloc: Global, ps: &[Pattern]) -> Result<Items<Form>, AllocError>
    ensures { IfOk result (λ forms. view_forms forms ≡ map form_of (map view_pattern ps.now)) }
{
    let mut forms = Items::new(alloc);
    for p in ps {
        forms.push(form_of(alloc, p)?)?;
    }
    Ok(forms)
}
