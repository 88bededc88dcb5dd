//! Which operands an instruction may have.
ghost use Rattle.std.specs.Prelude.{◌≡◌, ◌+◌, Some, nat_le, slice_get, map};
ghost use Rattle.campl_code.specs.Operands.{most_numbers, every, is_number, is_match, is_go, is_receipt, is_own_number, is_in_range};
ghost use Rattle.campl_instructions.specs.View.{view_instr};
ghost use Rattle.campl_rules.specs.Judged.{code_of, block_of, IsJudged, keeps_rows};

use crate::judged::Judged;
use campl_instructions::Instr;
use sqlite_items::at;

/// Numbers of variables and of channels are below this.
const MOST_NUMBERS: u32 = 268_435_456;

/// Whether the operands of an instruction are in their ranges.
pub(crate) fn is_in_range(judged: &Judged<'_>, x: &Instr) -> bool
    requires { IsJudged judged.now }
    ensures { result ≡ is_in_range (code_of judged.now) (block_of judged.now) (view_instr x.now) }
{
    match x {
        Instr::Load(v) => is_number(*v),
        Instr::Call(f) => judged.code.function(*f).is_some(),
        Instr::Match(m, v, places) => is_match(judged, *m, *v, places.as_slice()),
        Instr::Case(m, v, places) => is_match(judged, *m, *v, places.as_slice()),
        Instr::Put(e) | Instr::Close(e) => is_number(*e),
        Instr::Get(e, v) => is_number(*e) && is_number(*v),
        Instr::Pick(e, _) => is_number(*e),
        Instr::Split(e, l, r) => is_number(*e) && is_number(*l) && is_number(*r),
        Instr::Offer(e, _) => is_number(*e),
        Instr::Fork(e, l, r, _) => is_number(*e) && is_number(*l) && is_number(*r),
        Instr::Halt(e) => is_own_number(e),
        Instr::Link(e, f) | Instr::LinkNeg(e, f) => is_number(*e) && is_number(*f),
        Instr::Peel(e, _, _) => is_number(*e),
        Instr::Race(places) => are_receipts(judged.block, places.as_slice()),
        Instr::Go(p, channels) => is_go(judged, *p, channels.as_slice()),
        _ => true,
    }
}

fn is_number(n: u32) -> bool
    ensures { result ≡ is_number n }
{
    n < MOST_NUMBERS
}

fn are_numbers(numbers: &[u32]) -> bool
    ensures { result ≡ every is_number numbers.now }
{
    for n in numbers {
        if !is_number(*n) {
            return false;
        }
    }
    true
}

fn is_own_number(number: &Option<u32>) -> bool
    ensures { result ≡ is_own_number number.now }
{
    match number {
        None => true,
        Some(n) => is_number(*n),
    }
}

// A number for each variable that a row sets, and a target for each row.
fn is_match(judged: &Judged<'_>, m: u32, v: u32, places: &[u32]) -> bool
    requires { IsJudged judged.now }
    ensures { result ≡ is_match v places.now (slice_get (code_of judged.now).decisions m) }
{
    match judged.code.decision(m) {
        None => false,
        Some(decision) => {
            let bound = decision.bound.as_slice();
            is_number(v)
                && have_numbers(v, bound)
                && places.len() == bound.len()
                && names_rows(judged, m)
        }
    }
}

// Whether the rows that a decision names are there.
fn names_rows(judged: &Judged<'_>, m: u32) -> bool
    requires { IsJudged judged.now }
    ensures { result ≡ keeps_rows (slice_get (code_of judged.now).decisions m) }
{
    match at(judged.named, m as usize) {
        None => false,
        Some(named) => *named,
    }
}

// Whether all variables of the rows have numbers, from this one on.
fn have_numbers(v: u32, bound: &[u32]) -> bool
    ensures { result ≡ every (λ n. nat_le (v + n) most_numbers) bound.now }
{
    for n in bound {
        if u64::from(v) + u64::from(*n) > u64::from(MOST_NUMBERS) {
            return false;
        }
    }
    true
}

// A channel for each input and output of the process.
fn is_go(judged: &Judged<'_>, p: u32, channels: &[u32]) -> bool
    ensures { result ≡ is_go channels.now (slice_get (code_of judged.now).processes p) }
{
    match judged.code.process(p) {
        None => false,
        Some(block) => {
            channels.len() as u64 == block.inputs as u64 + block.outputs as u64
                && are_numbers(channels)
        }
    }
}

fn are_receipts(block: &[Instr], places: &[u32]) -> bool
    ensures { result ≡ every (λ to. is_receipt (slice_get (map view_instr block.now) to)) places.now }
{
    for to in places {
        if !is_receipt_at(block, *to) {
            return false;
        }
    }
    true
}

fn is_receipt_at(block: &[Instr], to: u32) -> bool
    ensures { result ≡ is_receipt (slice_get (map view_instr block.now) to) }
{
    match at(block, to as usize) {
        None => false,
        Some(x) => is_receipt(x),
    }
}

fn is_receipt(x: &Instr) -> bool
    ensures { result ≡ is_receipt (Some (view_instr x.now)) }
{
    matches!(
        x,
        Instr::Get(_, _) | Instr::Offer(_, _) | Instr::Split(_, _, _)
    )
}
