// The public operations: the whole answer by CHAIN, and the route check, each to a sheet and to a typed request.
#![tactic(auto)]

pub mod fields;
mod route;

ghost use Rattle.std.specs.Prelude.{◌≡◌, ◌&&◌, not, leb};
ghost use Rattle.plan.specs.Grow.{calls};
ghost use Rattle.plan.specs.Answer.{charging, whole_at, whole, checked_of, never_answerable, route_check, told, told_check};
ghost use Rattle.plan.specs.Typed.{whole_typed, check_typed};
ghost use Rattle.sheet.specs.Fine.{Small};
ghost use Rattle.choose.specs.Held.{route_request};

use fields::{answer_fields, without_detail};
use plan::{Answered, MOST_PRICE, MOST_ROWS, Refusal, Refused, Setting, TABLE_WORDS};
use route::never_answerable;
use sheet::{Fields, read_sheet};
use typed::read_typed;

// The joined list of the tool holds at most 512 rows.
const LIMIT: usize = MOST_ROWS;

// Whether one of two tables of so many words is too short.
pub fn is_short(first: usize, second: usize) -> bool
    ensures { result ≡ not (leb 8192 first && leb 8192 second) }
{
    first < TABLE_WORDS || second < TABLE_WORDS
}

// Whether what a call costs, or what a row sent costs, is out of range.
fn is_over(p: usize, q: usize) -> bool
    ensures { result ≡ not (leb p 1000 && leb q 1000) }
{
    p > MOST_PRICE || q > MOST_PRICE
}

// The route check of fields: refused with 4, or not.
#[tactic(auto, using(crate::proofs::Whole::checked_open, crate::proofs::Whole::checked_none))]
fn check_fields(fields: &Fields) -> Result<(), Refused>
    requires { Small fields.now }
    ensures { told_check result ≡ checked_of (never_answerable calls (route_request fields.now)) }
{
    let never = never_answerable(fields);
    if never != 0 {
        return Err(Refused {
            refusal: Refusal::NoRoute,
            detail: never,
        });
    }
    Ok(())
}

// Whether a route exists for a sheet: refused with the sheet's first fault or with 4, with its detail.
#[tactic(auto, using(crate::proofs::Whole::fault_checked))]
pub fn check_route(sheet: &[u8]) -> Result<(), Refused>
    ensures { told_check result ≡ route_check sheet.now }
{
    check_fields(&read_sheet(sheet)?.value)
}

// Whether a route exists for a typed request to the registers of a sheet, whose names the second line has: refused with the
// first fault or with 4, with its detail.
#[tactic(auto, using(crate::proofs::TypedLaws::fault_asked))]
pub fn check_typed(sheet: &[u8], names: &[u8], line: &[u8]) -> Result<(), Refused>
    ensures { told_check result ≡ check_typed sheet.now names.now line.now }
{
    check_fields(&read_typed(sheet, names, line)?)
}

// The answer to a sheet with the registers' rows where a call costs p and a row sent q: the steps and, in the first table, the
// joined list; or the first refusal that fits. All refusals but 5 are decided before a table is touched.
#[tactic(auto, using(crate::proofs::Whole::fault_told))]
pub fn answer_charged(
    sheet: &[u8],
    words: &[u32],
    p: usize,
    q: usize,
    first: &mut [u32],
    second: &mut [u32],
) -> Result<Answered, Refused>
    ensures { record { answer = told result; first = first.new; second = second.new }
        ≡ whole_at (charging p q) sheet.now words.now first.old second.old }
{
    if is_short(first.len(), second.len()) {
        return Err(without_detail(Refusal::ShortTable));
    }
    if is_over(p, q) {
        return Err(without_detail(Refusal::BadPrice));
    }
    let read = read_sheet(sheet)?;
    let fields = &read.value;
    let never = never_answerable(fields);
    let tool = Setting {
        limit: LIMIT,
        call: p,
        row: q,
    };
    answer_fields(fields, never, words, tool, first, second)
}

// The answer to a sheet with the registers' rows where a call costs 1 and a row sent nothing.
pub fn answer(
    sheet: &[u8],
    words: &[u32],
    first: &mut [u32],
    second: &mut [u32],
) -> Result<Answered, Refused>
    ensures { record { answer = told result; first = first.new; second = second.new }
        ≡ whole sheet.now words.now first.old second.old }
{
    answer_charged(sheet, words, 1, 0, first, second)
}

// The answer to a typed request to the registers of a sheet, whose names the second line has, with the registers' rows: as
// that to the sheet that would say the request; or the first refusal that fits.
#[tactic(auto, using(crate::proofs::TypedLaws::fault_typed))]
pub fn answer_typed(
    sheet: &[u8],
    names: &[u8],
    line: &[u8],
    words: &[u32],
    first: &mut [u32],
    second: &mut [u32],
) -> Result<Answered, Refused>
    ensures { record { answer = told result; first = first.new; second = second.new }
        ≡ whole_typed sheet.now names.now line.now
        words.now first.old second.old }
{
    if is_short(first.len(), second.len()) {
        return Err(without_detail(Refusal::ShortTable));
    }
    let fields = read_typed(sheet, names, line)?;
    let never = never_answerable(&fields);
    let tool = Setting {
        limit: LIMIT,
        call: 1,
        row: 0,
    };
    answer_fields(&fields, never, words, tool, first, second)
}
