// The operations for C and Rust. A slice passes as a pointer and then a length, and each function takes any values:
// what the caller lends need only be there.
#![tactic(auto)]

ghost use Rattle.std.specs.Prelude.{◌≡◌, ◌≤◌, length};
ghost use Rattle.plan.specs.Answer.{route_check, count_of, told, told_check};
ghost use Rattle.lay.specs.Put.{laid};
ghost use Rattle.export.specs.Exported.{answer_numbers, exported, exported_at};
ghost use Rattle.export.specs.Reading.{reading};
ghost use Rattle.export.specs.Writing.{writing};

use chain::{answer, answer_charged, check_route};
use count::count;
use lay::put;
use numbers::{put_all, put_refused};
use plan::{Answered, MOST_LOOK_UPS, MOST_REGISTERS, ROW_WORDS, Refused};
use reading::put_read;
use sheet::read_sheet;
use write::write_sheet;
use writing::{fields_in, words_fit};

mod numbers;
mod reading;
mod stepping;
mod typing;
mod writing;

// What is given where a buffer has too few places or a state too few bytes, or a word has over 32 bits.
pub(crate) const NO_ROOM: u32 = u32::MAX;

// The numbers of an answer take so many places: six, and six for each of 12 steps.
pub(crate) const ANSWER_PLACES: usize = 6 + 6 * MOST_LOOK_UPS;

// The numbers of a sheet that was read take so many places: six, a list row, ten for each register, eight for each look-up.
pub(crate) const SHEET_PLACES: usize = 6 + ROW_WORDS + 10 * MOST_REGISTERS + 8 * MOST_LOOK_UPS;

// The numbers of an answer, or of a refusal. Gives the first of them.
pub(crate) fn put_answer(out: &mut [usize], answer: &Result<Answered, Refused>) -> u32
    requires { 78 ≤ length out.old }
    ensures value { result ≡ (told answer.now).number }
    ensures out_after { out.new ≡ laid out.old 0 (answer_numbers (told answer.now)) }
{
    match answer {
        Ok(a) => {
            let head = [0, 0, a.made, a.calls, a.rows, a.charge];
            let next = put(out, 0, &head);
            put_all(out, next, &a.steps);
            0
        }
        Err(refused) => put_refused(out, ANSWER_PLACES, *refused),
    }
}

// The detail of a refusal, else 0, put behind `detail`. Gives its number, else 0.
pub(crate) fn put_detail<T>(outcome: &Result<T, Refused>, detail: &mut usize) -> u32
    ensures { record { number = result; detail = detail.new } ≡ told_check outcome.now }
{
    match outcome {
        Ok(_) => {
            *detail = 0;
            0
        }
        Err(refused) => {
            let number = u32::from(refused.refusal);
            *detail = refused.detail;
            number
        }
    }
}

// The answer to a sheet with the registers' rows. Gives its number and puts into the first 78 places of `out` the
// number, the detail, the number of steps, the total calls, the rows, the total charge, and for each of 12 steps the look-up,
// the rule, its calls, the rows after it, the rows sent and its charge. The first table holds the joined list. Gives
// 4294967295, and writes nothing, where `out` has under 78 places. A variable that is given, or stands in more than one column
// over all look-ups, never takes the value 0: a register row with 0 there does not match that look-up.
#[unsafe(no_mangle)]
pub extern "C" fn ebbcandle_answer(
    sheet: &[u8],
    words: &[u32],
    first: &mut [u32],
    second: &mut [u32],
    out: &mut [usize],
) -> u32
    ensures { record { result = result; first = first.new; second = second.new; out = out.new }
        ≡ exported sheet.now words.now
        first.old second.old out.old }
{
    if out.len() < ANSWER_PLACES {
        return NO_ROOM;
    }
    put_answer(out, &answer(sheet, words, first, second))
}

// The answer to a sheet with the registers' rows where a call costs p and a row sent q, as ebbcandle_answer gives it at 1 and
// 0, and 17 where p or q is above 1,000.
#[unsafe(no_mangle)]
pub extern "C" fn ebbcandle_answer_charged(
    sheet: &[u8],
    words: &[u32],
    p: usize,
    q: usize,
    first: &mut [u32],
    second: &mut [u32],
    out: &mut [usize],
) -> u32
    ensures { record { result = result; first = first.new; second = second.new; out = out.new }
        ≡ exported_at p q sheet.now words.now
        first.old second.old out.old }
{
    if out.len() < ANSWER_PLACES {
        return NO_ROOM;
    }
    put_answer(out, &answer_charged(sheet, words, p, q, first, second))
}

// Whether a route exists for a sheet. Gives 0, the sheet's first fault or refusal 4, and puts its detail behind `detail`.
#[unsafe(no_mangle)]
pub extern "C" fn ebbcandle_check_route(sheet: &[u8], detail: &mut usize) -> u32
    ensures { record { number = result; detail = detail.new } ≡ route_check sheet.now }
{
    put_detail(&check_route(sheet), detail)
}

// The number of different values of one variable over the first rows of a table, 0 left out, put behind `values`. Gives 0,
// or refusal 6 with the value 0.
#[unsafe(no_mangle)]
pub extern "C" fn ebbcandle_count(
    table: &[u32],
    rows: usize,
    variable: usize,
    values: &mut usize,
) -> u32
    ensures { record { number = result; values = values.new } ≡ count_of table.now rows variable }
{
    match count(table, rows, variable) {
        Ok(n) => {
            *values = n;
            0
        }
        Err(refusal) => {
            *values = 0;
            u32::from(refusal)
        }
    }
}

// What a sheet says. Gives 0, or its first fault, and puts into the first 238 places of `out` that number, its detail, the
// number of registers and of variables, the given variables as a set, the number of look-ups, the 16 words of the list's first
// row, for each of 12 registers the columns, the number of rules and 8 rules, and for each of 12 look-ups the register,
// the columns and 6 variables. Unused entries are zero. Gives 4294967295, and writes nothing, where `out` has under 238
// places.
#[unsafe(no_mangle)]
pub extern "C" fn ebbcandle_read_sheet(sheet: &[u8], out: &mut [usize]) -> u32
    ensures { record { result = result; out = out.new } ≡ reading sheet.now out.old }
{
    if out.len() < SHEET_PLACES {
        return NO_ROOM;
    }
    put_read(out, &read_sheet(sheet))
}

// The sheet that fields say, written to the beginning of `buffer`. The first 238 places of `fields` hold them as
// ebbcandle_read_sheet puts them, but the first two are not looked at. Gives 0, or the first field that is broken, as it would
// be told of the sheet, or 13 where `buffer` is shorter than the sheet; puts its detail, of 13 the bytes needed, behind
// `detail`, and behind `bytes` how many were written. A refusal writes nothing to `buffer`. Gives 4294967295, and writes
// nothing at all, where `fields` has under 238 places or one of the 16 words is over 4294967295.
#[unsafe(no_mangle)]
pub extern "C" fn ebbcandle_write_sheet(
    fields: &[usize],
    buffer: &mut [u8],
    detail: &mut usize,
    bytes: &mut usize,
) -> u32
    ensures { record { result = result; buffer = buffer.new; detail = detail.new; bytes = bytes.new }
        ≡ writing fields.now buffer.old detail.old bytes.old }
{
    if fields.len() < SHEET_PLACES {
        return NO_ROOM;
    }
    if !words_fit(fields) {
        return NO_ROOM;
    }
    let written = write_sheet(fields_in(fields), buffer);
    let number = put_detail(&written, detail);
    *bytes = written.unwrap_or(0);
    number
}
