// Typed requests for C and Rust: a sheet whose registers are reused, a second line with their names, and the typed line.
ghost use Rattle.std.specs.Prelude.{◌≡◌};
ghost use Rattle.plan.specs.Typed.{check_typed};
ghost use Rattle.export.specs.Typing.{typed_reading, typed_exported, named};

use crate::numbers::put_refused;
use crate::reading::put_sheet;
use crate::{ANSWER_PLACES, NO_ROOM, SHEET_PLACES, put_answer, put_detail};
use chain::{answer_typed, check_typed};
use tokens::part_of;
use typed::read_typed;

// The request that a typed line stands for. Gives 0, or the first refusal that fits, and puts into the first 238 places of
// `out` what ebbcandle_read_sheet puts there for the sheet that would say the request, with detail 0. Gives 4294967295, and
// writes nothing, where `out` has under 238 places.
#[unsafe(no_mangle)]
pub extern "C" fn ebbcandle_read_typed(
    sheet: &[u8],
    names: &[u8],
    line: &[u8],
    out: &mut [usize],
) -> u32
    ensures { record { result = result; out = out.new }
        ≡ typed_reading sheet.now names.now line.now out.old }
{
    if out.len() < SHEET_PLACES {
        return NO_ROOM;
    }
    let read = read_typed(sheet, names, line);
    match &read {
        Ok(fields) => {
            put_sheet(out, 0, fields);
            0
        }
        Err(refused) => put_refused(out, SHEET_PLACES, *refused),
    }
}

// The answer to a typed request with the registers' rows: as ebbcandle_answer gives it for the sheet that would say the request.
// Gives 4294967295, and writes nothing, where `out` has under 78 places.
#[unsafe(no_mangle)]
pub extern "C" fn ebbcandle_answer_typed(
    sheet: &[u8],
    names: &[u8],
    line: &[u8],
    words: &[u32],
    first: &mut [u32],
    second: &mut [u32],
    out: &mut [usize],
) -> u32
    ensures { record { result = result; first = first.new; second = second.new; out = out.new }
        ≡ typed_exported sheet.now names.now line.now words.now
        first.old second.old out.old }
{
    if out.len() < ANSWER_PLACES {
        return NO_ROOM;
    }
    put_answer(out, &answer_typed(sheet, names, line, words, first, second))
}

// Whether a route exists for a typed request. Gives 0, the first fault or refusal 4, and puts its detail behind `detail`.
#[unsafe(no_mangle)]
pub extern "C" fn ebbcandle_check_typed(
    sheet: &[u8],
    names: &[u8],
    line: &[u8],
    detail: &mut usize,
) -> u32
    ensures { record { number = result; detail = detail.new }
        ≡ check_typed sheet.now names.now line.now }
{
    put_detail(&check_typed(sheet, names, line), detail)
}

// The faulty name of a line that was refused with a number and a detail: puts behind `place` where it begins in the line, and
// behind `length` how many letters it has: 0 where no name begins at the fault's place. For every number but
// 20 to 25, and a detail beyond the line, both are 0.
#[unsafe(no_mangle)]
pub extern "C" fn ebbcandle_faulty_name(
    line: &[u8],
    number: u32,
    detail: usize,
    place: &mut usize,
    length: &mut usize,
)
    ensures { record { place = place.exit.now; length = length.new } ≡ named line.now number detail }
{
    let part = part_of(line, number, detail);
    *place = part.at;
    *length = part.length;
}
