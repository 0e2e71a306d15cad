// Typed requests: a line of tokens, read as the request that it stands for.
#![tactic(auto)]

mod faults;
mod grammar;
mod line;
mod names;
mod notes;
mod request;

ghost use Rattle.std.specs.Prelude.{◌≡◌};
ghost use Rattle.plan.specs.Typed.{read_typed};
ghost use Rattle.typed.specs.Request.{told_typed, told_read};

use crate::line::read_line;
use crate::names::read_names;
use plan::{Refusal, Refused};
use sheet::{Fields, read_sheet};

// The request that a typed line stands for, to the registers of a sheet, whose names the second line has: the fields of the
// sheet that would say it. Or the first that fits of the sheet's own refusals, `NotNames` where the second line is not one
// name for each register, and of the line's faults the first in the line, with its place; at one place it is the first of these
// that fits: `GivenZero` for a given 0, `NoToken` for another byte or a leading zero, `OutOfPlace` for a token or the line's end
// out of place, `UnknownRegister` for a name that is none of the registers', `Miscounted` for a wrong number of columns,
// `OverLimit` for what is over its limit, `GivenAgain` for a name given twice.
pub fn read_typed(sheet: &[u8], names: &[u8], line: &[u8]) -> Result<Fields, Refused>
    ensures { told_read result ≡ told_typed (read_typed sheet.now names.now line.now) }
{
    let fields = read_sheet(sheet)?.value;
    let Some(known) = read_names(names, fields.registers) else {
        return Err(Refused {
            refusal: Refusal::NotNames,
            detail: 0,
        });
    };
    read_line(line, names, &known[..fields.registers], fields)
}
