// What a line has said, as the fields of the sheet that would say it.
ghost use Rattle.std.specs.Prelude.{◌≡◌, ◌-◌, ◌^◌, ◌≤◌, length};
ghost use Rattle.plan.specs.Typed.{Typing, sheet_typed};
ghost use Rattle.sheet.specs.Fields.{fields_of, sheet_held};
ghost use Rattle.typed.specs.Notes.{Noted};
ghost use Rattle.typed.specs.Request.{OfSheet};

use crate::notes::Said;
use sheet::Fields;

// The set of the first variables.
fn first_variables(count: usize) -> u16
    requires { count ≤ 16 }
    ensures { result ≡ 2 ^ count - 1 }
{
    let above: u32 = 1 << count;
    (above - 1) as u16
}

// The request that was said, to the registers of the fields.
pub(crate) fn made(fields: Fields, variables: usize, said: Said) -> Fields
    requires { said.given ≤ 16 }
    ensures { (t : Typing) → OfSheet fields → Noted t said → variables ≡ length t.names
        → result ≡ fields_of (sheet_typed (sheet_held fields).registers t) }
{
    let start = said.start;
    let lookup = said.lookup;
    Fields {
        variables,
        given: first_variables(said.given),
        start,
        lookups: said.lookups,
        lookup,
        ..fields
    }
}
