// The line, token by token.
ghost use Rattle.std.specs.Prelude.{◌≡◌, map, length};
ghost use Rattle.plan.specs.Tokens.{cuts};
ghost use Rattle.plan.specs.Typed.{role, which_name, beginning, walk};
ghost use Rattle.sheet.specs.Fields.{sheet_held};
ghost use Rattle.typed.specs.Names.{name_from};
ghost use Rattle.typed.specs.Notes.{Within};
ghost use Rattle.typed.specs.Request.{told_typed, told_read, OfSheet};

use crate::faults::fault_of;
use crate::grammar::behind;
use crate::names::place_of;
use crate::notes::{Seen, note, nothing_said};
use crate::request::made;
use plan::{Refusal, Refused, Stage, Token};
use sheet::Fields;
use tokens::token_at;

// The number of the name that a token is: among the registers' names where a register's comes, else among the variables'.
fn which_name(
    second: &[u8],
    known: &[usize],
    line: &[u8],
    seen: &[usize],
    stage: Stage,
    token: Token,
) -> usize
    requires { Within line.now token }
    ensures { result ≡ which_name (map (name_from second.now) known.now) line.now
        (role stage) (map (name_from line.now) seen.now) token }
{
    let Token::Name { at, letters } = token else {
        return 0;
    };
    let name = &line[at..at + letters];
    match stage {
        Stage::Asked => place_of(second, known, name),
        _ => place_of(line, seen, name),
    }
}

// The request that a line stands for, to the registers of the fields, by the places of their names in the second line; or the
// first faulty token's place, and the lowest number that fits it.
pub(crate) fn read_line(
    line: &[u8],
    second: &[u8],
    known: &[usize],
    fields: Fields,
) -> Result<Fields, Refused>
    requires of_sheet { OfSheet fields }
    requires one_for_each { length known.now ≡ fields.registers }
    ensures { told_read result ≡ told_typed (walk (sheet_held fields).registers
        (map (name_from second.now) known.now)
        line.now beginning (cuts line.now)) }
{
    let mut seen = Seen::nothing();
    let mut said = nothing_said();
    let mut stage = Stage::Given;
    let mut place: usize = 0;
    while place < line.len() {
        let cut = token_at(line, place);
        let token = cut.token;
        let which = which_name(second, known, line, seen.places(), stage, token);
        let counts = said.counts(&fields, seen.count);
        if let Some(refusal) = fault_of(stage, cut, which, counts) {
            return Err(Refused {
                refusal,
                detail: place,
            });
        }
        seen.note(stage, token, which);
        note(stage, token, which, &mut said);
        stage = behind(stage, token);
        place = cut.next;
    }
    // Of the faults only `OutOfPlace` can fit the line's end.
    if behind(stage, Token::End) == Stage::Nowhere {
        return Err(Refused {
            refusal: Refusal::OutOfPlace,
            detail: place,
        });
    }
    Ok(made(fields, seen.count, said))
}
