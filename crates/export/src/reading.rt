// The numbers of a sheet that was read, put into a lent buffer.
ghost use Rattle.std.specs.Prelude.{◌≡◌, ◌≤◌, length};
ghost use Rattle.lay.specs.Put.{laid, Put};
ghost use Rattle.export.specs.Reading.{sheet_numbers, told_fields};

use crate::SHEET_PLACES;
use crate::numbers::{put_all, put_refused};
use lay::put;
use plan::Refused;
use sheet::{Fields, Got};

// The numbers of fields with a detail. Gives the place behind them.
pub(crate) fn put_sheet(out: &mut [usize], detail: usize, f: &Fields) -> usize
    requires { 238 ≤ length out.old }
    ensures { Put out.old 0 (sheet_numbers (record { number = 0; detail = detail; fields = f.now })) out.new result }
{
    let given = usize::from(f.given);
    let counts = [0, detail, f.registers, f.variables, given, f.lookups];
    let a = put(out, 0, &counts);
    let b = put_all(out, a, &f.start);
    let c = put_all(out, b, &f.register);
    put_all(out, c, &f.lookup)
}

// The numbers of what was read: of the fields and the place behind the last bit, or of a refusal. Gives the first of them.
pub(crate) fn put_read(out: &mut [usize], read: &Result<Got<Fields>, Refused>) -> u32
    requires { 238 ≤ length out.old }
    ensures value { result ≡ (told_fields read.now).number }
    ensures out_after { out.new ≡ laid out.old 0 (sheet_numbers (told_fields read.now)) }
{
    match read {
        Ok(got) => {
            put_sheet(out, got.next, &got.value);
            0
        }
        Err(refused) => put_refused(out, SHEET_PLACES, *refused),
    }
}
