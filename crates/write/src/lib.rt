// The packed request sheet, written from its fields into a lent buffer.
#![tactic(auto)]

mod asked;
mod bits;
mod given;
mod header;
mod lookups;
mod registers;

ghost use Rattle.std.specs.Prelude.{◌≡◌, ◌≤◌, IfOk};
ghost use Rattle.plan.specs.Write.{sheet_items, written, write_sheet, told_writing, stored_in};
ghost use Rattle.write.specs.Said.{sheet_said};
ghost use Rattle.write.specs.Puts.{most_bits, Open, Puts};

use crate::asked::put_asked;
use crate::bits::Writer;
use crate::header::put_header;
use crate::registers::put_registers;
use plan::{Refusal, Refused, SHEET_BYTES};
use sheet::Fields;

// The whole sheet, with zero bits up to a full byte.
fn put_sheet(writer: &mut Writer, f: &Fields) -> Result<(), Refused>
    requires { Open most_bits writer.old }
    ensures puts { Puts (written (sheet_items (sheet_said f.now)) writer.old.at) writer.old result writer.new }
    ensures at_most { IfOk result (λ _. writer.new.at ≤ most_bits) }
{
    put_header(writer, f)?;
    put_registers(writer, f)?;
    put_asked(writer, f)?;
    writer.put_bits((8 - writer.at % 8) % 8, 0);
    Ok(())
}

// The sheet that the fields say, written to the buffer's beginning: how many bytes it has. Or the first field that is broken,
// as it would be told of the sheet: `CountOut` for a count that is out of its range, `GivenZero` for a given value that is 0,
// `NotInSheet` for a register or a variable that is not in the sheet, with the place of the field's first bit in the sheet, and
// `UnusedVariable` with the lowest variable that is neither given nor in a look-up; then `ShortBuffer` where the buffer is
// shorter than the sheet, with the bytes needed. A refusal writes nothing, and the bytes behind the sheet stay.
pub fn write_sheet(fields: Fields, buffer: &mut [u8]) -> Result<usize, Refused>
    ensures { record { result = told_writing result; buffer = buffer.new }
        ≡ stored_in buffer.old (write_sheet (sheet_said fields)) }
{
    let mut writer = Writer {
        sheet: [0u8; SHEET_BYTES],
        at: 0,
    };
    put_sheet(&mut writer, &fields)?;
    let need = writer.at / 8;
    if need > buffer.len() {
        return Err(Refused {
            refusal: Refusal::ShortBuffer,
            detail: need,
        });
    }
    buffer[..need].copy_from_slice(&writer.sheet[..need]);
    Ok(need)
}
