// Part 6 of the sheet: the given variables and their values.
ghost use Rattle.std.specs.Prelude.{◌≡◌, map, ◌+◌, ◌*◌, ◌≤◌, IfOk};
ghost use Rattle.plan.specs.Request.{reads};
ghost use Rattle.plan.specs.Write.{given_marks, value_item, given_items, written};
ghost use Rattle.sheet.specs.Bounds.{most_given};
ghost use Rattle.write.specs.Said.{given_said};
ghost use Rattle.write.specs.Puts.{Open, Grows, Puts};

use crate::bits::Writer;
use plan::{Refusal, Refused};
use sheet::Fields;

// A mark per variable, set where it is given.
fn put_marks(writer: &mut Writer, f: &Fields)
    requires { Open f.now.variables writer.old × (f.now.variables ≤ 16) }
    ensures { (writer.new.at ≡ writer.old.at + f.now.variables)
        × Grows (given_marks f.now.variables (given_said f.now.variables f.now.given)) writer.old writer.new }
{
    for v in 0..f.variables {
        writer.put_in_byte(1, usize::from((f.given >> v) & 1));
    }
}

// The values of the given variables, in order.
fn put_values(writer: &mut Writer, f: &Fields) -> Result<(), Refused>
    requires { Open (16 * 32) writer.old × (f.now.variables ≤ 16) }
    ensures puts { Puts (written (map value_item (reads f.now.start (given_said f.now.variables f.now.given))) writer.old.at)
        writer.old result writer.new }
    ensures at_most { IfOk result (λ _. writer.new.at ≤ writer.old.at + 16 * 32) }
{
    for v in 0..f.variables {
        if (f.given >> v) & 1 != 0 {
            let value = f.start[v] as usize;
            writer.put_if(value != 0, 32, value, Refusal::GivenZero)?;
        }
    }
    Ok(())
}

// The marks and the values.
pub(crate) fn put_given(writer: &mut Writer, f: &Fields) -> Result<(), Refused>
    requires { Open most_given writer.old × (f.now.variables ≤ 16) }
    ensures puts { Puts (written (given_items f.now.variables (given_said f.now.variables f.now.given)
        (reads f.now.start (given_said f.now.variables f.now.given))) writer.old.at) writer.old result writer.new }
    ensures at_most { IfOk result (λ _. writer.new.at ≤ writer.old.at + most_given) }
{
    put_marks(writer, f);
    put_values(writer, f)
}
