// Parts 6 and 7 of the sheet, and that each variable is used.
ghost use Rattle.std.specs.Prelude.{◌+◌, ◌≤◌, IfOk};
ghost use Rattle.plan.specs.Write.{written};
ghost use Rattle.sheet.specs.Bounds.{most_given, most_look_ups};
ghost use Rattle.write.specs.Said.{asked_items};
ghost use Rattle.write.specs.Puts.{Open, Puts, Narrow};

use crate::bits::Writer;
use crate::given::put_given;
use crate::lookups::put_look_ups;
use plan::Refused;
use sheet::Fields;
use sheet::closing::all_used;

// The given variables and the look-ups; each variable is in one of them.
pub(crate) fn put_asked(writer: &mut Writer, f: &Fields) -> Result<(), Refused>
    requires few { Open (most_given + most_look_ups) writer.old × (f.now.registers ≤ 12) × (f.now.variables ≤ 16) × (f.now.lookups ≤ 12) }
    requires narrow { Narrow f.now.registers f.now.register }
    ensures puts { Puts (written (asked_items f.now) writer.old.at) writer.old result writer.new }
    ensures at_most { IfOk result (λ _. writer.new.at ≤ writer.old.at + (most_given + most_look_ups)) }
{
    put_given(writer, f)?;
    let asked = put_look_ups(writer, f)?;
    all_used(asked | f.given, f.variables, writer.at)?;
    Ok(())
}
