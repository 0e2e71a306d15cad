// Parts 1 to 4 of the sheet: the version and the counts.
ghost use Rattle.std.specs.Prelude.{◌≡◌, ◌+◌, ◌≤◌, IfOk};
ghost use Rattle.plan.specs.Write.{header_items, written};
ghost use Rattle.write.specs.Puts.{Open, Puts};

use crate::bits::Writer;
use plan::{MOST_LOOK_UPS, MOST_REGISTERS, MOST_VARIABLES, Refusal, Refused};
use sheet::Fields;

// The version, how many registers there are, how many variables less one, and how many look-ups.
pub(crate) fn put_header(writer: &mut Writer, f: &Fields) -> Result<(), Refused>
    requires { Open 15 writer.old }
    ensures puts { Puts (written (header_items f.now.registers f.now.variables f.now.lookups) writer.old.at)
        writer.old result writer.new }
    ensures counts { IfOk result (λ _. (writer.new.at ≡ writer.old.at + 15)
        × (f.now.registers ≤ 12) × (f.now.variables ≤ 16) × (f.now.lookups ≤ 12)) }
{
    writer.put_bits(3, 1);
    writer.put_count(4, MOST_REGISTERS, f.registers)?;
    let variables = f.variables;
    let few = (1..=MOST_VARIABLES).contains(&variables);
    writer.put_if(few, 4, variables.saturating_sub(1), Refusal::CountOut)?;
    writer.put_count(4, MOST_LOOK_UPS, f.lookups)
}
