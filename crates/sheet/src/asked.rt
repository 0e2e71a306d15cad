// Parts 6 to 8 of the sheet: what stands behind the registers.
ghost use Rattle.std.specs.Prelude.{◌≡◌, ℕ, ◌+◌, ◌≤◌, get_or, length};
ghost use Rattle.sheet.specs.Stages.{asked};
ghost use Rattle.sheet.specs.Bounds.{farthest, most_asked};
ghost use Rattle.sheet.specs.Reads.{Reads};
ghost use Rattle.sheet.specs.Parts.{widths, asked_of};

use crate::LookUp;
use crate::bits::Reader;
use crate::closing::check_closing;
use crate::given::{FirstRow, read_given};
use crate::lookups::{Ranges, read_look_ups};
use plan::{MOST_LOOK_UPS, Refused};

// The given variables with their values, and the look-ups.
#[derive(Clone, Copy)]
pub(crate) struct Asked {
    pub(crate) first: FirstRow,
    pub(crate) lookup: [LookUp; MOST_LOOK_UPS],
}

// The given variables, the look-ups and the sheet's end.
pub(crate) fn read_asked(
    reader: &mut Reader,
    ranges: &Ranges,
    lookups: usize,
) -> Result<Asked, Refused>
    requires { (reader.old.at + most_asked ≤ farthest) × (lookups ≤ 12) }
    ensures { Reads asked_of (asked (length ranges.now.registers.now) (widths ranges.now.registers.now)
        ranges.now.variables lookups) reader.old result reader.new }
{
    let first = read_given(reader, ranges.variables)?;
    let asked = read_look_ups(reader, lookups, ranges)?;
    check_closing(reader, asked.used | first.given, ranges.variables)?;
    let lookup = asked.read;
    Ok(Asked { first, lookup })
}
