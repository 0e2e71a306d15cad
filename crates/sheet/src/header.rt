// Parts 1 to 4 of the sheet: the version and the counts.
ghost use Rattle.std.specs.Prelude.{◌≡◌, ◌+◌, ◌≤◌};
ghost use Rattle.sheet.specs.Bounds.{farthest, most_counts, most_header};
ghost use Rattle.sheet.specs.Stages.{counts, header};
ghost use Rattle.sheet.specs.Reads.{Reads};
ghost use Rattle.sheet.specs.Parts.{counts_of};

use crate::bits::Reader;
use plan::{MOST_LOOK_UPS, MOST_REGISTERS, Refused};

// How many registers, variables and look-ups the sheet has.
#[derive(Clone, Copy)]
pub(crate) struct Counts {
    pub(crate) registers: usize,
    pub(crate) variables: usize,
    pub(crate) lookups: usize,
}

// How many registers, variables and look-ups the sheet has.
#[tactic(auto, using(crate::proofs::Stages::count_ok, crate::proofs::Stages::field_ok))]
fn read_counts(reader: &mut Reader) -> Result<Counts, Refused>
    requires { reader.old.at + most_counts ≤ farthest }
    ensures { Reads counts_of counts reader.old result reader.new }
{
    let registers = reader.count(4, 1, MOST_REGISTERS)?;
    let variables = reader.field(4)?;
    let lookups = reader.count(4, 1, MOST_LOOK_UPS)?;
    Ok(Counts {
        registers,
        variables: variables + 1,
        lookups,
    })
}

// The version and the counts.
#[tactic(auto, using(crate::proofs::Stages::version_ok))]
pub(crate) fn read_header(reader: &mut Reader) -> Result<Counts, Refused>
    requires { reader.old.at + most_header ≤ farthest }
    ensures { Reads counts_of header reader.old result reader.new }
{
    reader.version()?;
    read_counts(reader)
}
