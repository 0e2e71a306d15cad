// Part 6 of the sheet: the given variables and their values.
ghost use Rattle.std.specs.Prelude.{◌≡◌, ◌+◌, ◌*◌, ◌≤◌, length};
ghost use Rattle.plan.specs.Sheet.{value};
ghost use Rattle.sheet.specs.Stages.{given};
ghost use Rattle.sheet.specs.Bounds.{farthest, most_given};
ghost use Rattle.sheet.specs.Reads.{Reads};
ghost use Rattle.sheet.specs.Parts.{first_row_of};

use crate::bits::Reader;
use plan::{ROW_WORDS, Refusal, Refused};

// The given variables as a set, and the row of their values.
#[derive(Clone, Copy)]
pub(crate) struct FirstRow {
    pub(crate) given: u16,
    pub(crate) start: [u32; ROW_WORDS],
}

// A given value, which must not be 0.
fn read_value(reader: &mut Reader) -> Result<usize, Refused>
    requires { reader.old.at + 32 ≤ farthest }
    ensures { Reads (λ n. n) value reader.old result reader.new }
{
    reader.tested(32, |n| n != 0, Refusal::GivenZero)
}

// Which variables are given, by their marks, and their values.
#[tactic(auto, using(crate::proofs::Stages::value_ok))]
pub(crate) fn read_given(reader: &mut Reader, variables: usize) -> Result<FirstRow, Refused>
    requires { (reader.old.at + most_given ≤ farthest) × (variables ≤ 16) }
    ensures { Reads first_row_of (given variables) reader.old result reader.new }
{
    let marks = reader.hold(variables)?;
    let mut given: u16 = 0;
    let mut start = [0u32; ROW_WORDS];
    for v in 0..variables {
        if reader.bit(marks + v) == 1 {
            given |= 1 << v;
            start[v] = read_value(reader)? as u32;
        }
    }
    Ok(FirstRow { given, start })
}
