// Part 7 of the sheet: the look-ups.
ghost use Rattle.std.specs.Prelude.{◌≡◌, ℕ, ◌+◌, ◌≤◌, get_or, length};
ghost use Rattle.plan.specs.Reader.{each};
ghost use Rattle.plan.specs.Sheet.{one_of};
ghost use Rattle.sheet.specs.Fields.{empty_look_up};
ghost use Rattle.sheet.specs.Stages.{look_up_by};
ghost use Rattle.sheet.specs.Bounds.{farthest, most_vars, most_look_up, most_look_ups};
ghost use Rattle.sheet.specs.Reads.{Reads};
ghost use Rattle.sheet.specs.Parts.{widths, vars_using, look_up_using, look_ups_using};

use crate::bits::Reader;
use crate::{LookUp, Register};
use plan::{MOST_COLUMNS, MOST_LOOK_UPS, Refused};

// What was read, and the set of the variables in it.
#[derive(Clone, Copy)]
pub(crate) struct Using<T> {
    pub(crate) read: T,
    pub(crate) used: u16,
}

// What the look-ups are read by: the registers of the sheet, and how many variables it has.
#[derive(Clone, Copy)]
pub(crate) struct Ranges<'a> {
    pub(crate) registers: &'a [Register],
    pub(crate) variables: usize,
    ghost registers_few: { length registers.now ≤ 12 },
    ghost variables_few: { variables ≤ 16 },
    ghost columns_few: { (r : ℕ) → get_or (widths registers.now) r 0 ≤ 6 },
}

// An unused look-up.
pub fn empty_look_up() -> LookUp
    ensures { result ≡ empty_look_up }
{
    LookUp {
        register: 0,
        columns: 0,
        vars: [0; MOST_COLUMNS],
    }
}

// One variable per column. Not by `read_each`: the set grows with each, and a second walk for it would be no plainer.
#[tactic(auto, using(crate::proofs::Stages::one_ok))]
fn read_vars(
    reader: &mut Reader,
    columns: usize,
    variables: usize,
) -> Result<Using<[u8; MOST_COLUMNS]>, Refused>
    requires { (reader.old.at + most_vars ≤ farthest) × (columns ≤ 6) × (variables ≤ 16) }
    ensures { Reads vars_using (each columns (one_of variables)) reader.old result reader.new }
{
    let mut read = [0u8; MOST_COLUMNS];
    let mut used: u16 = 0;
    for i in 0..columns {
        let one = reader.one_of(variables)?;
        read[i] = one as u8;
        used |= 1 << one;
    }
    Ok(Using { read, used })
}

// A look-up: its register, and a variable for each of the register's columns.
#[tactic(auto, using(crate::proofs::Stages::one_ok))]
fn read_look_up(reader: &mut Reader, ranges: &Ranges) -> Result<Using<LookUp>, Refused>
    requires { reader.old.at + most_look_up ≤ farthest }
    ensures { Reads look_up_using (look_up_by (length ranges.now.registers.now) (widths ranges.now.registers.now)
        ranges.now.variables) reader.old result reader.new }
{
    let register = reader.one_of(ranges.registers.len())?;
    let columns = ranges.registers[register].columns;
    let asked = read_vars(reader, usize::from(columns), ranges.variables)?;
    let vars = asked.read;
    Ok(Using {
        read: LookUp {
            register: register as u8,
            columns,
            vars,
        },
        used: asked.used,
    })
}

// The look-ups. Not by `read_each`: the set grows with each here too.
pub(crate) fn read_look_ups(
    reader: &mut Reader,
    count: usize,
    ranges: &Ranges,
) -> Result<Using<[LookUp; MOST_LOOK_UPS]>, Refused>
    requires { (reader.old.at + most_look_ups ≤ farthest) × (count ≤ 12) }
    ensures { Reads look_ups_using (each count (look_up_by (length ranges.now.registers.now)
        (widths ranges.now.registers.now) ranges.now.variables)) reader.old result reader.new }
{
    let mut read = [empty_look_up(); MOST_LOOK_UPS];
    let mut used: u16 = 0;
    for i in 0..count {
        let one = read_look_up(reader, ranges)?;
        read[i] = one.read;
        used |= one.used;
    }
    Ok(Using { read, used })
}
