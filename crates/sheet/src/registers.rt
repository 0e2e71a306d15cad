// Part 5 of the sheet: the registers and their rules.
ghost use Rattle.std.specs.Prelude.{◌≡◌, ◌+◌, ◌≤◌};
ghost use Rattle.plan.specs.Reader.{marks, each};
ghost use Rattle.plan.specs.Sheet.{register};
ghost use Rattle.plan.specs.Write.{marks_number};
ghost use Rattle.sheet.specs.Fields.{register_of, empty_register};
ghost use Rattle.sheet.specs.Bounds.{farthest, most_rules, most_register, most_registers};
ghost use Rattle.sheet.specs.Reads.{Reads};
ghost use Rattle.sheet.specs.Parts.{rules_of, registers_of};

use crate::Register;
use crate::bits::Reader;
use crate::each::read_each;
use plan::{MOST_COLUMNS, MOST_REGISTERS, MOST_RULES, Refused};

// An unused register.
pub(crate) fn empty_register() -> Register
    ensures { result ≡ empty_register }
{
    Register {
        columns: 0,
        rules: 0,
        rule: [0; MOST_RULES],
    }
}

// A rule as a number, first column first.
fn read_rule(reader: &mut Reader, columns: usize) -> Result<u8, Refused>
    requires { (reader.old.at + columns ≤ farthest) × (columns ≤ 6) }
    ensures { Reads (marks_number 0) (marks columns) reader.old result reader.new }
{
    let bits = reader.field(columns)?;
    Ok(bits as u8)
}

// The rules of a register.
#[tactic(auto, using(crate::proofs::Stages::rule_ok))]
fn read_rules(
    reader: &mut Reader,
    count: usize,
    columns: usize,
) -> Result<[u8; MOST_RULES], Refused>
    requires { (reader.old.at + most_rules ≤ farthest) × (count ≤ 8) × (columns ≤ 6) }
    ensures { Reads rules_of (each count (marks columns)) reader.old result reader.new }
{
    read_each(
        reader,
        count,
        0,
        |reader: &mut Reader| -> Result<u8, Refused>
            requires { (reader.old.at + columns ≤ farthest) × (columns ≤ 6) }
            ensures { Reads (marks_number 0) (marks columns) reader.old result reader.new }
        { read_rule(reader, columns) },
    )
}

// A register: its columns, and its rules.
#[tactic(auto, using(crate::proofs::Stages::count_ok))]
fn read_register(reader: &mut Reader) -> Result<Register, Refused>
    requires { reader.old.at + most_register ≤ farthest }
    ensures { Reads register_of register reader.old result reader.new }
{
    let columns = reader.count(3, 1, MOST_COLUMNS)?;
    let rules = reader.count(4, 1, MOST_RULES)?;
    let rule = read_rules(reader, rules, columns)?;
    Ok(Register {
        columns: columns as u8,
        rules: rules as u8,
        rule,
    })
}

// The registers.
pub(crate) fn read_registers(
    reader: &mut Reader,
    count: usize,
) -> Result<[Register; MOST_REGISTERS], Refused>
    requires { (reader.old.at + most_registers ≤ farthest) × (count ≤ 12) }
    ensures { Reads registers_of (each count register) reader.old result reader.new }
{
    read_each(reader, count, empty_register(), read_register)
}
