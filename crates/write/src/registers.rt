// Part 5 of the sheet: the registers and their rules.
ghost use Rattle.std.specs.Prelude.{◌≡◌, map, ◌+◌, ◌≤◌, length, IfOk};
ghost use Rattle.plan.specs.Lists.{numbers};
ghost use Rattle.plan.specs.Write.{marks_of, sound, register_items, all_items, written};
ghost use Rattle.sheet.specs.Bounds.{most_rules, most_register, most_registers};
ghost use Rattle.write.specs.Said.{register_said, register_at};
ghost use Rattle.write.specs.Puts.{Open, Goes, Puts, Narrow};

use crate::bits::Writer;
use plan::{MOST_COLUMNS, MOST_RULES, Refused};
use sheet::{Fields, Register};

// The rules of a register, a bit per column.
fn put_rules(writer: &mut Writer, columns: usize, rules: &[u8])
    requires { Open most_rules writer.old × (columns ≤ 6) × (length rules.now ≤ 8) }
    ensures puts { Goes (written (map sound (map (marks_of columns) rules.now)) writer.old.at) writer.old writer.new }
    ensures at_most { writer.new.at ≤ writer.old.at + most_rules }
{
    for rule in rules {
        writer.put_bits(columns, usize::from(*rule));
    }
}

// A register: its columns, and its rules.
fn put_register(writer: &mut Writer, r: &Register) -> Result<(), Refused>
    requires { Open most_register writer.old }
    ensures puts { Puts (written (register_items (register_said r.now)) writer.old.at) writer.old result writer.new }
    ensures at_most { IfOk result (λ _. writer.new.at ≤ writer.old.at + most_register) }
    ensures narrow { IfOk result (λ _. r.now.columns ≤ 6) }
{
    let columns = usize::from(r.columns);
    let rules = usize::from(r.rules);
    writer.put_count(3, MOST_COLUMNS, columns)?;
    writer.put_count(4, MOST_RULES, rules)?;
    put_rules(writer, columns, &r.rule[..rules]);
    Ok(())
}

// As many registers as the sheet has.
pub(crate) fn put_registers(writer: &mut Writer, f: &Fields) -> Result<(), Refused>
    requires { Open most_registers writer.old × (f.now.registers ≤ 12) }
    ensures puts { Puts (written (all_items register_items (map (register_at f.now.register) (numbers 0 f.now.registers)))
        writer.old.at) writer.old result writer.new }
    ensures at_most { IfOk result (λ _. writer.new.at ≤ writer.old.at + most_registers) }
    ensures narrow { IfOk result (λ _. Narrow f.now.registers f.now.register) }
{
    for i in 0..f.registers {
        put_register(writer, &f.register[i])?;
    }
    Ok(())
}
