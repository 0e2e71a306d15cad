// Part 7 of the sheet: the look-ups.
ghost use Rattle.std.specs.Prelude.{◌≡◌, [], map, ◌+◌, ◌≤◌, length, IfOk};
ghost use Rattle.plan.specs.Lists.{numbers, set_of};
ghost use Rattle.plan.specs.Sheet.{used};
ghost use Rattle.plan.specs.Write.{name_item, look_up_items, all_items, written};
ghost use Rattle.sheet.specs.Bounds.{most_vars, most_look_up, most_look_ups};
ghost use Rattle.write.specs.Said.{look_up_said, look_up_at};
ghost use Rattle.write.specs.Puts.{Open, Puts, Narrow};

use crate::bits::Writer;
use plan::{Refusal, Refused};
use sheet::{Fields, LookUp};

// One variable per column: the set of them.
fn put_vars(writer: &mut Writer, variables: usize, vars: &[u8]) -> Result<u16, Refused>
    requires { Open most_vars writer.old × (length vars.now ≤ 6) × (variables ≤ 16) }
    ensures puts { Puts (written (map (name_item variables) vars.now) writer.old.at) writer.old result writer.new }
    ensures at_most { IfOk result (λ _. writer.new.at ≤ writer.old.at + most_vars) }
    ensures set { IfOk result (λ used. used ≡ set_of vars.now) }
{
    let mut used: u16 = 0;
    for v in vars {
        let v = usize::from(*v);
        writer.put_if(v < variables, 4, v, Refusal::NotInSheet)?;
        used |= 1u16 << v;
    }
    Ok(used)
}

// A look-up: its register, and a variable for each of the register's columns. The set of the variables.
fn put_look_up(writer: &mut Writer, f: &Fields, l: &LookUp) -> Result<u16, Refused>
    requires few { Open most_look_up writer.old × (f.now.registers ≤ 12) × (f.now.variables ≤ 16) }
    requires narrow { Narrow f.now.registers f.now.register }
    ensures puts { Puts (written (look_up_items f.now.registers f.now.variables (look_up_said f.now.register l.now)) writer.old.at)
        writer.old result writer.new }
    ensures at_most { IfOk result (λ _. writer.new.at ≤ writer.old.at + most_look_up) }
    ensures set { IfOk result (λ used. used ≡ set_of (look_up_said f.now.register l.now).vars) }
{
    let register = usize::from(l.register);
    writer.put_if(register < f.registers, 4, register, Refusal::NotInSheet)?;
    let columns = usize::from(f.register[register].columns);
    put_vars(writer, f.variables, &l.vars[..columns])
}

// As many look-ups as the sheet has: the set of their variables.
pub(crate) fn put_look_ups(writer: &mut Writer, f: &Fields) -> Result<u16, Refused>
    requires few { Open most_look_ups writer.old × (f.now.registers ≤ 12) × (f.now.variables ≤ 16) × (f.now.lookups ≤ 12) }
    requires narrow { Narrow f.now.registers f.now.register }
    ensures puts { Puts (written (all_items (look_up_items f.now.registers f.now.variables)
        (map (look_up_at f.now.register f.now.lookup) (numbers 0 f.now.lookups))) writer.old.at) writer.old result writer.new }
    ensures at_most { IfOk result (λ _. writer.new.at ≤ writer.old.at + most_look_ups) }
    ensures set { IfOk result (λ asked. asked ≡ set_of (used [] (map (look_up_at f.now.register f.now.lookup)
        (numbers 0 f.now.lookups)))) }
{
    let mut used: u16 = 0;
    for i in 0..f.lookups {
        used |= put_look_up(writer, f, &f.lookup[i])?;
    }
    Ok(used)
}
