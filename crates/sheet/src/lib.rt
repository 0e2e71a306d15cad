// The packed request sheet, read into a struct by value.
#![tactic(auto)]

mod asked;
mod bits;
pub mod closing;
mod each;
mod given;
mod header;
mod lookups;
mod registers;

ghost use Rattle.std.specs.Prelude.{◌≡◌};
ghost use Rattle.plan.specs.Sheet.{read_sheet};
ghost use Rattle.sheet.specs.Fields.{no_fields, sheet_read};

use crate::asked::read_asked;
use crate::bits::Reader;
use crate::header::read_header;
use crate::lookups::Ranges;
pub use crate::lookups::empty_look_up;
use crate::registers::{empty_register, read_registers};
use plan::{MOST_COLUMNS, MOST_LOOK_UPS, MOST_REGISTERS, MOST_RULES, ROW_WORDS, Refused};

// What was read, and the place behind it.
#[derive(Clone, Copy)]
pub struct Got<T> {
    pub value: T,
    pub next: usize,
}

// A register: its columns, how many rules it has, and each rule as a number of as many bits as there are columns, first
// column first, 1 = must give.
#[derive(Clone, Copy)]
pub struct Register {
    pub columns: u8,
    pub rules: u8,
    pub rule: [u8; MOST_RULES],
}

// A look-up: its register, how many columns it has, and one variable per column.
#[derive(Clone, Copy)]
pub struct LookUp {
    pub register: u8,
    pub columns: u8,
    pub vars: [u8; MOST_COLUMNS],
}

// What a sheet says. Unused entries are zero. The given variables are a 16-bit set; the first row of the list holds their
// values and zeros elsewhere.
#[derive(Clone, Copy)]
pub struct Fields {
    pub registers: usize,
    pub register: [Register; MOST_REGISTERS],
    pub variables: usize,
    pub given: u16,
    pub start: [u32; ROW_WORDS],
    pub lookups: usize,
    pub lookup: [LookUp; MOST_LOOK_UPS],
}

// The variables of a look-up's entry as numbers.
pub fn vars_of(l: LookUp) -> [usize; MOST_COLUMNS]
    ensures { result ≡ l.vars }
{
    l.vars.map(usize::from)
}

// The fields that ask nothing.
pub fn no_fields() -> Fields
    ensures { result ≡ no_fields }
{
    Fields {
        registers: 0,
        register: [empty_register(); MOST_REGISTERS],
        variables: 0,
        given: 0,
        start: [0; ROW_WORDS],
        lookups: 0,
        lookup: [empty_look_up(); MOST_LOOK_UPS],
    }
}

// The whole sheet: its fields and the place behind its last bit, or the first fault in reading order: that the sheet ends early,
// the version, a count that is out of its range, a given value that is 0, a register or a variable that is not in the sheet, a
// variable that is neither given nor in a look-up, padding that is not zero or a byte too many. The detail is the place of the
// first bit of the field, and the lowest such variable for one that is not used.
pub fn read_sheet(sheet: &[u8]) -> Result<Got<Fields>, Refused>
    ensures { result ≡ sheet_read (read_sheet sheet.now) }
{
    let mut reader = Reader { sheet, at: 0 };
    let counts = read_header(&mut reader)?;
    let register = read_registers(&mut reader, counts.registers)?;
    let ranges = Ranges {
        registers: &register[..counts.registers],
        variables: counts.variables,
    };
    let asked = read_asked(&mut reader, &ranges, counts.lookups)?;
    let start = asked.first.start;
    let lookup = asked.lookup;
    let value = Fields {
        registers: counts.registers,
        register,
        variables: counts.variables,
        given: asked.first.given,
        start,
        lookups: counts.lookups,
        lookup,
    };
    let next = reader.at;
    Ok(Got { value, next })
}
