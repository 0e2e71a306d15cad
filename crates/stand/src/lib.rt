// What a state of a request that is answered step by step holds: the fields of its sheet, what is known and answered, and how
// many rows of the first table are its list. A caller may have changed any of it.
#![tactic(auto)]

ghost use Rattle.std.specs.Prelude.{◌≡◌, ◌+◌, ◌*◌, ◌<◌, ◌≤◌, length, take, drop};
ghost use Rattle.plan.specs.Lists.{vars_in};
ghost use Rattle.plan.specs.Request.{row_words, rows_by};
ghost use Rattle.plan.specs.Apart.{is_blank, is_list, list_rows};
ghost use Rattle.sheet.specs.Fine.{Small};
ghost use Rattle.stand.specs.Held.{Asks, DoneBy, comes_before};

use choose::learn;
use list::order::compare_rows;
use plan::{MOST_ROWS, ROW_WORDS, SHEET_BYTES, State};
use sheet::{Fields, no_fields, read_sheet};

// The sets of the variables known and of the look-ups answered, and how many look-ups are answered.
#[derive(Clone, Copy)]
pub struct Done {
    pub known: u16,
    pub answered: u16,
    pub made: usize,
}

// The fields of the state's sheet; of a sheet that is not sound they ask nothing.
pub fn fields_of(state: &State) -> Fields
    ensures { Asks state.now result }
{
    let bytes = usize::from(state.bytes).min(SHEET_BYTES);
    match read_sheet(&state.sheet[..bytes]) {
        Ok(read) => read.value,
        Err(_) => no_fields(),
    }
}

// What is known and answered where the look-ups of a set are answered.
pub fn done_so_far(fields: &Fields, answered: u16) -> Done
    requires { Small fields.now }
    ensures { DoneBy fields.now answered result }
{
    let mut done = Done {
        known: fields.given,
        answered: 0,
        made: 0,
    };
    for lookup in (0..fields.lookups).rev() {
        if (answered >> lookup) & 1 != 0 {
            done.known = learn(done.known, fields.lookup[lookup]);
            done.answered |= 1 << lookup;
            done.made += 1;
        }
    }
    done
}

// Whether the row is 0 at each variable that is not known.
fn is_blank(row: &[u32], known: u16) -> bool
    requires { length row.now ≡ row_words }
    ensures { result ≡ is_blank (vars_in known) row.now }
{
    for (v, &word) in row.iter().enumerate() {
        if word != 0 && (known >> v) & 1 == 0 {
            return false;
        }
    }
    true
}

// Whether a row comes before the next one, if there is a next of so many rows.
fn comes_before(table: &[u32], row: usize, rows: usize) -> bool
    requires { (row < rows) × (rows * row_words ≤ length table.now) }
    ensures { result ≡ comes_before row rows table.now }
{
    if row + 1 == rows {
        return true;
    }
    let from = row * ROW_WORDS;
    let end = from + ROW_WORDS;
    compare_rows(&table[from..end], table, end).is_lt()
}

// Whether the first rows of the table hold together as a list: they ascend, and are 0 at variables that are not known.
fn is_list(table: &[u32], rows: usize, known: u16) -> bool
    requires { rows * row_words ≤ length table.now }
    ensures { result ≡ is_list (vars_in known) (rows_by row_words rows table.now) }
{
    for row in 0..rows {
        let from = row * ROW_WORDS;
        if !is_blank(&table[from..from + ROW_WORDS], known) {
            return false;
        }
        if !comes_before(table, row, rows) {
            return false;
        }
    }
    true
}

// How many of the first rows of a table are the list: all, or none where they are over 512 or do not hold together.
pub fn list_rows(table: &[u32], rows: usize, known: u16) -> usize
    requires { 8192 ≤ length table.now }
    ensures { result ≡ list_rows (vars_in known) rows table.now }
{
    if rows <= MOST_ROWS && is_list(table, rows, known) {
        rows
    } else {
        0
    }
}
