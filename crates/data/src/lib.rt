// The registers' parts of the row data.
#![tactic(auto)]

ghost use Rattle.std.specs.Prelude.{◌≡◌, ◌+◌, ◌*◌, ◌≤◌, ◌<◌, length, take, drop};
ghost use Rattle.plan.specs.RowData.{parts};
ghost use Rattle.data.specs.Parts.{Narrow, parts_of, part_of};

use plan::{MOST_REGISTERS, MOST_ROWS, MOST_WORDS};

// Where a register's rows start in the row data, and how many there are.
#[derive(Clone, Copy)]
pub struct Part {
    pub start: usize,
    pub rows: usize,
}

// The part of each register.
#[derive(Clone, Copy)]
pub struct Parts {
    pub part: [Part; MOST_REGISTERS],
}

impl Parts {
    // The words of a register's rows, which have so many columns.
    pub fn words_of<'a>(&self, words: &'a [u32], register: usize, columns: usize) -> &'a [u32]
        requires register { register < 12 }
        requires within { (part_of self.now register).start + (part_of self.now register).rows * columns ≤ length words.now }
        ensures { result.now ≡ take ((part_of self.now register).rows * columns) (drop (part_of self.now register).start words.now) }
    {
        let part = self.part[register];
        &words[part.start..part.start + part.rows * columns]
    }
}

// Where each register's rows stand in the row data, or none where the data ends early, has words left over, has a
// count above 512, or exceeds 16,384 words. `columns` has the columns of each register.
pub fn find_parts(words: &[u32], columns: &[u8]) -> Option<Parts>
    requires { Narrow columns.now (length columns.now) }
    ensures { result ≡ parts_of (parts columns.now words.now) }
{
    if words.len() > MOST_WORDS {
        return None;
    }
    let mut part = [Part { start: 0, rows: 0 }; MOST_REGISTERS];
    let mut at = 0;
    for (i, &wide) in columns.iter().enumerate() {
        let count = *words.get(at)? as usize;
        if count > MOST_ROWS {
            return None;
        }
        let end = at + 1 + count * usize::from(wide);
        if end > words.len() {
            return None;
        }
        part[i] = Part {
            start: at + 1,
            rows: count,
        };
        at = end;
    }
    if at < words.len() {
        return None;
    }
    Some(Parts { part })
}
