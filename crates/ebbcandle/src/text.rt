// The text that is printed: made piece by piece, each put behind those that are there.
ghost use Rattle.std.specs.Prelude.{◌≡◌, [], ◌∷◌, ◌++◌, ◌+◌, ◌*◌, ◌≤◌, length};
ghost use Rattle.plan.specs.Refusals.{number_of};
ghost use Rattle.plan.specs.Request.{row_words};
ghost use Rattle.plan.specs.Answer.{told};
ghost use Rattle.lay.specs.Put.{Put, joined};
ghost use Rattle.ebbcandle.specs.Lines.{digits, decimal, step_line, lines_of_steps, row_line};
ghost use Rattle.ebbcandle.specs.Lines.{refused_line, printed, HasRoom};

use plan::{Answered, ROW_WORDS, Refused, Step};
use std::marker::Model;

// The longest output: 12 lines of 133 bytes for the steps, one of 27 for the calls, 512 of 340 for the rows.
const TEXT_ROOM: usize = 12 * 133 + 27 + 512 * 340;

// The last digits of a number, at most so many, without zeros in front, from a place on. Gives the place behind them. They
// go into the buffer, not the text, whose length would be read and written at each digit: with 8,192 numbers of ten digits
// the program took 1.09 times the time.
fn put_digits(out: &mut [u8], at: usize, n: usize, most: usize) -> usize
    requires { at + most ≤ length out.old }
    ensures put { Put out.old at (digits most n) out.new result }
    ensures upper_bound { result ≤ at + most }
{
    if most == 0 {
        return at;
    }
    if n < 10 {
        out[at] = b'0' + n as u8;
        return at + 1;
    }
    let next = put_digits(out, at, n / 10, most - 1);
    out[next] = b'0' + (n % 10) as u8;
    next + 1
}

// A text of no more bytes than the longest output has.
#[derive(Drop)]
pub(crate) struct Text {
    room: [u8; TEXT_ROOM],
    len: usize,
}

// Clauses see the bytes that were put.
impl Model for Text {
    ghost use Rattle.std.specs.Prelude.{List, ℕ, ◌≤◌, take};

    ghost Value = { List ℕ };

    ghost view = { λ t. take t.len t.room };

    ghost invariant = { λ t. t.len ≤ 175703 };
}

impl Text {
    // No bytes.
    pub(crate) fn new() -> Self
        ensures { result ≡ [] }
    {
        Text {
            room: [0; TEXT_ROOM],
            len: 0,
        }
    }

    // The bytes that were put.
    pub(crate) fn bytes(&self) -> &[u8]
        ensures { result.now ≡ self.now }
    {
        &self.room[..self.len]
    }

    // A word more.
    fn word(&mut self, word: &[u8])
        requires { HasRoom (length word.now) self.old }
        ensures { self.new ≡ self.old ++ word.now }
    {
        let end = self.len + word.len();
        self.room[self.len..end].copy_from_slice(word);
        self.len = end;
    }

    // A number more.
    fn number(&mut self, n: usize)
        requires { HasRoom 20 self.old }
        ensures put { self.new ≡ self.old ++ decimal n }
        ensures upper_bound { length self.new ≤ length self.old + 20 }
    {
        self.len = put_digits(&mut self.room, self.len, n, 20);
    }

    // A word and a number.
    fn named(&mut self, word: &[u8], n: usize)
        requires { HasRoom (length word.now + 20) self.old }
        ensures put { self.new ≡ self.old ++ (word.now ++ decimal n) }
        ensures upper_bound { length self.new ≤ length self.old + length word.now + 20 }
    {
        self.word(word);
        self.number(n);
    }

    // The line of a step, whose number is counted from 1.
    #[tactic(auto, unfolding(crate::specs::Lines::step_line, crate::specs::Lines::named))]
    fn step(&mut self, number: usize, s: Step)
        requires { HasRoom 133 self.old }
        ensures put { self.new ≡ self.old ++ step_line number s }
        ensures upper_bound { length self.new ≤ length self.old + 133 }
    {
        self.named(b"step ", number);
        self.named(b" lookup ", s.lookup);
        self.named(b" rule ", s.rule);
        self.named(b" calls ", s.calls);
        self.named(b" rows ", s.rows);
        self.word(b"\n");
    }

    // The lines of the steps.
    fn steps(&mut self, steps: &[Step])
        requires { (length steps.now ≤ 12) × HasRoom 1596 self.old }
        ensures put { self.new ≡ self.old ++ lines_of_steps steps.now (length steps.now) }
        ensures upper_bound { length self.new ≤ length self.old + 1596 }
    {
        for (i, step) in steps.iter().enumerate() {
            self.step(i + 1, *step);
        }
    }

    // The line of the row with this number, from 0, in the table.
    fn row(&mut self, table: &[u32], variables: usize, i: usize)
        requires variables_bound { (variables ≤ 16) × (i * row_words + row_words ≤ length table.now) }
        requires room { HasRoom 340 self.old }
        ensures put { self.new ≡ self.old ++ row_line table.now variables i }
        ensures upper_bound { length self.new ≤ length self.old + 340 }
    {
        let from = i * ROW_WORDS;
        self.word(b"row");
        for v in 0..variables {
            self.named(b" ", table[from + v] as usize);
        }
        self.word(b"\n");
    }

    // The lines of the rows, so many.
    fn rows(&mut self, table: &[u32], variables: usize, rows: usize)
        requires variables_bound { (variables ≤ 16) × (rows * row_words ≤ length table.now) }
        requires room { HasRoom (rows * 340) self.old }
        ensures put { self.new ≡ self.old ++ joined (row_line table.now variables) rows }
        ensures upper_bound { length self.new ≤ length self.old + rows * 340 }
    {
        for i in 0..rows {
            self.row(table, variables, i);
        }
    }

    // The line of a refusal.
    #[tactic(auto, unfolding(crate::specs::Lines::refused_line, crate::specs::Lines::named, crate::specs::Lines::spaced))]
    fn refused(&mut self, refused: Refused)
        requires { HasRoom 50 self.old }
        ensures { self.new ≡ self.old ++ refused_line (number_of refused.refusal) refused.detail }
    {
        self.named(b"refused ", u32::from(refused.refusal) as usize);
        self.named(b" ", refused.detail);
        self.word(b"\n");
    }

    // All that is printed for an answer, whose rows stand in the table, or for a refusal, where nothing was put yet.
    pub(crate) fn answer(
        &mut self,
        answer: Result<Answered, Refused>,
        table: &[u32],
        variables: usize,
    )
        requires few { ((told answer).made ≤ 12) × ((told answer).rows ≤ 512) × (variables ≤ 16) }
        requires in_bounds { (8192 ≤ length table.now) × (self.old ≡ []) }
        ensures { self.new ≡ printed (told answer) table.now variables }
    {
        let answered = match answer {
            Ok(answered) => answered,
            Err(refused) => return self.refused(refused),
        };
        self.steps(&answered.steps[..answered.made]);
        self.named(b"calls ", answered.calls);
        self.word(b"\n");
        self.rows(table, variables, answered.rows);
    }
}
