// Where a request that is answered step by step stands: what its state asks, what is known and answered, and its list.
ghost use Rattle.std.specs.Prelude.{◌≡◌, ◌≤◌, ◌<◌, length, get_or};
ghost use Rattle.plan.specs.Lists.{vars_in};
ghost use Rattle.plan.specs.Apart.{list_rows};
ghost use Rattle.choose.specs.Choose.{register_at};
ghost use Rattle.apart.specs.Here.{rows_on, words_on};
ghost use Rattle.stand.specs.Held.{Asks, DoneBy};

use plan::State;
use sheet::{Fields, Register};
use stand::{Done, done_so_far, list_rows};

// A state, the fields of its sheet, and what is known and answered.
#[derive(Clone, Copy)]
pub(crate) struct Stand<'a> {
    pub(crate) state: &'a State,
    pub(crate) fields: &'a Fields,
    pub(crate) done: Done,
    ghost asks: { Asks state.now fields.now },
    ghost done_by: { DoneBy fields.now state.now.answered done },
}

impl<'a> Stand<'a> {
    // Where the state stands, by the fields of its sheet.
    pub(crate) fn of(state: &'a State, fields: &'a Fields) -> Stand<'a>
        requires { Asks state.now fields.now }
        ensures of_state { result.state.now ≡ state.now }
        ensures of_fields { result.fields.now ≡ fields.now }
    {
        let done = done_so_far(fields, state.answered);
        Stand {
            state,
            fields,
            done,
        }
    }

    // How many rows the list has: one with no look-up answered, else those of the first table.
    pub(crate) fn rows(&self, first: &[u32]) -> usize
        requires { 8192 ≤ length first.now }
        ensures { result ≡ rows_on self.now.done.made (list_rows (vars_in self.now.done.known) self.now.state.now.rows first.now) }
    {
        if self.done.made == 0 {
            return 1;
        }
        list_rows(first, usize::from(self.state.rows), self.done.known)
    }

    // The words that the list stands in: the first row with no look-up answered, else the first table.
    pub(crate) fn words<'b>(&self, first: &'b [u32]) -> &'b [u32]
    where
        'a: 'b,
        ensures { result.now ≡ words_on self.now.done.made self.now.fields.now.start first.now }
    {
        if self.done.made == 0 {
            return &self.fields.start;
        }
        first
    }

    // The register that a look-up asks.
    pub(crate) fn register(&self, lookup: usize) -> Register
        requires { lookup < self.now.fields.now.lookups }
        ensures { result ≡ register_at self.now.fields.now lookup }
    {
        let entry = self.fields.lookup[lookup];
        self.fields.register[usize::from(entry.register)]
    }

    // The marks of a rule of that register.
    pub(crate) fn marks(&self, lookup: usize, rule: usize) -> u8
        requires look_up { lookup < self.now.fields.now.lookups }
        requires rule { rule < (register_at self.now.fields.now lookup).rules }
        ensures { result ≡ get_or (register_at self.now.fields.now lookup).rule rule 0 }
    {
        self.register(lookup).rule[rule]
    }
}
