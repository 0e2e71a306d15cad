// What a line has said so far, token by token.
ghost use Rattle.std.specs.Prelude.{◌≡◌, List, ℕ, ◌+◌, ◌^◌, ◌≤◌, ◌<◌, get_or, length, replicate, take};
ghost use Rattle.plan.specs.Tokens.{place_of};
ghost use Rattle.plan.specs.Typed.{Typing, nothing_said, of_register, of_column, role};
ghost use Rattle.plan.specs.Typed.{which_name, noted_name, noted_value, noted_look_up, noted};
ghost use Rattle.sheet.specs.Fields.{register_beyond};
ghost use Rattle.typed.specs.Notes.{Noted, Room, count_added, places_added, NamesNoted};

use crate::faults::Counts;
use plan::{MOST_COLUMNS, MOST_LOOK_UPS, MOST_VARIABLES, ROW_WORDS, Stage, Token};
use sheet::{Fields, LookUp, empty_look_up};

// What a line has said beside its names: the given values, in the row of the first variables; the look-ups; and of the look-up
// that is being read its register, how many variables stand in its brackets, and the first six of them.
#[derive(Clone, Copy)]
pub(crate) struct Said {
    pub(crate) given: usize,
    pub(crate) start: [u32; ROW_WORDS],
    pub(crate) lookups: usize,
    pub(crate) lookup: [LookUp; MOST_LOOK_UPS],
    pub(crate) register: usize,
    pub(crate) columns: usize,
    pub(crate) vars: [u8; MOST_COLUMNS],
}

impl Said {
    // How many there are where a token stands, behind what was said to the registers of the fields.
    pub(crate) fn counts(&self, fields: &Fields, variables: usize) -> Counts
        requires { self.now.register < 12 }
        ensures { result ≡ record {
          registers = fields.now.registers;
          variables = variables;
          lookups = self.now.lookups;
          columns = self.now.columns;
          width = (get_or fields.now.register self.now.register register_beyond).columns;
        } }
    {
        Counts {
            registers: fields.registers,
            variables,
            lookups: self.lookups,
            columns: self.columns,
            width: usize::from(fields.register[self.register].columns),
        }
    }
}

// Nothing is said before the first token.
pub(crate) fn nothing_said() -> Said
    ensures { Noted nothing_said result }
{
    Said {
        given: 0,
        start: [0; ROW_WORDS],
        lookups: 0,
        lookup: [empty_look_up(); MOST_LOOK_UPS],
        register: 0,
        columns: 0,
        vars: [0; MOST_COLUMNS],
    }
}

// A look-up begins with its register.
fn with_register(said: &mut Said, which: usize)
    requires { which < 12 }
    ensures { (t : Typing) (known : List (List ℕ)) (x : List ℕ) → which ≡ place_of x known → Noted t said.old
        → Noted (noted_name of_register known x t) said.new }
{
    said.register = which;
    said.columns = 0;
    said.vars = [0; MOST_COLUMNS];
}

// One more variable in the brackets; of more than six only their number is kept.
fn with_column(said: &mut Said, which: usize)
    requires { (which < 16) × (said.old.columns + 1 < 2 ^ 64) }
    ensures { (t : Typing) (known : List (List ℕ)) (x : List ℕ) → which ≡ place_of x t.names → Noted t said.old
        → Noted (noted_name of_column known x t) said.new }
{
    let column = said.columns;
    if column < MOST_COLUMNS {
        said.vars[column] = which as u8;
    }
    said.columns = column + 1;
}

// One more given value.
fn with_value(said: &mut Said, x: usize)
    requires { (said.old.given < 16) × (x < 2 ^ 32) }
    ensures { (t : Typing) → Noted t said.old → Noted (noted_value x t) said.new }
{
    said.start[said.given] = x as u32;
    said.given += 1;
}

// The look-up is whole.
fn with_look_up(said: &mut Said)
    requires { (said.old.lookups < 12) × (said.old.columns ≤ 6) × (said.old.register < 12) }
    ensures { (t : Typing) → Noted t said.old → Noted (noted_look_up t) said.new }
{
    let i = said.lookups;
    let vars = said.vars;
    said.lookup[i] = LookUp {
        register: said.register as u8,
        columns: said.columns as u8,
        vars,
    };
    said.lookups += 1;
}

// What is said with a token, beside the names.
pub(crate) fn note(stage: Stage, token: Token, which: usize, said: &mut Said)
    requires { Room stage token which said.old }
    ensures { (t : Typing) (known : List (List ℕ)) (line : List ℕ)
        → which ≡ which_name known line (role stage) t.names token
        → Noted t said.old → Noted (noted known line (role stage) token t) said.new }
{
    match token {
        Token::Name { .. } => match stage {
            Stage::Asked => with_register(said, which),
            Stage::Column => with_column(said, which),
            _ => {}
        },
        Token::Number(x) => with_value(said, x),
        Token::Mark(b) => {
            if b == b')' {
                with_look_up(said);
            }
        }
        _ => {}
    }
}

// The names of variables so far, each known by the place in the line where it begins.
#[derive(Clone, Copy)]
pub(crate) struct Seen {
    place: [usize; MOST_VARIABLES],
    pub(crate) count: usize,
    ghost few: { count ≤ 16 },
}

impl Seen {
    // No name is seen before the first token.
    pub(crate) fn nothing() -> Seen
        ensures place { result.place ≡ replicate 16 0 }
        ensures count { result.count ≡ 0 }
    {
        Seen {
            place: [0; MOST_VARIABLES],
            count: 0,
        }
    }

    // The places of the names, in the order in which they came.
    pub(crate) fn places(&self) -> &[usize]
        ensures { result.now ≡ take self.now.count self.now.place }
    {
        &self.place[..self.count]
    }

    // One more variable, if the name is not that of one so far.
    fn add(&mut self, at: usize, which: usize)
        requires { which < 16 }
        ensures count { self.new.count ≡ count_added which self.old.count }
        ensures place { self.new.place ≡ places_added at which self.old.count self.old.place }
    {
        if which < self.count {
            return;
        }
        self.place[self.count] = at;
        self.count += 1;
    }

    // The name of a variable that a token is, if it is one.
    pub(crate) fn note(&mut self, stage: Stage, token: Token, which: usize)
        requires { which < 16 }
        ensures { NamesNoted stage token which self.old.count self.old.place self.new.count self.new.place }
    {
        let Token::Name { at, .. } = token else {
            return;
        };
        match stage {
            Stage::Given | Stage::Column => self.add(at, which),
            _ => {}
        }
    }
}
