// What the operations give, and what is right: the types that come back stand here, the definitions that say what is in
// them in specs/, and the theorems about those in proofs/. Nothing runs here but the number of a refusal.
#![tactic(auto)]

ghost use Rattle.plan.specs.Refusals.{HasNumber};

// A register has 1 to 6 columns.
pub const MOST_COLUMNS: usize = 6;

// A register has 1 to 8 rules.
pub const MOST_RULES: usize = 8;

// A register has up to 512 rows, and the joined list holds at most 512.
pub const MOST_ROWS: usize = 512;

// A sheet has 1 to 12 registers.
pub const MOST_REGISTERS: usize = 12;

// A request has 1 to 16 variables.
pub const MOST_VARIABLES: usize = 16;

// A request has 1 to 12 look-ups.
pub const MOST_LOOK_UPS: usize = 12;

// Row data holds at most 16,384 words, all registers together.
pub const MOST_WORDS: usize = 16384;

// A list row takes 16 words.
pub const ROW_WORDS: usize = 16;

// A lent table has room for 512 list rows.
pub const TABLE_WORDS: usize = MOST_ROWS * ROW_WORDS;

// A call, and a row sent, costs at most 1,000.
pub const MOST_PRICE: usize = 1000;

// Why something is refused, by the rules' numbers.
#[derive(Clone, Copy, Debug, PartialEq, Eq)]
pub enum Refusal {
    // A lent table or list is too short.
    ShortTable = 1,
    // The sheet ends early.
    EndsEarly = 2,
    // The row data are not sound.
    BadData = 3,
    // No order of the look-ups is a route.
    NoRoute = 4,
    // A step yields more rows than the list holds.
    TooManyRows = 5,
    // The variable, the rows or the table of a count is out of range.
    Uncountable = 6,
    // The sheet's version is not 1.
    WrongVersion = 7,
    // A count in the sheet is out of its range.
    CountOut = 8,
    // A register or a variable is not in the sheet.
    NotInSheet = 9,
    // A variable is neither given nor in a look-up.
    UnusedVariable = 10,
    // A padding bit is not zero, or a byte follows.
    BadPadding = 11,
    // A given value is 0.
    GivenZero = 12,
    // The buffer is shorter than the sheet.
    ShortBuffer = 13,
    // The step is not there, or not chosen yet.
    NoSuchStep = 15,
    // No call asked for a row that was delivered.
    NotAsked = 16,
    // What a call or a row sent costs is out of its range.
    BadPrice = 17,
    // A byte of a typed line begins no token, or a number has a leading zero.
    NoToken = 20,
    // A token or the line's end is out of place.
    OutOfPlace = 21,
    // A register's name is none of the second line's.
    UnknownRegister = 22,
    // A look-up has another number of variables than its register has columns.
    Miscounted = 23,
    // A name, a number, the variables or the look-ups are over their limit.
    OverLimit = 24,
    // A name is given twice.
    GivenAgain = 25,
    // The second line is not one name for each register.
    NotNames = 31,
    // A delivery is not whole rows, or has over 512.
    NotWhole = 32,
}

// The rules' number of a refusal.
impl From<Refusal> for u32 {
    ghost from_gives = { HasNumber };

    fn from(refusal: Refusal) -> u32 {
        refusal as u32
    }
}

// A refusal with its detail.
#[derive(Clone, Copy, Debug, PartialEq, Eq)]
pub struct Refused {
    pub refusal: Refusal,
    pub detail: usize,
}

// What the tool is set to: how many rows the joined list holds at most, what a call costs (p), and what a row sent (q).
#[derive(Clone, Copy)]
pub struct Setting {
    pub limit: usize,
    pub call: usize,
    pub row: usize,
}

// A step of the answer: the look-up, the rule, its calls, the rows after it, the rows sent, and what it costs.
#[derive(Clone, Copy)]
pub struct Step {
    pub lookup: usize,
    pub rule: usize,
    pub calls: usize,
    pub rows: usize,
    pub sent: usize,
    pub charge: usize,
}

// An answer: the steps, how many there are, the total calls, the total charge, and the rows. Unused step records are zero.
#[derive(Clone, Copy)]
pub struct Answered {
    pub steps: [Step; MOST_LOOK_UPS],
    pub made: usize,
    pub calls: usize,
    pub charge: usize,
    pub rows: usize,
}

// What stands at a place of a typed line: a name, by its place and how many letters it has; a number, by its value, where
// 4,294,967,296 stands for all that are over the limit; one of the marks, by its byte; another byte; or the line's end.
#[derive(Clone, Copy, PartialEq, Eq)]
pub enum Token {
    Name { at: usize, letters: usize },
    Number(usize),
    Mark(u8),
    Other,
    End,
}

// A token where it stands: its place, the place behind it, and whether it is a number with a leading zero.
#[derive(Clone, Copy)]
pub struct Cut {
    pub token: Token,
    pub at: usize,
    pub next: usize,
    pub zero: bool,
}

// What may come next in a typed line: a given's name or the colon; `=`; a given value; the space behind a given; the space
// behind the colon; a register's name; the opening bracket; a variable's name; a space or the closing bracket; a space or the
// line's end. Nowhere is behind a token that is out of place.
#[derive(Clone, Copy, PartialEq, Eq)]
pub enum Stage {
    Given,
    Equals,
    Value,
    GivenGap,
    ColonGap,
    Asked,
    Opening,
    Column,
    ColumnGap,
    Closed,
    Nowhere,
}

// The longest sheet has 193 bytes.
pub const SHEET_BYTES: usize = 193;

// A lent list of calls has room for 512 calls of 6 values.
pub const CALL_WORDS: usize = MOST_ROWS * MOST_COLUMNS;

// A request that is answered step by step, between two calls: its sheet, of which the first `bytes` count; the look-ups
// answered, as a set; how many rows the list has; the step that is chosen, if one is; and the step that was refused with 5, or 0.
// The list itself stands in the first table, but for the first, which the sheet gives.
#[derive(Clone, Copy)]
pub struct State {
    pub sheet: [u8; SHEET_BYTES],
    pub bytes: u8,
    pub answered: u16,
    pub rows: u16,
    pub chosen: bool,
    pub lookup: u8,
    pub rule: u8,
    pub over: u8,
}

// What choosing or taking comes to: the look-up and the rule of the next step, and how many calls it needs; all steps are taken;
// the step is taken; it was taken before; or a refusal.
#[derive(Clone, Copy)]
pub enum Case {
    Calls {
        lookup: usize,
        rule: usize,
        calls: usize,
    },
    AllTaken,
    Taken(Step),
    Already,
    Refused(Refused),
}

// What choosing or taking gives: what it comes to, and the state afterwards.
#[derive(Clone, Copy)]
pub struct Turn {
    pub case: Case,
    pub state: State,
}
