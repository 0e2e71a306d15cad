// The faults of a token where it stands, each by a test of its own.
ghost use Rattle.std.specs.Prelude.{◌≡◌, ◌||◌, leb, ltb};
ghost use Rattle.plan.specs.Typed.{role, is_nought, is_unknown, is_miscounted};
ghost use Rattle.plan.specs.Typed.{is_name_over, is_over, is_again, first_fit, fits_of};
ghost use Rattle.typed.specs.Told.{number_told};

use crate::grammar::{behind, behind_number};
use plan::{Cut, MOST_LOOK_UPS, MOST_VARIABLES, Refusal, Stage, Token};
use tokens::OVER;

// A name has 1 to 12 letters.
pub(crate) const MOST_LETTERS: usize = 12;

// How many there are where a token stands: registers; variables, look-ups, and variables in the brackets so far; and columns of
// the register that is asked.
#[derive(Clone, Copy)]
pub(crate) struct Counts {
    pub(crate) registers: usize,
    pub(crate) variables: usize,
    pub(crate) lookups: usize,
    pub(crate) columns: usize,
    pub(crate) width: usize,
}

// `GivenZero`: a given 0, that is a number where one may come.
fn is_nought(stage: Stage, token: Token) -> bool
    ensures { result ≡ is_nought stage token }
{
    token == Token::Number(0) && behind_number(stage) != Stage::Nowhere
}

// `UnknownRegister`: a name that is none of the registers', where a register's comes.
#[tactic(auto, using(crate::proofs::Others::no_register, crate::proofs::Others::not_unknown, crate::proofs::Others::unknown))]
fn is_unknown(stage: Stage, token: Token, which: usize, registers: usize) -> bool
    ensures { result ≡ is_unknown (role stage) token which registers }
{
    let Token::Name { .. } = token else {
        return false;
    };
    stage == Stage::Asked && registers <= which
}

// `Miscounted`: a closing bracket behind more or fewer variables than the register has columns.
#[tactic(auto, using(crate::proofs::Others::no_bracket), unfolding(plan::specs::Typed::is_miscounted))]
fn is_miscounted(token: Token, columns: usize, width: usize) -> bool
    ensures { result ≡ is_miscounted token columns width }
{
    token == Token::Mark(b')') && columns != width
}

// A variable's name of over 12 letters, or a 17th variable.
fn is_variable_over(letters: usize, which: usize) -> bool
    ensures { result ≡ (ltb 12 letters || leb 16 which) }
{
    MOST_LETTERS < letters || MOST_VARIABLES <= which
}

// `OverLimit`, of a name: a variable's, or a register's for a 13th look-up.
#[tactic(auto, using(crate::proofs::Others::not_over), unfolding(plan::specs::Typed::is_name_over, plan::specs::Typed::role))]
fn is_name_over(stage: Stage, letters: usize, which: usize, lookups: usize) -> bool
    ensures { result ≡ is_name_over (role stage) letters which lookups }
{
    match stage {
        Stage::Given | Stage::Column => is_variable_over(letters, which),
        Stage::Asked => MOST_LOOK_UPS <= lookups,
        _ => false,
    }
}

// `OverLimit`: a name, a number, a 17th variable or a 13th look-up over its limit.
#[tactic(auto, using(crate::proofs::Others::no_limit), unfolding(plan::specs::Typed::is_over))]
fn is_over(stage: Stage, token: Token, which: usize, lookups: usize) -> bool
    ensures { result ≡ is_over (role stage) token which lookups }
{
    match token {
        Token::Name { letters, .. } => is_name_over(stage, letters, which, lookups),
        Token::Number(x) => OVER <= x,
        _ => false,
    }
}

// `GivenAgain`: a name given twice.
#[tactic(auto, using(crate::proofs::Others::no_given, crate::proofs::Others::not_again, crate::proofs::Others::again))]
fn is_again(stage: Stage, token: Token, which: usize, variables: usize) -> bool
    ensures { result ≡ is_again (role stage) token which variables }
{
    let Token::Name { .. } = token else {
        return false;
    };
    stage == Stage::Given && which < variables
}

// The refusal with the lowest number that fits a token at a stage, if one does: `which` is the number of the name that it is.
pub(crate) fn fault_of(stage: Stage, cut: Cut, which: usize, counts: Counts) -> Option<Refusal>
    ensures { number_told result ≡ first_fit (fits_of stage cut which counts.registers counts.variables
        counts.lookups counts.columns counts.width) }
{
    let token = cut.token;
    if is_nought(stage, token) {
        return Some(Refusal::GivenZero);
    }
    if token == Token::Other || cut.zero {
        return Some(Refusal::NoToken);
    }
    if behind(stage, token) == Stage::Nowhere {
        return Some(Refusal::OutOfPlace);
    }
    if is_unknown(stage, token, which, counts.registers) {
        return Some(Refusal::UnknownRegister);
    }
    if is_miscounted(token, counts.columns, counts.width) {
        return Some(Refusal::Miscounted);
    }
    if is_over(stage, token, which, counts.lookups) {
        return Some(Refusal::OverLimit);
    }
    if is_again(stage, token, which, counts.variables) {
        return Some(Refusal::GivenAgain);
    }
    None
}
