// The tokens of a typed line, and the name that is handed back where one is faulty.
#![tactic(auto)]

ghost use Rattle.std.specs.Prelude.{◌≡◌, true, false, ◌+◌, ◌-◌, ◌*◌, ◌^◌, ◌≤◌, ◌<◌, min, get_or, length};
ghost use Rattle.std.specs.List.{prefix_len};
ghost use Rattle.plan.specs.Lists.{every};
ghost use Rattle.plan.specs.Tokens.{is_letter, is_digit, is_mark, run, value_of, cut, cut_at};
ghost use Rattle.plan.specs.Typed.{part_place, part_length};
ghost use Rattle.plan.specs.declared.Token.TheVariants.{Mark, Other};
ghost use Rattle.tokens.specs.Stands.{Stands};

use plan::{Cut, Refusal, Token};

// The least number that is no given value.
pub const OVER: usize = 4294967296;

// The part of a line: where it stands, and how long it is.
#[derive(Clone, Copy)]
pub struct Part {
    pub at: usize,
    pub length: usize,
}

// A lower-case letter.
#[tactic(auto, using(std::proofs::lemmas::Bool::Decides::nat_tests), unfolding(plan::specs::Tokens::is_letter))]
pub fn is_letter(b: u8) -> bool
    ensures { result ≡ is_letter b }
{
    b.is_ascii_lowercase()
}

#[tactic(auto, using(std::proofs::lemmas::Bool::Decides::nat_tests), unfolding(plan::specs::Tokens::is_digit))]
fn is_digit(b: u8) -> bool
    ensures { result ≡ is_digit b }
{
    b.is_ascii_digit()
}

#[tactic(auto, using(std::proofs::lemmas::Bool::Decides::nat_tests), unfolding(plan::specs::Tokens::is_mark, plan::specs::Lists::has))]
fn is_mark(b: u8) -> bool
    ensures { result ≡ is_mark b }
{
    matches!(b, b'=' | b':' | b'(' | b')' | b' ')
}

// How many letters the bytes begin with.
pub fn letters_of(bytes: &[u8]) -> usize
    ensures { result ≡ prefix_len is_letter bytes.now }
{
    bytes.iter().take_while(|b| is_letter(**b)).count()
}

// How many digits the bytes begin with.
fn digits_of(bytes: &[u8]) -> usize
    ensures { result ≡ prefix_len is_digit bytes.now }
{
    bytes.iter().take_while(|b| is_digit(**b)).count()
}

// The number with one more digit; it stops growing where it is over the limit.
fn grown(value: usize, digit: u8) -> usize
    requires { (value ≤ 4294967296) × (48 ≤ digit) × (digit ≤ 57) }
    ensures { result ≡ min 4294967296 (value * 10 + (digit - 48)) }
{
    OVER.min(value * 10 + usize::from(digit - b'0'))
}

// The number that digits make.
fn value_of(digits: &[u8]) -> usize
    requires { every is_digit digits.now ≡ true }
    ensures { result ≡ value_of digits.now }
{
    let mut value = 0;
    for digit in digits {
        value = grown(value, *digit);
    }
    value
}

// A token of so many bytes at a place, of which a leading zero is told.
fn cut(token: Token, at: usize, bytes: usize, zero: bool) -> Cut
    requires { at + bytes < 2 ^ 64 }
    ensures { result ≡ cut token at bytes zero }
{
    Cut {
        token,
        at,
        next: at + bytes,
        zero,
    }
}

// The number at a place that holds a digit; its first digit is a leading zero, if it is 0 and not the only one.
fn number_at(line: &[u8], at: usize) -> Cut
    requires { (at < length line.now) × (is_digit (get_or line.now at 0) ≡ true) }
    ensures { result ≡ cut_at line.now at }
{
    let rest = &line[at..];
    let digits = digits_of(rest);
    let value = value_of(&rest[..digits]);
    let zero = line[at] == b'0' && 1 < digits;
    cut(Token::Number(value), at, digits, zero)
}

// A mark, or another byte.
fn one_byte(b: u8, at: usize) -> Cut
    requires { at + 1 < 2 ^ 64 }
    ensures { result ≡ elim (is_mark b) [ true ↦ cut (Mark b) at 1 false | false ↦ cut Other at 1 false ] }
{
    if is_mark(b) {
        cut(Token::Mark(b), at, 1, false)
    } else {
        cut(Token::Other, at, 1, false)
    }
}

// The token at a place of the line: the longest name or number, a mark, another byte, or the line's end. It is compiled into
// its callers, so that a token does not come back by memory.
#[inline(always)]
pub fn token_at(line: &[u8], at: usize) -> Cut
    ensures { result ≡ cut_at line.now at }
{
    if line.len() <= at {
        return cut(Token::End, at, 0, false);
    }
    let b = line[at];
    if is_letter(b) {
        let letters = letters_of(&line[at..]);
        cut(Token::Name { at, letters }, at, letters, false)
    } else if is_digit(b) {
        number_at(line, at)
    } else {
        one_byte(b, at)
    }
}

// The part of the line that is handed back with a refusal: the name that begins at the fault's place, for 20 to 25, which tell
// a place of the line; where none begins there, an empty part there; for all other numbers, and a place that the line does not
// have, an empty part at its beginning.
pub fn part_of(line: &[u8], number: u32, detail: usize) -> Part
    ensures { result ≡ record {
      at = part_place number detail line.now;
      length = part_length number detail line.now;
    } }
{
    let placed = u32::from(Refusal::NoToken)..=u32::from(Refusal::GivenAgain);
    if !placed.contains(&number) || line.len() < detail {
        return Part { at: 0, length: 0 };
    }
    Part {
        at: detail,
        length: letters_of(&line[detail..]),
    }
}

// The faulty name, as the part of the line where it stands.
pub fn faulty_name(line: &[u8], number: u32, detail: usize) -> &[u8]
    ensures { Stands line.entry (part_place number detail line.now)
        (part_length number detail line.now) result }
{
    let part = part_of(line, number, detail);
    &line[part.at..part.at + part.length]
}
