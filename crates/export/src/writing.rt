// The fields of a sheet, from places that hold them as they are put for a sheet that was read. A count or a name that is over
// 255 becomes 255, which is out of range for each of them, so the sheet is refused for it. Of a rule's number the lowest 8
// bits are taken and of the given set the lowest 16: there are no columns and no variables for more.
ghost use Rattle.std.specs.Prelude.{◌≡◌, true, map, ℕ, ◌+◌, ◌*◌, ◌≤◌, ◌<◌, length, take, drop, min};
ghost use Rattle.std.specs.Prelude.{slice_index, slice_index_or};
ghost use Rattle.sheet.specs.Fields.{register_beyond, look_up_beyond};
ghost use Rattle.export.specs.Writing.{byte_of, rule_of, words_fit, register_from, look_up_from, fields_in};

use plan::{MOST_COLUMNS, MOST_LOOK_UPS, MOST_REGISTERS, MOST_RULES, ROW_WORDS};
use sheet::{Fields, LookUp, Register};
use std::array::from_fn;

// The largest word.
const MOST_WORD: usize = u32::MAX as usize;

// Where the 16 words of the list's first row begin, then the registers, ten numbers each, then the look-ups, eight each.
const ROW_PLACE: usize = 6;

const REGISTERS_PLACE: usize = ROW_PLACE + ROW_WORDS;

const LOOK_UPS_PLACE: usize = REGISTERS_PLACE + 10 * MOST_REGISTERS;

// A number as a byte: 255 where it is over 255.
fn byte(x: usize) -> u8
    ensures { result ≡ byte_of x }
{
    x.min(255) as u8
}

// So many numbers from a place on.
fn part<const N: usize>(places: &[usize], at: usize) -> [usize; N]
    requires { at + N ≤ length places.now }
    ensures { result ≡ take N (drop at places.now) }
{
    let mut part = [0; N];
    part.copy_from_slice(&places[at..at + N]);
    part
}

// Whether each word of the first row has 32 bits.
#[tactic(auto, unfolding(crate::specs::Writing::words_fit))]
pub(crate) fn words_fit(places: &[usize]) -> bool
    requires { 238 ≤ length places.now }
    ensures { result ≡ words_fit places.now }
{
    places[ROW_PLACE..REGISTERS_PLACE]
        .iter()
        .all(|w| *w <= MOST_WORD)
}

// The words of the list's first row, each at most the largest.
fn row_in(places: &[usize]) -> [u32; ROW_WORDS]
    requires { 238 ≤ length places.now }
    ensures { (v : ℕ) → v < 16 → slice_index result v ≡ min (slice_index places.now (6 + v)) 4294967295 }
{
    from_fn(|v| places[ROW_PLACE + v].min(MOST_WORD) as u32)
}

// The lowest 8 bits of each rule's number.
fn rules_from(places: &[usize], at: usize) -> [u8; MOST_RULES]
    requires { at + 8 ≤ length places.now }
    ensures { result ≡ map rule_of (take 8 (drop at places.now)) }
{
    part::<MOST_RULES>(places, at).map(|x| (x % 256) as u8)
}

// The register whose ten numbers begin at a place.
fn register_from(places: &[usize], at: usize) -> Register
    requires { at + 10 ≤ length places.now }
    ensures { result ≡ register_from (drop at places.now) }
{
    let columns = byte(places[at]);
    let rules = byte(places[at + 1]);
    let rule = rules_from(places, at + 2);
    Register {
        columns,
        rules,
        rule,
    }
}

// The registers.
fn registers_in(places: &[usize]) -> [Register; MOST_REGISTERS]
    requires { 238 ≤ length places.now }
    ensures { (i : ℕ) → i < 12 → slice_index_or result i register_beyond ≡ register_from (drop (22 + 10 * i) places.now) }
{
    from_fn(|i| register_from(places, REGISTERS_PLACE + 10 * i))
}

// The variable of each column.
fn vars_from(places: &[usize], at: usize) -> [u8; MOST_COLUMNS]
    requires { at + 6 ≤ length places.now }
    ensures { result ≡ map byte_of (take 6 (drop at places.now)) }
{
    part::<MOST_COLUMNS>(places, at).map(byte)
}

// The look-up whose eight numbers begin at a place.
fn look_up_from(places: &[usize], at: usize) -> LookUp
    requires { at + 8 ≤ length places.now }
    ensures { result ≡ look_up_from (drop at places.now) }
{
    let register = byte(places[at]);
    let columns = byte(places[at + 1]);
    let vars = vars_from(places, at + 2);
    LookUp {
        register,
        columns,
        vars,
    }
}

// The look-ups.
fn look_ups_in(places: &[usize]) -> [LookUp; MOST_LOOK_UPS]
    requires { 238 ≤ length places.now }
    ensures { (i : ℕ) → i < 12 → slice_index_or result i look_up_beyond ≡ look_up_from (drop (142 + 8 * i) places.now) }
{
    from_fn(|i| look_up_from(places, LOOK_UPS_PLACE + 8 * i))
}

// The fields that the first 238 places hold. The first two, the number and the detail of a reading, are not looked at.
pub(crate) fn fields_in(places: &[usize]) -> Fields
    requires { (238 ≤ length places.now) × (words_fit places.now ≡ true) }
    ensures { result ≡ fields_in places.now }
{
    let register = registers_in(places);
    let start = row_in(places);
    let lookup = look_ups_in(places);
    Fields {
        registers: places[2],
        register,
        variables: places[3],
        given: (places[4] % 65536) as u16,
        start,
        lookups: places[5],
        lookup,
    }
}
