// A request that is answered step by step, for C and Rust. Between two calls its state stands in 202 bytes that the caller keeps:
// 193 of the sheet, how many of these count, the look-ups answered and the rows of the list with two bytes each, the highest first,
// whether a step is chosen, its look-up, its rule, and the step that was refused with 5.
ghost use Rattle.std.specs.Prelude.{◌≡◌, ◌∷◌, ◌≤◌, length};
ghost use Rattle.plan.specs.Apart.{case_number};
ghost use Rattle.lay.specs.Put.{laid};
ghost use Rattle.export.specs.Exported.{step_numbers};
ghost use Rattle.export.specs.Stepping.{state_numbers, state_in, case_numbers, started_into, chosen_into, taken_into};

use crate::numbers::{Numbers, put_refused};
use crate::{NO_ROOM, put_detail};
use apart::{choose_next, no_state, start_request, take_rows};
use lay::put;
use plan::{Case, SHEET_BYTES, State, Step};

// A state takes so many bytes: those of the longest sheet, and nine.
const STATE_BYTES: usize = SHEET_BYTES + 9;

// What choosing or taking comes to takes so many places: the number, the detail, the case and six values.
const TURN_PLACES: usize = 9;

// The state that the first 202 bytes hold.
fn state_from(bytes: &[u8]) -> State
    requires { 202 ≤ length bytes.now }
    ensures { result ≡ state_in bytes.now }
{
    let mut sheet = [0; SHEET_BYTES];
    sheet.copy_from_slice(&bytes[..SHEET_BYTES]);
    let rest = &bytes[SHEET_BYTES..];
    State {
        sheet,
        bytes: rest[0],
        answered: u16::from_be_bytes([rest[1], rest[2]]),
        rows: u16::from_be_bytes([rest[3], rest[4]]),
        chosen: rest[5] != 0,
        lookup: rest[6],
        rule: rest[7],
        over: rest[8],
    }
}

// The state, in the first 202 bytes: those of the sheet, and the nine behind them.
fn put_state(bytes: &mut [u8], state: &State)
    requires { 202 ≤ length bytes.old }
    ensures { bytes.new ≡ laid bytes.old 0 (state_numbers state.now) }
{
    let answered = state.answered.to_be_bytes();
    let rows = state.rows.to_be_bytes();
    let rest = [
        state.bytes,
        answered[0],
        answered[1],
        rows[0],
        rows[1],
        u8::from(state.chosen),
        state.lookup,
        state.rule,
        state.over,
    ];
    let next = put(bytes, 0, &state.sheet);
    put(bytes, next, &rest);
}

// What is no refusal: 0 twice and the case, and then the six numbers of a step, its values.
fn put_values(out: &mut [usize], case: usize, values: &Step)
    requires { 9 ≤ length out.old }
    ensures { out.new ≡ laid out.old 0 (0 ∷ 0 ∷ case ∷ step_numbers values.now) }
{
    let next = put(out, 0, &[0, 0, case]);
    values.put(out, next);
}

// The values of calls: the look-up, the rule and how many calls there are.
fn first_three(lookup: usize, rule: usize, calls: usize) -> Step
    ensures { result ≡ record { lookup = lookup; rule = rule; calls = calls; rows = 0; sent = 0; charge = 0 } }
{
    Step {
        lookup,
        rule,
        calls,
        rows: 0,
        sent: 0,
        charge: 0,
    }
}

// The numbers of a case. Gives its number, 0 but for a refusal.
fn put_case(out: &mut [usize], case: &Case) -> u32
    requires { 9 ≤ length out.old }
    ensures value { result ≡ case_number case.now }
    ensures out_after { out.new ≡ laid out.old 0 (case_numbers case.now) }
{
    let nothing = first_three(0, 0, 0);
    match case {
        Case::Refused(refused) => return put_refused(out, TURN_PLACES, *refused),
        Case::Calls {
            lookup,
            rule,
            calls,
        } => put_values(out, 1, &first_three(*lookup, *rule, *calls)),
        Case::AllTaken => put_values(out, 2, &nothing),
        Case::Taken(step) => put_values(out, 3, step),
        Case::Already => put_values(out, 4, &nothing),
    }
    0
}

// Starting a request from its sheet. Gives 0, and puts the state before the first step into the first 202 bytes of `state`; or
// gives the route check's number, and puts zeros there, a state with nothing to choose. Puts the detail behind `detail`. Gives
// 4294967295, and writes nothing at all, where `state` has under 202 bytes.
#[unsafe(no_mangle)]
pub extern "C" fn ebbcandle_start(sheet: &[u8], state: &mut [u8], detail: &mut usize) -> u32
    ensures { record { result = result; state = state.new; detail = detail.new }
        ≡ started_into sheet.now state.old detail.old }
{
    if state.len() < STATE_BYTES {
        return NO_ROOM;
    }
    let started = start_request(sheet);
    put_state(state, &started.unwrap_or(no_state()));
    put_detail(&started, detail)
}

// Choosing the next step in the state that the first 202 bytes of `state` hold, which are rewritten with the state afterwards.
// Gives the number, 0 but for a refusal, and puts into the first 9 places of `out` the number, the detail, the case (0 refused, 1
// calls, 2 all steps taken) and six values: of calls the look-up, the rule, how many calls there are and zeros, else zeros. The
// calls then stand in `calls`, ascending, with zeros up to word 3,072. Gives 4294967295, and writes nothing at all, where `state`
// has under 202 bytes or `out` under 9 places.
#[unsafe(no_mangle)]
pub extern "C" fn ebbcandle_choose(
    state: &mut [u8],
    first: &mut [u32],
    second: &mut [u32],
    calls: &mut [u32],
    out: &mut [usize],
) -> u32
    ensures { record {
      result = result;
      state = state.new;
      first = first.new;
      second = second.new;
      calls = calls.new;
      out = out.new;
    }
        ≡ chosen_into state.old first.old second.old calls.old out.old }
{
    if state.len() < STATE_BYTES {
        return NO_ROOM;
    }
    if out.len() < TURN_PLACES {
        return NO_ROOM;
    }
    let before = state_from(state);
    let chosen = choose_next(before, first, second, calls);
    put_state(state, &chosen.state);
    put_case(out, &chosen.case)
}

// Taking the rows that are delivered for a step in the state that the first 202 bytes of `state` hold, which are rewritten with the
// state afterwards. Gives the number, 0 but for a refusal, and puts into the first 9 places of `out` the number, the detail, the
// case (0 refused, 3 taken, 4 taken already) and six values: of a step taken the look-up, the rule, its calls, the rows after it,
// the rows sent and its charge, else zeros. The first table then holds the list. Gives 4294967295, and writes nothing at all, where
// `state` has under 202 bytes or `out` under 9 places.
#[unsafe(no_mangle)]
pub extern "C" fn ebbcandle_take(
    sent: &[u32],
    step: usize,
    state: &mut [u8],
    first: &mut [u32],
    second: &mut [u32],
    out: &mut [usize],
) -> u32
    ensures { record { result = result; state = state.new; first = first.new; second = second.new; out = out.new }
        ≡ taken_into sent.now step state.old first.old second.old out.old }
{
    if state.len() < STATE_BYTES {
        return NO_ROOM;
    }
    if out.len() < TURN_PLACES {
        return NO_ROOM;
    }
    let before = state_from(state);
    let taken = take_rows(before, step, sent, first, second);
    put_state(state, &taken.state);
    put_case(out, &taken.case)
}
