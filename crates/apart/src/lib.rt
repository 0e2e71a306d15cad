// A request that is answered step by step: starting it from a sheet, choosing the next step with its calls, and taking the rows
// that are delivered for a step.
#![tactic(auto)]

mod standing;
mod taking;

ghost use Rattle.std.specs.Prelude.{◌≡◌, List, [], ℕ, ◌≤◌, ◌<◌, length};
ghost use Rattle.plan.specs.Lists.{padded};
ghost use Rattle.plan.specs.Refusals.{refused_with};
ghost use Rattle.plan.specs.Apart.{answered_in, next_pick, choose_pick, with_choice, told_start, started, choose_here, choose_next, no_state, zeroes_taking, take_next};
ghost use Rattle.count.specs.Listed.{rows_of};
ghost use Rattle.choose.specs.Held.{route_request};

use asking::put_calls;
use chain::{check_route, is_short};
use choose::choose;
use count::rows::ListRows;
use list::tables::clear_both;
use plan::{CALL_WORDS, Case, Refusal, Refused, SHEET_BYTES, State, TABLE_WORDS, Turn};
use sent::must_columns;
use sheet::vars_of;
use stand::fields_of;
use standing::Stand;
use taking::{is_chosen, is_taken, take_chosen};

// A refusal with its detail, and the state as it came.
pub(crate) fn refused_turn(refusal: Refusal, detail: usize, state: State) -> Turn
    ensures { result ≡ record { case = refused_with refusal detail; state = state } }
{
    Turn {
        case: Case::Refused(Refused { refusal, detail }),
        state,
    }
}

// The refusal of a step that yields over 512 rows: both tables are zeroed.
pub(crate) fn refused_over(step: usize, state: State, first: &mut [u32], second: &mut [u32]) -> Turn
    requires { (8192 ≤ length first.old) × (8192 ≤ length second.old) }
    ensures { record { turn = result; first = first.new; second = second.new }
        ≡ zeroes_taking step state first.old second.old }
{
    clear_both(first, second, TABLE_WORDS);
    refused_turn(Refusal::TooManyRows, step, state)
}

// The bytes of a sheet, and zeros behind them.
fn kept_bytes(sheet: &[u8]) -> [u8; SHEET_BYTES]
    requires { length sheet.now ≤ 193 }
    ensures { result ≡ padded 193 0 sheet.now }
{
    let mut kept = [0; SHEET_BYTES];
    kept[..sheet.len()].copy_from_slice(sheet);
    kept
}

// The state with nothing to choose: a start that is refused leaves it.
pub fn no_state() -> State
    ensures { result ≡ no_state }
{
    State {
        sheet: [0; SHEET_BYTES],
        bytes: 0,
        answered: 0,
        rows: 0,
        chosen: false,
        lookup: 0,
        rule: 0,
        over: 0,
    }
}

// Starting a request from its sheet: the state before the first step, which has one row; or the refusal of the route check.
pub fn start_request(sheet: &[u8]) -> Result<State, Refused>
    ensures { told_start result ≡ started sheet.now }
{
    check_route(sheet)?;
    Ok(State {
        sheet: kept_bytes(sheet),
        bytes: sheet.len() as u8,
        rows: 1,
        ..no_state()
    })
}

// The state where a step is chosen.
fn with_choice(state: State, lookup: usize, rule: usize) -> State
    requires { (lookup ≤ 255) × (rule ≤ 255) }
    ensures { result ≡ with_choice state (record { lookup = lookup; rule = rule }) }
{
    State {
        chosen: true,
        lookup: lookup as u8,
        rule: rule as u8,
        ..state
    }
}

// CHAIN's choice on the list, whose calls stand in the list of calls; or all steps are taken.
fn choose_on(stand: &Stand, list: ListRows, calls: &mut [u32]) -> Turn
    requires room { 3072 ≤ length calls.old }
    ensures { record { turn = result; first = []; second = []; calls = calls.new }
        ≡ choose_pick stand.now.state.now (route_request stand.now.fields.now) (rows_of list.entry)
        (next_pick (route_request stand.now.fields.now) (answered_in stand.now.state.now.answered stand.now.fields.now.lookups)
        (rows_of list.entry))
        [] [] calls.old }
{
    let state = *stand.state;
    let done = stand.done;
    let Some(best) = choose(stand.fields, done.known, done.answered, list) else {
        return Turn {
            case: Case::AllTaken,
            state,
        };
    };
    let entry = stand.fields.lookup[best.lookup];
    let marks = stand.marks(best.lookup, best.rule);
    let vars = vars_of(entry);
    let must = must_columns(&vars[..usize::from(entry.columns)], marks);
    put_calls(list, must.vars(), calls);
    Turn {
        case: Case::Calls {
            lookup: best.lookup,
            rule: best.rule,
            calls: best.cost,
        },
        state: with_choice(state, best.lookup, best.rule),
    }
}

// The next step where the state stands, where no taking was refused with 5: on the first list, which the sheet gives, or on that
// in the first table.
fn choose_here(stand: &Stand, first: &[u32], calls: &mut [u32]) -> Turn
    requires { (8192 ≤ length first.now) × (3072 ≤ length calls.old) }
    ensures { (second : List ℕ) → record { turn = result; first = first.now; second = second; calls = calls.new }
        ≡ choose_here stand.now.state.now first.now second calls.old }
{
    let rows = stand.rows(first);
    let list = ListRows {
        words: stand.words(first),
        rows,
    };
    choose_on(stand, list, calls)
}

// Choosing the next step of a request: its look-up, its rule and how many calls it needs, with the calls in the list of calls,
// ascending, and zeros up to word 3,072; or that all steps are taken; or a refusal, 1 or 5.
pub fn choose_next(state: State, first: &mut [u32], second: &mut [u32], calls: &mut [u32]) -> Turn
    ensures { record { turn = result; first = first.new; second = second.new; calls = calls.new }
        ≡ choose_next state first.old second.old calls.old }
{
    if is_short(first.len(), second.len()) || calls.len() < CALL_WORDS {
        return refused_turn(Refusal::ShortTable, 0, state);
    }
    let over = usize::from(state.over);
    if over != 0 {
        return refused_over(over, state, first, second);
    }
    let fields = fields_of(&state);
    let stand = Stand::of(&state, &fields);
    choose_here(&stand, first, calls)
}

// Taking the rows that are delivered for a step: the step with its calls, the rows after it and the rows sent, and the list in
// the first table; or that the step is taken already; or a refusal, of which 5 alone writes.
pub fn take_rows(
    state: State,
    step: usize,
    sent: &[u32],
    first: &mut [u32],
    second: &mut [u32],
) -> Turn
    ensures { record { turn = result; first = first.new; second = second.new }
        ≡ take_next state step sent.now first.old second.old }
{
    if is_short(first.len(), second.len()) {
        return refused_turn(Refusal::ShortTable, 0, state);
    }
    let over = usize::from(state.over);
    if over != 0 {
        return refused_over(over, state, first, second);
    }
    let fields = fields_of(&state);
    let stand = Stand::of(&state, &fields);
    if is_taken(stand.done.made, step) {
        return Turn {
            case: Case::Already,
            state,
        };
    }
    if !is_chosen(&stand, step) {
        return refused_turn(Refusal::NoSuchStep, 0, state);
    }
    take_chosen(&stand, step, sent, first, second)
}
