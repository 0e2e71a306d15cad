// Names, each known by the place in a text where it begins, since it runs as far as it can.
ghost use Rattle.std.specs.Prelude.{◌≡◌, true, map, ◌≤◌, length, take};
ghost use Rattle.plan.specs.Lists.{eq_row, every};
ghost use Rattle.plan.specs.Tokens.{is_letter, place_of};
ghost use Rattle.typed.specs.Names.{name_from, NamesFound};

use crate::faults::MOST_LETTERS;
use plan::{MOST_REGISTERS, Token};
use tokens::{letters_of, token_at};

// Whether the bytes begin with a name that is no longer than they are. Byte by byte: names differ early.
fn begins_with(bytes: &[u8], name: &[u8]) -> bool
    requires { length name.now ≤ length bytes.now }
    ensures { result ≡ eq_row name.now (take (length name.now) bytes.now) }
{
    for (i, &b) in name.iter().enumerate() {
        if bytes[i] != b {
            return false;
        }
    }
    true
}

// Whether the name that begins at a place of the text is this one: the text begins with it there, and no letter follows.
fn is_name_at(text: &[u8], place: usize, name: &[u8]) -> bool
    requires { every is_letter name.now ≡ true }
    ensures { result ≡ eq_row name.now (name_from text.now place) }
{
    let rest = &text[place.min(text.len())..];
    let n = name.len();
    if rest.len() < n {
        return false;
    }
    begins_with(rest, name) && letters_of(&rest[n..]) == 0
}

// The number of a name among those that begin at places of the text, or how many there are.
pub(crate) fn place_of(text: &[u8], places: &[usize], name: &[u8]) -> usize
    requires { every is_letter name.now ≡ true }
    ensures { result ≡ place_of name.now (map (name_from text.now) places.now) }
{
    for (i, &place) in places.iter().enumerate() {
        if is_name_at(text, place, name) {
            return i;
        }
    }
    places.len()
}

// The places of the names of the second line, one for each register, if it is such a line.
pub(crate) fn read_names(second: &[u8], registers: usize) -> Option<[usize; MOST_REGISTERS]>
    requires { registers ≤ 12 }
    ensures { NamesFound second.now registers result }
{
    let mut places = [0; MOST_REGISTERS];
    let mut place = 0;
    for count in 0..registers {
        let cut = token_at(second, place);
        let Token::Name { at, letters } = cut.token else {
            return None;
        };
        if MOST_LETTERS < letters {
            return None;
        }
        if place_of(second, &places[..count], &second[at..at + letters]) < count {
            return None;
        }
        places[count] = at;
        place = cut.next;
        if place == second.len() {
            return (count + 1 == registers).then_some(places);
        }
        if second[place] != b' ' {
            return None;
        }
        place += 1;
    }
    None
}
