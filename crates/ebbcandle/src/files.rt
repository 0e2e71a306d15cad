// What is printed for what stands in the two files.
ghost use Rattle.std.specs.Prelude.{◌≡◌, List, [], ℕ, ◌≤◌, length, take};
ghost use Rattle.plan.specs.Sheet.{read_sheet};
ghost use Rattle.plan.specs.Answer.{told, whole_of, full};
ghost use Rattle.ebbcandle.specs.Files.{found_files, printed_files};

use crate::room;
use crate::text::Text;
use crate::words::put_words;
use chain::answer;
use plan::{Answered, MOST_WORDS, Refused, TABLE_WORDS};
use sheet::read_sheet;

// One word more than row data may have.
const NO_WORDS: usize = MOST_WORDS + 1;

// All that comes back for the two files. A left-over is one word too many, whatever stands before it: the library is
// then lent more words than row data may have.
fn answer_files(
    sheet: &[u8],
    bytes: &[u8],
    words: &mut [u32],
    first: &mut [u32],
    second: &mut [u32],
) -> Result<Answered, Refused>
    requires bytes_len_bound { (length bytes.now ≤ 65540) × (16385 ≡ length words.old) }
    requires in_bounds { (8192 ≤ length first.old) × (8192 ≤ length second.old) }
    ensures { record { answer = told result; first = first.new; second = second.new }
        ≡ whole_of full (found_files (read_sheet sheet.now) bytes.now)
        first.old second.old }
{
    let n = put_words(bytes, words);
    if bytes.len() % 4 != 0 {
        return answer(sheet, words, first, second);
    }
    answer(sheet, &words[..n], first, second)
}

// All that is printed for the two files, put into a text where nothing was put yet; and the same where these are the
// first 194 and 65,540 bytes of two files, for what stands behind changes nothing.
pub(crate) fn respond(sheet: &[u8], bytes: &[u8], text: &mut Text)
    requires { (length bytes.now ≤ 65540) × (text.old ≡ []) }
    ensures put { text.new ≡ printed_files sheet.now bytes.now }
    ensures by_index { (sheetFile dataFile : List ℕ)
        → sheet.now ≡ take 194 sheetFile → bytes.now ≡ take 65540 dataFile
        → text.new ≡ printed_files sheetFile dataFile }
{
    let mut words = room::<u32, NO_WORDS>();
    let mut first = room::<u32, TABLE_WORDS>();
    let mut second = room::<u32, TABLE_WORDS>();
    let answer = answer_files(sheet, bytes, &mut words, &mut first, &mut second);
    let variables = read_sheet(sheet).map_or(0, |read| read.value.variables);
    text.answer(answer, &first, variables);
}
