// The program: reads `sheet.bin` and `data.bin` in the folder that it is run in, and prints the steps, the total calls
// and the rows, or the refusal.
#![tactic(auto)]

mod files;
mod text;
mod words;

ghost use Rattle.std.specs.Prelude.{◌≡◌, ◌-◌, ◌≤◌, length, take, IsTrue, ◌↔◌, IfSome, OnOk};
ghost use Rattle.std.specs.Io.KnownBytes.{Appends, Consumes};
ghost use Rattle.std.specs.Process.{exit_status};
ghost use Rattle.ebbcandle.specs.Moving.{IsPrefixLen, RoomFor, Moved, MovedSome, after_move, Came, Kept};
ghost use Rattle.ebbcandle.specs.Moving.{IsGone};

use files::respond;
use plan::{MOST_WORDS, SHEET_BYTES};
use std::fs::File;
use std::io;
use std::io::{ErrorKind, Read, Write};
use std::process::ExitCode;
use std::rt::Files;
use text::Text;

// Bytes read of sheet.bin: one more than the longest sheet has.
const SHEET_ROOM: usize = SHEET_BYTES + 1;

// Bytes read of data.bin: one word more than row data may have.
const DATA_ROOM: usize = 4 * (MOST_WORDS + 1);

// Room for so many numbers, all zero.
pub(crate) fn room<T: Copy + Default, const N: usize>() -> [T; N]
    ensures { N ≡ length result }
{
    [T::default(); N]
}

// How far reading or writing came: the bytes that were moved, and what the system answered last.
#[derive(Clone, Copy)]
struct Moving {
    done: usize,
    last: io::Result<usize>,
}

// Whether a call moved bytes, by its answer.
fn moved_some(moved: &io::Result<usize>) -> bool
    ensures { IsTrue result ↔ MovedSome moved.now }
{
    moved.unwrap_or(0) > 0
}

// How far it came with one call more, for the bytes behind those that were moved, by its answer.
fn after_move(moved: io::Result<usize>, bytes: &[u8], done: usize) -> Moving
    requires { (done ≤ length bytes.now) × Moved (length bytes.now - done) moved }
    ensures { result ≡ after_move done moved }
{
    let more = moved.unwrap_or(0);
    Moving {
        done: done + more,
        last: moved,
    }
}

// The start of an open file, as much of it as there is room for, up to its end or to a read that fails.
fn read_start<R: Read>(file: &mut R, out: &mut [u8]) -> Moving
    ensures came { Came (length out.old) result.done result.last }
    ensures prefix_len { IsPrefixLen result.done out.new }
    ensures bytes { Consumes (R.remaining file.old) (R.remaining file.new) (take result.done out.new) }
    ensures start { OnOk result.last (IfSome (R.remaining file.old)
        (λ xs. take result.done out.new ≡ take (length out.old) xs)) }
{
    let mut done: usize = 0;
    let mut last: io::Result<usize> = Ok(1);
    while moved_some(&last) && done < out.len() {
        let got = file.read(&mut out[done..]);
        let m = after_move(got, out, done);
        done = m.done;
        last = m.last;
    }
    Moving { done, last }
}

// The start of the file, as much of it as there is room for. A file that can't be read counts as empty, and is told by
// its name on standard error.
fn read_file<R: Files + Eprint>(rt: &R, path: &str, name: &str, out: &mut [u8]) -> Moving
    requires { RoomFor path.now name.now (length out.old) }
    ensures kept { Kept (length out.old) result.done result.last }
    ensures prefix_len { IsPrefixLen result.done out.new }
{
    let mut file = match File::open(rt, path) {
        Ok(file) => file,
        Err(e) => {
            tell(rt, name, &e);
            return Moving {
                done: 0,
                last: Err(e),
            };
        }
    };
    let r = read_start(&mut file, out);
    if let Err(e) = r.last {
        tell(rt, name, &e);
        return Moving { done: 0, ..r };
    }
    r
}

// The text to a writer, up to its end or to a write that takes nothing or fails.
fn write_text<W: Write>(writer: &mut W, text: &[u8]) -> Moving
    ensures came { Came (length text.now) result.done result.last }
    ensures bytes { Appends (W.contents writer.old) (W.contents writer.new) (take result.done text.now) }
{
    let mut done: usize = 0;
    let mut last: io::Result<usize> = Ok(1);
    while moved_some(&last) && done < text.len() {
        let put = writer.write(&text[done..]);
        let m = after_move(put, text, done);
        done = m.done;
        last = m.last;
    }
    Moving { done, last }
}

// Room for what the system says of a failure, and its number.
const REASON_ROOM: usize = 320;

// Tells on standard error what failed and why: its name, a colon and what the system says of the error, without the
// error's number. What standard error does not take is lost.
fn tell<R: Eprint>(rt: &R, name: &str, error: &io::Error) {
    let mut room = [0; REASON_ROOM];
    let mut rest = &mut room[..];
    let _ = write!(rest, "{error}");
    let left = rest.len();
    let len = room.len().saturating_sub(left);
    let said = std::str::from_utf8(&room[..len]).unwrap_or("");
    let reason = match said.rsplit_once(" (os error ") {
        Some((reason, _)) => reason,
        None => said,
    };
    let _ = eprintln!(rt; "{name}: {reason}");
}

// Whether nobody reads the output any more, by what the system answered last.
fn is_gone(last: &io::Result<usize>) -> bool
    ensures { IsTrue result ↔ IsGone last.now }
{
    match last {
        Ok(_) => false,
        Err(error) => error.kind() == ErrorKind::BrokenPipe,
    }
}

// Tells on standard error why the output is lost, by what the system answered last. That nobody reads it any more is no
// fault.
fn tell_lost<R: Eprint>(rt: &R, last: io::Result<usize>) {
    if is_gone(&last) {
        return;
    }
    let error = match last {
        Ok(_) => io::Error::from(ErrorKind::WriteZero),
        Err(error) => error,
    };
    tell(rt, "ebbcandle: standard output", &error);
}

// The exit status of a program that is ended by the signal for output that nobody reads any more, as a shell gives it.
const GONE_STATUS: u8 = 141;

// The exit status, by what the system answered last. Where nobody reads the output any more it is as if the signal for
// that had ended the program.
fn status_after(last: &io::Result<usize>) -> ExitCode
    ensures gone { IsGone last.now → exit_status result ≡ 141 }
    ensures other { ¬ IsGone last.now → exit_status result ≡ 0 }
{
    if is_gone(last) {
        ExitCode::from(GONE_STATUS)
    } else {
        ExitCode::SUCCESS
    }
}

// All that is printed for the two files, to standard output; where that is not taken whole, it is told. Bytes of a file
// for which there is no room change nothing of it.
fn main(rt: HostRuntime) -> ExitCode {
    let mut sheet = room::<u8, SHEET_ROOM>();
    let mut data = room::<u8, DATA_ROOM>();
    let mut text = Text::new();
    let s = read_file(&rt, "sheet.bin", "ebbcandle: sheet.bin", &mut sheet).done;
    let d = read_file(&rt, "data.bin", "ebbcandle: data.bin", &mut data).done;
    respond(&sheet[..s], &data[..d], &mut text);
    let last = write_text(&mut rt.stdout(), text.bytes()).last;
    if !moved_some(&last) {
        tell_lost(&rt, last);
    }
    status_after(&last)
}
