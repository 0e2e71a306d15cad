// The words that bytes make.
ghost use Rattle.std.specs.Prelude.{◌≡◌, ◌/◌, ◌≤◌, length};
ghost use Rattle.lay.specs.Put.{Put};
ghost use Rattle.ebbcandle.specs.Words.{words_of};

// The words of the bytes, four each, highest first; a left-over of fewer than four bytes makes no word. Gives how many there are.
pub(crate) fn put_words(bytes: &[u8], out: &mut [u32]) -> usize
    requires { length bytes.now / 4 ≤ length out.old }
    ensures put { Put out.old 0 (words_of bytes.now) out.new result }
    ensures value { result ≡ length bytes.now / 4 }
{
    let (fours, _) = bytes.as_chunks::<4>();
    for (i, four) in fours.iter().enumerate() {
        out[i] = u32::from_be_bytes(*four);
    }
    fours.len()
}
