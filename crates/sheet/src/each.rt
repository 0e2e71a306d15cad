// Several readings of one kind, one behind the other.
ghost use Rattle.std.specs.Prelude.{◌≡◌, ℕ, ◌+◌, ◌*◌, ◌≤◌, IfOk};
ghost use Rattle.plan.specs.Lists.{padded};
ghost use Rattle.plan.specs.Reader as Said;
ghost use Rattle.plan.specs.Reader.{each};
ghost use Rattle.sheet.specs.Bounds.{farthest};
ghost use Rattle.sheet.specs.Reads.{Reads};

use crate::bits::Reader;
use plan::Refused;

// As many readings as the count says, at the front of an array that is filled up.
pub(crate) fn read_each<T: Copy, const N: usize, F: Fn(&mut Reader) -> Result<T, Refused>>(
    reader: &mut Reader,
    count: usize,
    filler: T,
    read: F,
) -> Result<[T; N], Refused>
    requires room { (most : ℕ) × (reader.old.at + count * most ≤ farthest)
        × ((p : _) → p.now.at + most ≤ farthest → F.pre read p)
        × ((p : _) (x : _) (q : _) → F.post read p x q → IfOk x (λ _. q.now.at ≤ p.now.at + most)) }
    requires few { count ≤ N }
    ensures { (r : Said.Reader T) → ((p : _) (x : _) (q : _) → F.post read p x q → Reads (λ t. t) r p.now x q.now)
        → Reads (padded N filler) (each count r) reader.old result reader.new }
{
    let mut array = [filler; N];
    for i in 0..count {
        array[i] = read(reader)?;
    }
    Ok(array)
}
