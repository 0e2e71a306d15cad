// Items put into a lent buffer, of bytes or of numbers. The definition of what is put stands in specs/, its laws in proofs/.
#![tactic(auto)]

ghost use Rattle.std.specs.Prelude.{◌+◌, ◌≤◌, length};
ghost use Rattle.lay.specs.Put.{Put};

// The items, from a place on. Gives the place behind them.
pub fn put<T: Copy>(out: &mut [T], at: usize, items: &[T]) -> usize
    requires { at + length items.now ≤ length out.old }
    ensures { Put out.old at items.now out.new result }
{
    let end = at + items.len();
    out[at..end].copy_from_slice(items);
    end
}
