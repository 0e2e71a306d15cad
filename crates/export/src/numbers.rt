// Numbers put into a lent buffer, a place each. Each function gives the place behind what it put there.
ghost use Rattle.std.specs.Prelude.{◌≡◌, List, ℕ, [], ◌∷◌, ◌+◌, ◌-◌, ◌*◌, ◌≤◌, length};
ghost use Rattle.std.specs.List.{flat_map};
ghost use Rattle.plan.specs.Refusals.{number_of};
ghost use Rattle.lay.specs.Put.{laid, Put};
ghost use Rattle.export.specs.Exported.{step_numbers, refused_numbers};
ghost use Rattle.export.specs.Reading.{register_numbers, look_up_numbers};

use lay::put;
use plan::{Refused, Step};
use sheet::{LookUp, Register};

// What is put as numbers, as many for each value of the type.
pub(crate) trait Numbers {
    // The numbers, and how many places they take.
    ghost numbers: { Self → List ℕ };

    ghost width: { ℕ };

    fn put(&self, out: &mut [usize], at: usize) -> usize
        requires { at + width ≤ length out.old }
        ensures put { Put out.old at (numbers self.now) out.new result }
        ensures value { result ≡ at + width };
}

// The number and the detail of a refusal, and zeros, in so many places from the first on. Gives the number.
pub(crate) fn put_refused(out: &mut [usize], places: usize, refused: Refused) -> u32
    requires { (2 ≤ places) × (places ≤ length out.old) }
    ensures value { result ≡ number_of refused.refusal }
    ensures out_after { out.new ≡ laid out.old 0 (refused_numbers refused (places - 2)) }
{
    let number = u32::from(refused.refusal);
    let next = put(out, 0, &[number as usize, refused.detail]);
    out[next..places].fill(0);
    number
}

// The numbers of each entry, one behind the other.
pub(crate) fn put_all<T: Numbers>(out: &mut [usize], at: usize, entries: &[T]) -> usize
    requires { at + length entries.now * T.width ≤ length out.old }
    ensures put { Put out.old at (flat_map T.numbers entries.now) out.new result }
    ensures value { result ≡ at + length entries.now * T.width }
{
    let mut next = at;
    for entry in entries {
        next = entry.put(out, next);
    }
    next
}

// A byte.
impl Numbers for u8 {
    ghost numbers = { λ x. x ∷ [] };

    ghost width = { 1 };

    fn put(&self, out: &mut [usize], at: usize) -> usize {
        out[at] = usize::from(*self);
        at + 1
    }
}

// A word.
impl Numbers for u32 {
    ghost numbers = { λ x. x ∷ [] };

    ghost width = { 1 };

    fn put(&self, out: &mut [usize], at: usize) -> usize {
        let word = *self;
        out[at] = word as usize;
        at + 1
    }
}

// The ten numbers of a register.
impl Numbers for Register {
    ghost numbers = { register_numbers };

    ghost width = { 10 };

    fn put(&self, out: &mut [usize], at: usize) -> usize {
        let next = put_all(out, at, &[self.columns, self.rules]);
        put_all(out, next, &self.rule)
    }
}

// The eight numbers of a look-up.
impl Numbers for LookUp {
    ghost numbers = { look_up_numbers };

    ghost width = { 8 };

    fn put(&self, out: &mut [usize], at: usize) -> usize {
        let next = put_all(out, at, &[self.register, self.columns]);
        put_all(out, next, &self.vars)
    }
}

// The six numbers of a step.
impl Numbers for Step {
    ghost numbers = { step_numbers };

    ghost width = { 6 };

    fn put(&self, out: &mut [usize], at: usize) -> usize {
        let numbers = [
            self.lookup,
            self.rule,
            self.calls,
            self.rows,
            self.sent,
            self.charge,
        ];
        put(out, at, &numbers)
    }
}
