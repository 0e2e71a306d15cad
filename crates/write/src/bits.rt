// Fields of the packed sheet, put behind those that are there: most significant bit first, with no gaps. A byte that is not
// full holds the number of its bits.
ghost use Rattle.std.specs.Prelude.{◌≡◌, true, [], ◌∷◌, ◌+◌, ◌%◌, ◌^◌, ◌≤◌, ◌<◌, IfOk};
ghost use Rattle.plan.specs.Reader.{Fault};
ghost use Rattle.plan.specs.Refusals.{refusal_of};
ghost use Rattle.plan.specs.Write.{marks_of, count_item, written};
ghost use Rattle.write.specs.Puts.{Open, Grows, Puts, tested_item};

use plan::{Refusal, Refused, SHEET_BYTES};

// The sheet so far, and the place behind its last bit.
#[derive(Drop)]
pub(crate) struct Writer {
    pub(crate) sheet: [u8; SHEET_BYTES],
    pub(crate) at: usize,
}

impl Writer {
    // Some bits more, for which the byte at the place has room.
    pub(crate) fn put_in_byte(&mut self, some: usize, bits: usize)
        requires { Open some self.old × (1 ≤ some) × (self.old.at % 8 + some ≤ 8) × (bits < 2 ^ some) }
        ensures { (self.new.at ≡ self.old.at + some) × Grows (marks_of some bits) self.old self.new }
    {
        let byte = self.at / 8;
        let held = usize::from(self.sheet[byte]);
        self.sheet[byte] = ((held << some) | bits) as u8;
        self.at += some;
    }

    // The lowest bits of a number, as many a turn as the byte at the place has room for.
    pub(crate) fn put_bits(&mut self, width: usize, value: usize)
        requires { Open width self.old × (width ≤ 32) }
        ensures { (self.new.at ≡ self.old.at + width) × Grows (marks_of width value) self.old self.new }
    {
        let mut left = width;
        while left > 0 {
            let some = left.min(8 - self.at % 8);
            left -= some;
            self.put_in_byte(some, (value >> left) & ((1 << some) - 1));
        }
    }

    // A number that passes its test, or the refusal of one that does not.
    pub(crate) fn put_if(
        &mut self,
        passes: bool,
        width: usize,
        value: usize,
        refusal: Refusal,
    ) -> Result<(), Refused>
        requires { Open width self.old × (width ≤ 32) }
        ensures puts { (fault : Fault) → refusal ≡ refusal_of fault
            → Puts (written (tested_item passes width value fault ∷ []) self.old.at) self.old result self.new }
        ensures passed { IfOk result (λ _. (passes ≡ true) × (self.new.at ≡ self.old.at + width)) }
    {
        if !passes {
            return Err(Refused {
                refusal,
                detail: self.at,
            });
        }
        self.put_bits(width, value);
        Ok(())
    }

    // A count from 1 to `most`.
    pub(crate) fn put_count(
        &mut self,
        width: usize,
        most: usize,
        count: usize,
    ) -> Result<(), Refused>
        requires { Open width self.old × (width ≤ 32) }
        ensures puts { Puts (written (count_item width 1 most count ∷ []) self.old.at) self.old result self.new }
        ensures counted { IfOk result (λ _. (self.new.at ≡ self.old.at + width) × (count ≤ most)) }
    {
        self.put_if((1..=most).contains(&count), width, count, Refusal::CountOut)
    }
}
