// Fields of the packed sheet, read where the reader stands: most significant bit first, with no gaps.
ghost use Rattle.std.specs.Prelude.{◌≡◌, Bool, ℕ, ◌+◌, ◌*◌, ◌≤◌, ◌<◌, length};
ghost use Rattle.plan.specs.Reader.{Fault, bit_at, bits_at, hold, field, tested};
ghost use Rattle.plan.specs.Refusals.{refusal_of};
ghost use Rattle.plan.specs.Sheet.{count_from, one_of, version};
ghost use Rattle.sheet.specs.Bounds.{farthest};
ghost use Rattle.sheet.specs.Reads.{Reads};

use plan::{Refusal, Refused};

// The sheet, and the place of the bit that is read next.
#[derive(Drop)]
pub(crate) struct Reader<'a> {
    pub(crate) sheet: &'a [u8],
    pub(crate) at: usize,
}

impl Reader<'_> {
    // Bit k of the sheet.
    pub(crate) fn bit(&self, k: usize) -> usize
        requires { k < 8 * length self.now.sheet.now }
        ensures { result ≡ bit_at self.now.sheet.now k }
    {
        (usize::from(self.sheet[k / 8]) >> (7 - k % 8)) & 1
    }

    // The number that the bits from a place on make.
    pub(crate) fn bits(&self, at: usize, width: usize) -> usize
        requires { (at + width ≤ 8 * length self.now.sheet.now) × (at + width ≤ farthest) × (width ≤ 32) }
        ensures { result ≡ bits_at self.now.sheet.now at width }
    {
        let mut value: usize = 0;
        for i in 0..width {
            value = (value << 1) | self.bit(at + i);
        }
        value
    }

    // Bits that are passed by, if the sheet has them: the place of the first.
    pub(crate) fn hold(&mut self, width: usize) -> Result<usize, Refused>
        requires { (self.old.at + width ≤ farthest) × (width ≤ 32) }
        ensures { Reads (λ n. n) (hold width (λ bytes at. at)) self.old result self.new }
    {
        let place = self.at;
        if (place + width + 7) / 8 > self.sheet.len() {
            return Err(Refused {
                refusal: Refusal::EndsEarly,
                detail: self.at,
            });
        }
        self.at += width;
        Ok(place)
    }

    // A field, if the sheet has its bits.
    pub(crate) fn field(&mut self, width: usize) -> Result<usize, Refused>
        requires { (self.old.at + width ≤ farthest) × (width ≤ 32) }
        ensures { Reads (λ n. n) (field width) self.old result self.new }
    {
        let place = self.hold(width)?;
        Ok(self.bits(place, width))
    }

    // A field whose number passes, else this refusal at the field's first bit.
    pub(crate) fn tested<F: Fn(usize) -> bool>(
        &mut self,
        width: usize,
        passes: F,
        refusal: Refusal,
    ) -> Result<usize, Refused>
        requires { (self.old.at + width ≤ farthest) × (width ≤ 32) × F.IsAlwaysCallable passes }
        ensures { (test : ℕ → Bool) (fault : Fault) → ((n : ℕ) (r : Bool) → F.post passes n r → r ≡ test n)
            → refusal ≡ refusal_of fault → Reads (λ n. n) (tested width test fault) self.old result self.new }
    {
        let place = self.at;
        let n = self.field(width)?;
        if !passes(n) {
            return Err(Refused {
                refusal,
                detail: place,
            });
        }
        Ok(n)
    }

    // A count from `low` to `high`.
    pub(crate) fn count(&mut self, width: usize, low: usize, high: usize) -> Result<usize, Refused>
        requires { (self.old.at + width ≤ farthest) × (width ≤ 32) }
        ensures { Reads (λ n. n) (count_from width low high) self.old result self.new }
    {
        self.tested(width, |n| low <= n && n <= high, Refusal::CountOut)
    }

    // 4 bits that name one of `count` things of the sheet.
    pub(crate) fn one_of(&mut self, count: usize) -> Result<usize, Refused>
        requires { self.old.at + 4 ≤ farthest }
        ensures { Reads (λ n. n) (one_of count) self.old result self.new }
    {
        self.tested(4, |n| n < count, Refusal::NotInSheet)
    }

    // The version, which must be 1.
    pub(crate) fn version(&mut self) -> Result<usize, Refused>
        requires { self.old.at + 3 ≤ farthest }
        ensures { Reads (λ n. n) version self.old result self.new }
    {
        self.tested(3, |n| n == 1, Refusal::WrongVersion)
    }
}
