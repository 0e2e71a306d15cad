// The picks that were counted, by the sets of their must-give variables.
ghost use Rattle.std.specs.Prelude.{◌≡◌, ◌+◌, ◌≤◌, ◌<◌, take, set, replicate};
ghost use Rattle.choose.specs.Sets.{includes_one};

use plan::{MOST_LOOK_UPS, MOST_RULES};

// A pick is a look-up and one of its rules: there are so many at most.
const MOST_PICKS: usize = MOST_LOOK_UPS * MOST_RULES;

// The sets of the must-give variables of the picks that were counted, so many of them.
#[derive(Drop)]
pub(crate) struct Counted {
    pub(crate) sets: [u16; MOST_PICKS],
    pub(crate) count: usize,
    ghost few: { count ≤ 96 },
}

impl Counted {
    // None yet.
    pub(crate) fn new() -> Counted
        ensures { (result.sets ≡ replicate 96 0) × (result.count ≡ 0) }
    {
        Counted {
            sets: [0; MOST_PICKS],
            count: 0,
        }
    }

    // Whether one of the sets is part of the set: a pick with it takes no fewer calls than the pick with that one.
    pub(crate) fn includes_one(&self, set: u16) -> bool
        ensures { result ≡ includes_one set (take self.now.count self.now.sets) }
    {
        self.sets[..self.count].iter().any(|own| *own & set == *own)
    }

    // One more set.
    pub(crate) fn add(&mut self, one: u16)
        requires { self.old.count < 96 }
        ensures { (self.new.sets ≡ set self.old.sets self.old.count one) × (self.new.count ≡ self.old.count + 1) }
    {
        self.sets[self.count] = one;
        self.count += 1;
    }
}
