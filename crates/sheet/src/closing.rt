// What is asked behind the look-ups: each variable is used, and the zero bits up to a full byte (§2.10).
ghost use Rattle.std.specs.Prelude.{◌≡◌, [], ◌+◌, ◌*◌, ◌≤◌, length};
ghost use Rattle.plan.specs.Lists.{vars_in};
ghost use Rattle.plan.specs.Sheet.{all_used, ending};
ghost use Rattle.sheet.specs.Stages.{closing};
ghost use Rattle.sheet.specs.Bounds.{farthest, most_ending};
ghost use Rattle.sheet.specs.Answers.{passed};
ghost use Rattle.sheet.specs.Reads.{Reads};

use crate::bits::Reader;
use plan::{Refusal, Refused};

// Each variable is in the set of those used; the place is handed on.
pub fn all_used(used: u16, variables: usize, at: usize) -> Result<usize, Refused>
    requires { variables ≤ 16 }
    ensures { result ≡ passed (all_used (vars_in used) variables [] at) }
{
    for v in 0..variables {
        if (used >> v) & 1 == 0 {
            return Err(Refused {
                refusal: Refusal::UnusedVariable,
                detail: v,
            });
        }
    }
    Ok(at)
}

// Zero bits up to a full byte, and no byte after it.
fn check_ending(reader: &mut Reader) -> Result<(), Refused>
    requires { (reader.old.at ≤ 8 * length reader.old.sheet.now) × (reader.old.at + most_ending ≤ farthest) }
    ensures { Reads (λ x. x) ending reader.old result reader.new }
{
    let at = reader.at;
    let width = (8 - at % 8) % 8;
    if reader.bits(at, width) != 0 {
        return Err(Refused {
            refusal: Refusal::BadPadding,
            detail: at,
        });
    }
    if (at + width) / 8 != reader.sheet.len() {
        return Err(Refused {
            refusal: Refusal::BadPadding,
            detail: at + width,
        });
    }
    reader.at += width;
    Ok(())
}

// Each variable is used, and the sheet ends.
pub(crate) fn check_closing(reader: &mut Reader, used: u16, variables: usize) -> Result<(), Refused>
    requires { (reader.old.at ≤ 8 * length reader.old.sheet.now) × (reader.old.at + most_ending ≤ farthest)
        × (variables ≤ 16) }
    ensures { Reads (λ x. x) (closing (vars_in used) variables) reader.old result reader.new }
{
    all_used(used, variables, reader.at)?;
    check_ending(reader)
}
