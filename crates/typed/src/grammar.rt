// The grammar: the stage behind each token that may come.
ghost use Rattle.std.specs.Prelude.{◌≡◌};
ghost use Rattle.plan.specs.Typed.{turn, one_mark, two_marks, follows};

use plan::{Stage, Token};

#[tactic(auto, using(crate::proofs::Others::no_name), unfolding(plan::specs::Typed::turn, plan::specs::Typed::a_name))]
fn behind_name(stage: Stage) -> Stage
    ensures { result ≡ (turn stage).name }
{
    match stage {
        Stage::Given => Stage::Equals,
        Stage::Asked => Stage::Opening,
        Stage::Column => Stage::ColumnGap,
        _ => Stage::Nowhere,
    }
}

#[tactic(auto, using(crate::proofs::Others::no_number), unfolding(plan::specs::Typed::turn))]
pub(crate) fn behind_number(stage: Stage) -> Stage
    ensures { result ≡ (turn stage).number }
{
    match stage {
        Stage::Value => Stage::GivenGap,
        _ => Stage::Nowhere,
    }
}

// The stage behind the one mark that may come.
#[tactic(auto, unfolding(plan::specs::Typed::one_mark))]
fn behind_only(b: u8, mark: u8, stage: Stage) -> Stage
    ensures { result ≡ one_mark mark stage b }
{
    if b == mark {
        return stage;
    }
    Stage::Nowhere
}

// The stage behind one of the two marks that may come.
#[tactic(auto, unfolding(plan::specs::Typed::two_marks))]
fn behind_either(b: u8, mark: u8, stage: Stage, other: u8, behind_other: Stage) -> Stage
    ensures { result ≡ two_marks mark stage other behind_other b }
{
    if b == mark {
        return stage;
    }
    behind_only(b, other, behind_other)
}

#[tactic(auto, using(crate::proofs::Others::no_mark_lem), unfolding(plan::specs::Typed::turn, plan::specs::Typed::a_name, plan::specs::Typed::a_mark))]
fn behind_mark(stage: Stage, b: u8) -> Stage
    ensures { result ≡ (turn stage).mark b }
{
    match stage {
        Stage::Given => behind_only(b, b':', Stage::ColonGap),
        Stage::Equals => behind_only(b, b'=', Stage::Value),
        Stage::GivenGap => behind_only(b, b' ', Stage::Given),
        Stage::ColonGap => behind_only(b, b' ', Stage::Asked),
        Stage::Opening => behind_only(b, b'(', Stage::Column),
        Stage::ColumnGap => behind_either(b, b' ', Stage::Column, b')', Stage::Closed),
        Stage::Closed => behind_only(b, b' ', Stage::Asked),
        _ => Stage::Nowhere,
    }
}

#[tactic(auto, using(crate::proofs::Others::no_end), unfolding(plan::specs::Typed::turn))]
fn behind_end(stage: Stage) -> Stage
    ensures { result ≡ (turn stage).finish }
{
    match stage {
        Stage::Closed => Stage::Closed,
        _ => Stage::Nowhere,
    }
}

// The stage behind a token; that behind one out of place is nowhere.
#[tactic(auto, unfolding(plan::specs::Typed::follows))]
pub(crate) fn behind(stage: Stage, token: Token) -> Stage
    ensures { result ≡ follows stage token }
{
    match token {
        Token::Name { .. } => behind_name(stage),
        Token::Number(_) => behind_number(stage),
        Token::Mark(b) => behind_mark(stage, b),
        Token::Other => Stage::Nowhere,
        Token::End => behind_end(stage),
    }
}
