//! Operators and signs.

ghost use Rattle.readers.specs.Implements.{Consumes};
ghost use Rattle.model_reader.specs.reading.Expressions.{unary_sign_at, sign_before};

use crate::reading::expressions::precedence::{Precedence, Sign};
use crate::reading::names::{one_standing_for, standing_for};
use aerie_base::{Comparison, Operator, Place};
use aerie_text::Sort;
use readers::{Reader, Refusal, one_of};

#[tactic(auto, unfolding(crate::specs::reading::Expressions::unary_sign_at))]
pub fn unary_sign(reader: &mut Reader) -> Result<(Place, Sign), Refusal>
    ensures { Consumes unary_sign_at reader.old reader.new result }
{
    let signs = [
        (Sort::Minus, Sign::Minus),
        (Sort::Exclamation, Sign::Exclamation),
    ];
    one_of(reader, &signs)
}

/// Reads the operator before an operand that is this part; before a whole expression there is none.
#[tactic(auto, unfolding(crate::specs::reading::Expressions::compare_sign_at, crate::specs::reading::Expressions::sum_sign_at, crate::specs::reading::Expressions::product_sign_at))]
pub fn sign_before(reader: &mut Reader, part: Precedence) -> Result<Operator, Refusal>
    ensures { Consumes (sign_before part) reader.old reader.new result }
{
    match part {
        Precedence::Expr => Err(Refusal::Syntax),
        Precedence::Conjunction => standing_for(reader, Sort::DoubleBar, Operator::Or),
        Precedence::Comparison => standing_for(reader, Sort::DoubleAmpersand, Operator::And),
        Precedence::Sum => one_standing_for(
            reader,
            &[
                (Sort::DoubleEqual, Operator::Compare(Comparison::Equal)),
                (Sort::NotEqual, Operator::Compare(Comparison::Unequal)),
                (Sort::Less, Operator::Compare(Comparison::Less)),
                (Sort::LessEqual, Operator::Compare(Comparison::AtMost)),
                (Sort::Greater, Operator::Compare(Comparison::More)),
                (Sort::GreaterEqual, Operator::Compare(Comparison::AtLeast)),
            ],
        ),
        Precedence::Product => one_standing_for(
            reader,
            &[(Sort::Plus, Operator::Plus), (Sort::Minus, Operator::Minus)],
        ),
        Precedence::Unary => one_standing_for(
            reader,
            &[
                (Sort::Star, Operator::Times),
                (Sort::Slash, Operator::Divide),
                (Sort::Percent, Operator::Remainder),
            ],
        ),
    }
}
