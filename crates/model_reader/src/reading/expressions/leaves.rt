//! Expressions without operators: literals and reads.

ghost use Rattle.std.specs.Prelude.{◌≡◌, IfOk};
ghost use Rattle.readers.specs.Implements.{Consumes, MayConsume};
ghost use Rattle.model_reader.specs.reading.Expressions.{leaf, amount_leaf_at, truth_leaf_at, member_at, named_at};

use crate::raw::{RawExpr, RawExprKind, RawLiteralKind, RawName, RawPart, RawRead};
use crate::reading::literals::amount;
use crate::reading::names::raw_name;
use crate::reading::types::part;
use crate::reading::with_height::WithHeight;
use aerie_base::{Name, Number, Place};
use aerie_text::Sort;
use readers::{Reader, Refusal};
use std::alloc::Global;

/// An expression without levels.
fn leaf(at: Place, what: RawExprKind) -> WithHeight
    ensures { result ≡ leaf at what }
{
    let expr = RawExpr { at, what };
    WithHeight { expr, height: 0 }
}

#[tactic(auto, unfolding(crate::specs::reading::Expressions::amount_leaf_at))]
pub fn amount_leaf(reader: &mut Reader) -> Result<WithHeight, Refusal>
    ensures read { Consumes amount_leaf_at reader.old reader.new result }
    ensures flat { IfOk result (λ whole. whole.height ≡ 0) }
{
    let (at, number) = amount(reader)?;
    let number = RawLiteralKind::Number(number);
    Ok(leaf(at, RawExprKind::Literal(number)))
}

#[tactic(auto, unfolding(crate::specs::reading::Expressions::truth_leaf_at))]
pub fn truth_leaf(reader: &mut Reader, truth: bool) -> Result<WithHeight, Refusal>
    ensures read { Consumes (truth_leaf_at truth) reader.old reader.new result }
    ensures flat { IfOk result (λ whole. whole.height ≡ 0) }
{
    let sort = if truth { Sort::True } else { Sort::False };
    let at = reader.take(sort)?;
    let truth = RawLiteralKind::Truth(truth);
    Ok(leaf(at, RawExprKind::Literal(truth)))
}

/// Reads what stands behind a name: a dot and the name of a variant, or a dot and a part, or nothing.
#[tactic(auto, unfolding(crate::specs::reading::Expressions::member_at, crate::specs::reading::Expressions::dotted_member_at, crate::specs::reading::Expressions::variant_at, crate::specs::reading::Expressions::part_read_at))]
fn member(alloc: Global, reader: &mut Reader, name: RawName) -> Result<RawExprKind, Refusal>
    ensures { MayConsume (member_at name) reader.old reader.new result }
{
    if !reader.next_is(Sort::Dot) {
        let part = RawPart::Whole;
        return Ok(RawExprKind::Read(RawRead { name, part }));
    }
    reader.take(Sort::Dot)?;
    if reader.next_is(Sort::Name) {
        let kind = name;
        let variant = raw_name(alloc, reader)?;
        Ok(RawExprKind::Literal(RawLiteralKind::Variant { kind, variant }))
    } else {
        let part = part(reader)?;
        Ok(RawExprKind::Read(RawRead { name, part }))
    }
}

#[tactic(auto, unfolding(crate::specs::reading::Expressions::named_at))]
pub fn named(alloc: Global, reader: &mut Reader) -> Result<WithHeight, Refusal>
    ensures read { Consumes named_at reader.old reader.new result }
    ensures flat { IfOk result (λ whole. whole.height ≡ 0) }
{
    let name = raw_name(alloc, reader)?;
    let at = name.at;
    let what = member(alloc, reader, name)?;
    Ok(leaf(at, what))
}
