//! A model, as its reports are worded.

ghost use Rattle.std.specs.Prelude.{◌≡◌, ◌++◌, ◌∷◌, [], IfOk, map, slice_get, unwrap_or};
ghost use Rattle.plan_edit.specs.Arguments.{written_variant};
ghost use Rattle.plan_edit.specs.ShownPlan.{word_of_variant};
ghost use Rattle.report_text.specs.Details.{name_of_resource};
ghost use Rattle.report_text.specs.Outcomes.{cell_name};
ghost use Rattle.report_text.specs.SpanLines.{type_name};
ghost use Rattle.report_text.specs.Wordings.{order_of_type, parameter_order, variant_words};

use crate::order::order_of;
use aerie_base::{Activity, EnumType, List, Model, Name, OutOfMemory, Text};
use std::alloc::Global;

/// A model with what its reports ask for often: the words of its variants, and the order of each activity type's parameters
/// by name. Contracts see the model.
#[derive(Drop)]
pub struct Wording<'a> {
    alloc: Global,
    model: &'a Model,
    words: List<List<Text>>,
    orders: List<List<usize>>,
}

impl<'a> std::marker::Model for Wording<'a> {
    ghost use Rattle.std.specs.Prelude.{◌≡◌, map};
    ghost use Rattle.std.specs.Coded.{codes};
    ghost use Rattle.aerie_base.specs.contracts.expressions.Expr as expr;
    ghost use Rattle.aerie_base.specs.contracts.conditions.Cond as cond;
    ghost use Rattle.aerie_base.specs.contracts.statements.Stmt as stmt;
    ghost use Rattle.aerie_base.specs.declared.models.model.Parts.{Parts};
    ghost use Rattle.report_text.specs.Wordings.{parameter_order, variant_words};

    ghost Value = { Parts };

    ghost coded = { Prim.hlevel (codes, expr.the_row.coded, cond.the_row.coded, stmt.the_row.coded) };

    ghost view = { λ wording. wording.model.now };

    ghost invariant = { λ wording. (wording.words ≡ map variant_words wording.model.now.enums) × (wording.orders ≡ map parameter_order wording.model.now.activities) };
}

impl<'a> Wording<'a> {
    /// The wording of a model. It takes a time in the order of the model's size.
    pub fn new(alloc: Global, model: &'a Model) -> Result<Wording<'a>, OutOfMemory>
        ensures { IfOk result (λ wording. wording ≡ model.now) }
    {
        let words = words_of(alloc, model.enums())?;
        let orders = orders_of(alloc, model.activities())?;
        Ok(Wording {
            alloc,
            model,
            words,
            orders,
        })
    }

    /// Where texts are made.
    pub(crate) fn alloc(&self) -> Global {
        self.alloc
    }

    /// The model.
    pub(crate) fn model(&self) -> &'a Model
        ensures { result.now ≡ self.now }
    {
        self.model
    }

    /// The word of a variant.
    pub(crate) fn word(&self, kind: u16, number: u16) -> &str
        ensures { result.now ≡ unwrap_or (word_of_variant self.now.enums kind number) [] }
    {
        match self.words.get(usize::from(kind)) {
            Some(words) => word_at(words.as_slice(), usize::from(number)),
            None => "",
        }
    }

    /// The order of the parameters of an activity type by name.
    pub(crate) fn order(&self, kind: u16) -> &[usize]
        ensures { result.now ≡ order_of_type self.now kind }
    {
        match self.orders.get(usize::from(kind)) {
            Some(order) => order.as_slice(),
            None => &[],
        }
    }

    /// The name of an activity type.
    pub(crate) fn type_name(&self, kind: u16) -> &str
        ensures { result.now ≡ type_name self.now kind }
    {
        match self.model.activities().get(usize::from(kind)) {
            Some(activity) => activity.name.as_str(),
            None => "",
        }
    }

    /// The name of a resource.
    pub(crate) fn name_of_resource(&self, number: u16) -> &str
        ensures { result.now ≡ name_of_resource self.now number }
    {
        match self.model.resources().get(usize::from(number)) {
            Some(named) => named.0.as_str(),
            None => "",
        }
    }

    /// The name of a cell.
    pub(crate) fn cell_name(&self, cell: u16) -> &str
        ensures { result.now ≡ cell_name self.now cell }
    {
        match self.model.cells().get(usize::from(cell)) {
            Some(named) => named.0.as_str(),
            None => "",
        }
    }
}

/// The word of a number.
fn word_at(words: &[Text], number: usize) -> &str
    ensures { result.now ≡ unwrap_or (slice_get words.now number) [] }
{
    match words.get(number) {
        Some(word) => word.as_str(),
        None => "",
    }
}

/// The words of each enumeration's variants.
fn words_of(alloc: Global, enums: &[EnumType]) -> Result<List<List<Text>>, OutOfMemory>
    ensures { IfOk result (λ words. words ≡ map variant_words enums.now) }
{
    let mut words = List::with_capacity(alloc, enums.len())?;
    for enum_type in enums {
        words.push(variant_words(alloc, enum_type)?)?;
    }
    Ok(words)
}

/// The words of an enumeration's variants.
fn variant_words(alloc: Global, enum_type: &EnumType) -> Result<List<Text>, OutOfMemory>
    ensures { IfOk result (λ words. words ≡ variant_words enum_type.now) }
{
    let mut words = List::with_capacity(alloc, enum_type.variants.len())?;
    for variant in enum_type.variants.as_slice() {
        words.push(written_variant(alloc, &enum_type.name, variant)?)?;
    }
    Ok(words)
}

/// A variant as it is written: the enumeration's name, a dot and the variant's name.
fn written_variant(alloc: Global, name: &Name, variant: &Name) -> Result<Text, OutOfMemory>
    ensures { IfOk result (λ word. word ≡ name.now ++ 46 ∷ variant.now) }
{
    let mut word = String::from_str(alloc, name.as_str())?;
    word.push_str(".")?;
    word.push_str(variant.as_str())?;
    Text::new(alloc, word.as_str())
}

/// The order of each activity type's parameters.
fn orders_of(alloc: Global, activities: &[Activity]) -> Result<List<List<usize>>, OutOfMemory>
    ensures { IfOk result (λ orders. orders ≡ map parameter_order activities.now) }
{
    let mut orders = List::with_capacity(alloc, activities.len())?;
    for activity in activities {
        orders.push(order_of(alloc, activity.parameters.as_slice())?)?;
    }
    Ok(orders)
}
