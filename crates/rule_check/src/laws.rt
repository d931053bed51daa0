//! A law of rules that are read, the promise of a function without a body.

ghost use Rattle.rule_check.specs.ReadParts.{NamedTypesStand, ReadTypesAreOf, ReadWindowsAreOf, ReadLiteralsAreOf};

/// What is read of a valid model without a refusal is of the model: types, windows in which no name is bound, and literals.
/// Among the model's activity types the one of a name stands at its number.
pub fn read_parts_are_of_models()
    ensures named { NamedTypesStand }
    ensures types { ReadTypesAreOf }
    ensures windows { ReadWindowsAreOf }
    ensures literals { ReadLiteralsAreOf }
{}
