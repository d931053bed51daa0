//! Laws, each the promise of a function without a body.

ghost use Rattle.report_text.specs.LoadedAgain.{ShownPlansAreLoaded};

/// A plan that is shown can be loaded: any text of the value that is printed of it is loaded into another plan of the model as
/// the same directives, under new ids in their order and with their anchors, where the `require`s are met and the other plan
/// lasts as long and has room.
pub fn shown_plans_are_loaded()
    ensures { ShownPlansAreLoaded }
{}
