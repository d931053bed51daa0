//! One directive of a plan is changed.

ghost use Rattle.std.specs.Prelude.{◌<◌, length};
ghost use Rattle.plan_edit.specs.Editing.{ChangesAt, moved_directive, with_arguments};

use aerie_base::{Directive, List, Value, When};

/// Gives a directive another start.
pub fn put_when(directives: &mut List<Directive>, at: usize, to: When)
    requires { at < length directives.old }
    ensures { ChangesAt at (moved_directive to) directives.old directives.new }
{
    let directive = &mut directives.items[at];
    directive.start = to.start;
    directive.anchor = to.anchor;
}

/// Gives a directive other arguments.
pub fn put_arguments(directives: &mut List<Directive>, at: usize, arguments: List<Value>)
    requires { at < length directives.old }
    ensures { ChangesAt at (with_arguments arguments) directives.old directives.new }
{
    let directive = &mut directives.items[at];
    directive.arguments = arguments;
}
