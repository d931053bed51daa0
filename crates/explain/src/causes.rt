//! Why a text is refused, each cause with its sentence.

ghost use Rattle.std.specs.Prelude.{◌≡◌, ◌++◌, OnOk, string_bytes};
ghost use Rattle.explain.specs.Causes.{because_line, cause_line, filled_sentence, part_of_template, template};

use crate::shown::{push_shown, shown_byte};
use crate::sorted::between;
use aerie_base::OutOfMemory;

/// Why a text is refused.
#[derive(Clone, Copy)]
pub enum Cause {
    /// The session has too many bytes.
    TooLarge,
    /// A byte is no part of UTF-8.
    NotText,
    /// The text begins with a byte order mark.
    ByteOrderMark,
    /// A number with letters that are no unit of time.
    BadUnit,
    /// A number that is too large.
    LongNumber,
    /// A word that is too long.
    LongWord,
    /// A text that does not end on its line.
    OpenQuote,
    /// A text in backquotes that does not end.
    OpenBackquote,
    /// A character that begins no token.
    NoToken,
    /// A number with a fraction.
    Fraction,
    /// A reserved word where a name is expected.
    ReservedName,
    /// A reserved word where a value is expected.
    ReservedValue,
    /// A number with commas in it.
    GroupedDigits,
    /// A duration with a space in it.
    SpacedUnit,
    /// A number where a duration is expected.
    NoUnit,
    /// An anchor without a time.
    AnchorTime,
    /// A start without quotation marks.
    StartText,
    /// A plan without its start or its duration.
    PlanBegins,
    /// An operator of rules in a model.
    WordOperator,
    /// An operator of a model in rules.
    SignOperator,
    /// A test directly behind an `else`.
    ElseIf,
    /// A `wait` without `until`.
    WaitUntil,
    /// An assignment in a test.
    CompareWanted,
    /// Another sign in a declaration.
    DeclaredByEqual,
    /// A register without a type.
    RegisterType,
    /// An accumulator without a rate.
    AccumulatorRate,
    /// A call without its word.
    CallWord,
    /// An activity without its arguments.
    MissingParentheses,
    /// A directive without a time.
    DirectiveAt,
    /// An argument without its name.
    NamedArgument,
    /// A parameter without a type.
    ParameterType,
    /// A word that begins no command.
    NoCommand,
    /// A word that begins no part of a model.
    NoPart,
    /// A word that begins no section.
    NoSection,
    /// A section that stands too late or too early.
    SectionOrder,
    /// Something else where a name is expected.
    NameWanted,
    /// Something else where a value is expected.
    ValueWanted,
    /// A block or a section that is not closed.
    OpenBrace,
    /// A brace that closes nothing.
    ClosesNothing,
    /// A token on the next line, where a semicolon may be missing.
    MissingSemicolon,
    /// The text ends too early.
    EndsTooEarly,
    /// A section of rules ends too early.
    MoreExpected,
    /// A token that no session goes on with.
    Unexpected,
    /// A text that is no time.
    NoStart,
    /// A client with the name of an earlier one.
    SameClient,
    /// A name behind a point that names no variant.
    UnknownVariant,
    /// A name of an argument that names no parameter.
    UnknownParameter,
    /// A name that names no activity type.
    UnknownType,
    /// A name that names no model.
    UnknownModel,
    /// A name that names no type of values.
    UnknownKind,
    /// A name that names no cell and no local.
    UnknownCell,
    /// A name that names no constraint.
    UnknownConstraint,
    /// A cell where a resource is wanted.
    CellForResource,
    /// A resource where a cell is wanted.
    ResourceForCell,
    /// Something other than a parameter in a `require`.
    RequireReads,
    /// A name that names nothing that may stand there.
    UnknownName,
    /// A name that is declared or given a second time.
    SecondTime,
    /// A name that something else has.
    NameTaken,
    /// A `return` of the wrong kind.
    WrongReturn,
    /// An activity with a result that does not end with a `return`.
    NoReturn,
    /// A counter that is changed as another cell.
    CounterChange,
    /// A register that is changed as another cell.
    RegisterChange,
    /// An accumulator that is changed as another cell.
    AccumulatorChange,
    /// A local that is changed as a cell.
    LocalChange,
    /// A parameter without a default that is not given.
    MissingArgument,
    /// A value of another type where a truth is wanted.
    TruthWanted,
    /// A value of another type where a whole number is wanted.
    NumberWanted,
    /// A truth where a value of another type is wanted.
    TruthGiven,
    /// A number where a value of another type is wanted.
    NumberGiven,
    /// An argument of another type.
    ArgumentType,
    /// A value or a name of another type or kind.
    OtherType,
    /// A part that is no sum.
    NotLinear,
    /// A rate out of its range.
    RateRange,
    /// An `every` of 0.
    EveryRange,
    /// A count out of its range.
    CountRange,
    /// The end of a range.
    RangeEnd,
    /// A `to` below its `from`.
    ToRange,
    /// A coefficient out of its range.
    CoefficientRange,
    /// A template that does not meet a `require`.
    RequireOfGoal,
    /// Which directive it is.
    DirectiveNumber,
    /// An argument that is wrong.
    BadArgument,
    /// Arguments that do not meet a `require`.
    RequireNotMet,
    /// A start outside the plan.
    OutsidePlan,
    /// A plan with too many directives.
    ManyDirectives,
    /// An anchor to no directive.
    NoAnchor,
    /// An anchor that leads back.
    AnchorCycle,
    /// Another cause why a directive is not added.
    OtherEdit,
    /// Which dataset it is.
    DatasetNumber,
    /// A text of another form.
    NotADataset,
    /// A dataset with too many segments.
    ManySegments,
    /// A segment that does not fit.
    BadSegment,
    /// Too many cells.
    ManyCells,
    /// Too many activity types.
    ManyTypes,
    /// Too many parameters.
    ManyParameters,
    /// Too many locals.
    ManyLocals,
    /// Too many statements.
    ManyStatements,
    /// Too many enumerations.
    ManyEnums,
    /// Too many variants.
    ManyVariants,
    /// Too many resources.
    ManyResources,
    /// Too many daemons.
    ManyDaemons,
    /// Too many requirements.
    ManyRequires,
    /// Too many levels.
    TooDeep,
    /// Too many terms.
    ManyTerms,
    /// Too many constraints.
    ManyConstraints,
    /// Too many goals.
    ManyGoals,
    /// Too many clients.
    ManyClients,
    /// Too many commands.
    ManyCommands,
    /// Too many models.
    ManyModels,
    /// Too many mappings.
    ManyMappings,
    /// Too many datasets.
    ManyDatasets,
    /// Too many rules.
    ManyRules,
    /// Too many steps.
    ManySteps,
    /// Too many words.
    ManyWords,
    /// Any other cause.
    Refused,
}

/// Why a text is refused, with what its sentence names.
#[derive(Clone, Copy)]
pub struct Because {
    /// The cause.
    pub cause: Cause,
    /// Where the word of the text begins that the sentence names, in bytes from 0.
    pub from: usize,
    /// The place behind the word.
    pub to: usize,
    /// The number that the sentence names.
    pub number: usize,
}

impl Cause {
    /// Its sentence, in which `$` stands for a word of the text and `#` for a number.
    #[tactic(auto, unfolding(crate::specs::Causes::template))]
    fn template(self) -> &'static str
        ensures { result.now ≡ template self }
    {
        match self {
            Cause::TooLarge => "the session has more than 16777216 bytes: split it",
            Cause::NotText => "this byte belongs to no character of UTF-8: save the file as UTF-8",
            Cause::ByteOrderMark => "the file begins with a byte order mark: save it without one",
            Cause::BadUnit =>
                "`$` is no duration: the units are d, h, min, s, ms and us, the greater first",
            Cause::LongNumber => "`$` is too large: a number is at most 1000000000000000000",
            Cause::LongWord => "this word is too long: a word has at most 64 characters",
            Cause::OpenQuote =>
                "the text that begins here has no `\"` at its end, on the same line",
            Cause::OpenBackquote => "the text that begins here has no backquote at its end",
            Cause::NoToken => "`$` begins no word, number or symbol of the language",
            Cause::Fraction => "`$` has a fraction, and numbers are whole: count in a smaller unit",
            Cause::ReservedName => "`$` is a reserved word; a name is expected here",
            Cause::ReservedValue => "`$` is a reserved word; a value or a name is expected here",
            Cause::GroupedDigits => "the digits of a number stand together, without commas",
            Cause::SpacedUnit => "`$` is two words: a duration has no space before its unit",
            Cause::NoUnit => "`$` has no unit: write `$s`, `$min` or `$h`",
            Cause::AnchorTime => "behind the id stands `+` and a duration, as `+ 0us`",
            Cause::StartText =>
                "a start stands in quotation marks, as `start \"2030-01-01T00:00:00Z\";`",
            Cause::PlanBegins => "a plan begins with `start \"..\";` and then `duration ..;`",
            Cause::WordOperator => "in a model `&&`, `||` and `!` are written, and not `$`",
            Cause::SignOperator => "in rules `and`, `or` and `not` are written, and not `$`",
            Cause::ElseIf => "behind `else` stands a block: write `else { if .. }`",
            Cause::WaitUntil =>
                "behind `wait` stands `until` and a condition; `delay` lets so much time pass",
            Cause::CompareWanted => "`=` gives a local its value: two values are compared by `==`",
            Cause::DeclaredByEqual => "a declaration is written with `=`, and not with `$`",
            Cause::RegisterType =>
                "a register has a type: write `register $: int = ..`, or another one",
            Cause::AccumulatorRate =>
                "an accumulator begins with a volume and a rate: write `rate 0` before the `;`",
            Cause::CallWord =>
                "an activity is begun by `call $(..)`, or by `spawn $(..)` beside this one",
            Cause::MissingParentheses =>
                "the arguments of `$` stand behind it in parentheses, also where there are none: write `$()`",
            Cause::DirectiveAt =>
                "a directive begins with `at` and its time, as `at 10min TYPE();`",
            Cause::NamedArgument => "an argument is given by its name, as `NAME = VALUE`",
            Cause::ParameterType => "a parameter has a type: write `$: int`, or another one",
            Cause::NoCommand =>
                "`$` begins no command: these are new, fork, drop, add, remove, move, set, load, show, simulate, schedule, merge and expand",
            Cause::NoPart =>
                "`$` begins no part of a model: these are enum, counter, register, accumulator, discrete, linear, activity and daemon",
            Cause::NoSection =>
                "`$` begins no section: these are model, from, plan, load, constraints, goals, sequence and client, in this order",
            Cause::SectionOrder =>
                "`$` does not stand here: the order is model, from, plan, load, constraints, goals, sequence, client",
            Cause::NameWanted => "a name is expected here, and not `$`",
            Cause::ValueWanted => "a value is expected here, and not `$`",
            Cause::OpenBrace => "a `}` is missing: the `{` of line # is not closed",
            Cause::ClosesNothing =>
                "this `}` closes nothing: there is one too many, or a `{` is missing before it",
            Cause::MissingSemicolon =>
                "`$` is not expected here: a `;` may be missing at the end of line #",
            Cause::EndsTooEarly => "the text ends here, and more is expected",
            Cause::MoreExpected => "more is expected here",
            Cause::Unexpected => "`$` is not expected here",
            Cause::NoStart =>
                "`$` is no time: it has the form YYYY-MM-DDThh:mm:ss or YYYY-DDDThh:mm:ss, and exists",
            Cause::SameClient =>
                "a client of line # is called `$` too: give each a name of its own",
            Cause::UnknownVariant => "`$` names no variant of this enumeration",
            Cause::UnknownParameter => "`$` names no parameter of this activity type",
            Cause::UnknownType => "`$` names no activity type",
            Cause::UnknownModel => "`$` names no model",
            Cause::UnknownKind =>
                "`$` names no type: these are int, duration, truth and the enumerations of the model",
            Cause::UnknownCell => "`$` names no cell and no local that is known here",
            Cause::UnknownConstraint => "`$` names no constraint",
            Cause::CellForResource =>
                "`$` is a cell, and a resource is wanted here: declare one, as `discrete $ = $;` or `linear $ = $.volume;`",
            Cause::ResourceForCell =>
                "`$` is a resource, and here cells, locals and parameters are read",
            Cause::RequireReads => "`$` is no parameter, and a `require` reads parameters alone",
            Cause::UnknownName => "`$` names nothing that may stand here",
            Cause::SecondTime => "`$` stands here a second time: the first is on line #",
            Cause::NameTaken => "`$` is the name of something else already",
            Cause::WrongReturn => "a `return` has a value exactly in activities with a result type",
            Cause::NoReturn =>
                "`$` has a result type, so its last statement has to be a `return` with a value",
            Cause::CounterChange => "`$` is a counter: it is changed by `$ += ..`",
            Cause::RegisterChange => "`$` is a register: it is set by `$ := ..`",
            Cause::AccumulatorChange =>
                "`$` is an accumulator: it is changed by `$.volume += ..` and `$.rate += ..`",
            Cause::LocalChange =>
                "`$` is no cell that is changed so: a local is given a value by `=`, a parameter never",
            Cause::MissingArgument => "the argument `$` is missing: its parameter has no default",
            Cause::TruthWanted => "a truth is wanted here, and `$` begins a value of another type",
            Cause::NumberWanted =>
                "a whole number is wanted here, and `$` begins a value of another type",
            Cause::TruthGiven => "`$` is a truth, and a value of another type is wanted here",
            Cause::NumberGiven => "`$` is a number, and a value of another type is wanted here",
            Cause::ArgumentType => "the value of `$` is not of the type of that parameter",
            Cause::OtherType => "`$` is not of the type or kind that is wanted here",
            Cause::NotLinear =>
                "`$` stands in no sum of reads, each with a number in front at most: compute it before, with `let`",
            Cause::RateRange => "a rate is from -1000000000000 to 1000000000000",
            Cause::EveryRange => "an `every` is at least 1us",
            Cause::CountRange => "a count is from 1 to 10000",
            Cause::RangeEnd => "a range ends behind its beginning, and at the plan's end at most",
            Cause::ToRange => "this `to` is below its `from`",
            Cause::CoefficientRange => "a coefficient is from -1000000 to 1000000",
            Cause::RequireOfGoal => "the arguments of `$` do not meet a `require` of its type",
            Cause::DirectiveNumber => "directive # of the plan cannot be added:",
            Cause::BadArgument =>
                "the argument `$` is given twice, is of another type, or names no parameter",
            Cause::RequireNotMet => "the arguments of `$` do not meet `require` # of its type",
            Cause::OutsidePlan =>
                "it begins outside the plan: choose an earlier start, or a longer `duration`",
            Cause::ManyDirectives => "a plan has at most 65536 directives",
            Cause::NoAnchor =>
                "the plan has no directive `$` to hang on: ids count the directives from 1",
            Cause::AnchorCycle =>
                "following its anchor leads back to it: give it a time of its own",
            Cause::OtherEdit => "it is no directive of this plan",
            Cause::DatasetNumber => "dataset # is no series:",
            Cause::NotADataset =>
                "its text is no object of a `kind` and a list of `segments` alone",
            Cause::ManySegments => "a dataset has at most 10000 segments",
            Cause::BadSegment =>
                "segment #: the first begins at 0, each later one behind the one before, with values of the kind",
            Cause::ManyCells => "a model has at most 256 cells",
            Cause::ManyTypes => "a model has at most 256 activity types",
            Cause::ManyParameters => "an activity type has at most 16 parameters",
            Cause::ManyLocals =>
                "a body has at most 64 locals, parameters included: split the activity",
            Cause::ManyStatements => "a body has at most 4096 statements: split the activity",
            Cause::ManyEnums => "a model has at most 64 enumerations",
            Cause::ManyVariants => "an enumeration has at most 256 variants",
            Cause::ManyResources => "a model has at most 256 resources",
            Cause::ManyDaemons => "a model has at most 64 daemons",
            Cause::ManyRequires => "an activity type has at most 64 `require`s",
            Cause::TooDeep =>
                "at most 64 blocks, operators and parentheses stand inside one another: split it, with `let`",
            Cause::ManyTerms => "a sum has at most 16 terms: compute a part before, with `let`",
            Cause::ManyConstraints => "a model has at most 256 constraints",
            Cause::ManyGoals => "a model has at most 64 goals",
            Cause::ManyClients => "a session has at most 16 clients",
            Cause::ManyCommands => "a client has at most 4096 commands",
            Cause::ManyModels => "a session has at most 4 models",
            Cause::ManyMappings => "a session has at most 16 mappings",
            Cause::ManyDatasets => "a session has at most 64 datasets",
            Cause::ManyRules => "the sequence sections have at most 256 rules",
            Cause::ManySteps => "a sequence rule has at most 64 steps",
            Cause::ManyWords => "a step has at most 16 words",
            Cause::Refused => "the session is refused here",
        }
    }
}

/// Appends what stands for a byte of a template.
fn push_part(text: &mut String, word: &[u8], number: usize, byte: u8) -> Result<(), OutOfMemory>
    ensures { OnOk result (string_bytes text.new ≡ string_bytes text.old ++ part_of_template word.now number byte) }
{
    match byte {
        b'$' => push_shown(text, word),
        b'#' => Ok(write!(text, "{number}")?),
        _ => Ok(text.push(char::from(shown_byte(byte)))?),
    }
}

/// Appends a sentence with its word and its number.
fn push_filled(
    text: &mut String,
    word: &[u8],
    number: usize,
    template: &str,
) -> Result<(), OutOfMemory>
    ensures { OnOk result (string_bytes text.new ≡ string_bytes text.old ++ filled_sentence word.now number template.now) }
{
    let bytes = template.as_bytes();
    for byte in bytes {
        push_part(text, word, number, *byte)?;
    }
    Ok(())
}

/// Appends the line that tells a cause.
pub(crate) fn push_cause(
    text: &mut String,
    word: &[u8],
    number: usize,
    cause: Cause,
) -> Result<(), OutOfMemory>
    ensures { OnOk result (string_bytes text.new ≡ string_bytes text.old ++ cause_line word.now number cause) }
{
    text.push_str("  ")?;
    push_filled(text, word, number, cause.template())?;
    text.push_str("\n")?;
    Ok(())
}

/// Appends the line that tells why a text is refused.
pub(crate) fn push_because(
    text: &mut String,
    bytes: &[u8],
    because: Because,
) -> Result<(), OutOfMemory>
    ensures { OnOk result (string_bytes text.new ≡ string_bytes text.old ++ because_line bytes.now because) }
{
    push_cause(
        text,
        between(bytes, because.from, because.to),
        because.number,
        because.cause,
    )
}
