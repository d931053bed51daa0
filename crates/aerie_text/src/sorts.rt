//! The sorts of tokens that grammars tell apart.

ghost use Rattle.std.specs.Prelude.{◌≡◌, map};
ghost use Rattle.aerie_text.specs.Sorts.{number_of, reserved_from, same_sort, sort_in, sort_of_kind, symbol_sort, word_sort};

use crate::token::TokenKind;

/// What a token is to a grammar: a reserved word, a name, a number, or a symbol.
#[derive(Clone, Copy, Debug)]
pub enum Sort {
    // the reserved words, each named as it is written
    Accumulator,
    Activity,
    Add,
    And,
    At,
    Call,
    Cardinality,
    Client,
    Coexistence,
    Conflicted,
    Constraints,
    Count,
    Counter,
    Daemon,
    Delay,
    Discrete,
    Drop,
    Duration,
    During,
    Else,
    End,
    Enum,
    Every,
    Expand,
    False,
    For,
    Forbid,
    Fork,
    From,
    Goals,
    If,
    In,
    Int,
    Keeping,
    Let,
    Linear,
    Load,
    Longer,
    Merge,
    Model,
    Move,
    New,
    Not,
    Of,
    Or,
    Plan,
    Rate,
    Recurrence,
    Register,
    Remove,
    Require,
    Return,
    Rollback,
    Schedule,
    Sequence,
    Set,
    Shift,
    Show,
    Simulate,
    Spawn,
    Start,
    To,
    True,
    Truth,
    Until,
    Volume,
    Wait,
    While,
    Window,
    /// A word that is not reserved.
    Name,
    /// Digits.
    Number,
    /// A length of time: digits and a unit, or several such parts. The word `duration` is of another sort.
    Time,
    /// A text between quotation marks.
    Quoted,
    /// A text between backquotes.
    Raw,
    /// `{`
    OpenBrace,
    /// `}`
    CloseBrace,
    /// `(`
    OpenParenthesis,
    /// `)`
    CloseParenthesis,
    /// `[`
    OpenBracket,
    /// `]`
    CloseBracket,
    /// `,`
    Comma,
    /// `;`
    Semicolon,
    /// `:`
    Colon,
    /// `.`
    Dot,
    /// `=`
    Assign,
    /// `+`
    Plus,
    /// `-`
    Minus,
    /// `*`
    Star,
    /// `/`
    Slash,
    /// `%`
    Percent,
    /// `!`
    Exclamation,
    /// `<`
    Less,
    /// `>`
    Greater,
    /// `:=`
    ColonAssign,
    /// `+=`
    PlusAssign,
    /// `==`
    DoubleEqual,
    /// `!=`
    NotEqual,
    /// `<=`
    LessEqual,
    /// `>=`
    GreaterEqual,
    /// `&&`
    DoubleAmpersand,
    /// `||`
    DoubleBar,
    /// `->`
    Arrow,
}

impl Sort {
    /// Whether the two are one sort.
    pub fn is(self, other: Sort) -> bool
        ensures { result ≡ same_sort self other }
    {
        self.number() == other.number()
    }

    /// Its number in the order of the sorts.
    fn number(self) -> u8
        ensures { result ≡ number_of self }
    {
        self as u8
    }
}

// The reserved words that begin with each letter, each with its sort.

const NO_WORDS: [(&str, Sort); 0] = [];

const A_WORDS: [(&str, Sort); 5] = [
    ("accumulator", Sort::Accumulator),
    ("activity", Sort::Activity),
    ("add", Sort::Add),
    ("and", Sort::And),
    ("at", Sort::At),
];

const C_WORDS: [(&str, Sort); 8] = [
    ("call", Sort::Call),
    ("cardinality", Sort::Cardinality),
    ("client", Sort::Client),
    ("coexistence", Sort::Coexistence),
    ("conflicted", Sort::Conflicted),
    ("constraints", Sort::Constraints),
    ("count", Sort::Count),
    ("counter", Sort::Counter),
];

const D_WORDS: [(&str, Sort); 6] = [
    ("daemon", Sort::Daemon),
    ("delay", Sort::Delay),
    ("discrete", Sort::Discrete),
    ("drop", Sort::Drop),
    ("duration", Sort::Duration),
    ("during", Sort::During),
];

const E_WORDS: [(&str, Sort); 5] = [
    ("else", Sort::Else),
    ("end", Sort::End),
    ("enum", Sort::Enum),
    ("every", Sort::Every),
    ("expand", Sort::Expand),
];

const F_WORDS: [(&str, Sort); 5] = [
    ("false", Sort::False),
    ("for", Sort::For),
    ("forbid", Sort::Forbid),
    ("fork", Sort::Fork),
    ("from", Sort::From),
];

const G_WORDS: [(&str, Sort); 1] = [("goals", Sort::Goals)];

const I_WORDS: [(&str, Sort); 3] = [("if", Sort::If), ("in", Sort::In), ("int", Sort::Int)];

const K_WORDS: [(&str, Sort); 1] = [("keeping", Sort::Keeping)];

const L_WORDS: [(&str, Sort); 4] = [
    ("let", Sort::Let),
    ("linear", Sort::Linear),
    ("load", Sort::Load),
    ("longer", Sort::Longer),
];

const M_WORDS: [(&str, Sort); 3] = [
    ("merge", Sort::Merge),
    ("model", Sort::Model),
    ("move", Sort::Move),
];

const N_WORDS: [(&str, Sort); 2] = [("new", Sort::New), ("not", Sort::Not)];

const O_WORDS: [(&str, Sort); 2] = [("of", Sort::Of), ("or", Sort::Or)];

const P_WORDS: [(&str, Sort); 1] = [("plan", Sort::Plan)];

const R_WORDS: [(&str, Sort); 7] = [
    ("rate", Sort::Rate),
    ("recurrence", Sort::Recurrence),
    ("register", Sort::Register),
    ("remove", Sort::Remove),
    ("require", Sort::Require),
    ("return", Sort::Return),
    ("rollback", Sort::Rollback),
];

const S_WORDS: [(&str, Sort); 8] = [
    ("schedule", Sort::Schedule),
    ("sequence", Sort::Sequence),
    ("set", Sort::Set),
    ("shift", Sort::Shift),
    ("show", Sort::Show),
    ("simulate", Sort::Simulate),
    ("spawn", Sort::Spawn),
    ("start", Sort::Start),
];

const T_WORDS: [(&str, Sort); 3] = [
    ("to", Sort::To),
    ("true", Sort::True),
    ("truth", Sort::Truth),
];

const U_WORDS: [(&str, Sort); 1] = [("until", Sort::Until)];

const V_WORDS: [(&str, Sort); 1] = [("volume", Sort::Volume)];

const W_WORDS: [(&str, Sort); 3] = [
    ("wait", Sort::Wait),
    ("while", Sort::While),
    ("window", Sort::Window),
];

/// The symbols, each with its sort. Those that stand most often come first, since a symbol is looked for in this order.
const SYMBOLS: [(&str, Sort); 28] = [
    (";", Sort::Semicolon),
    ("(", Sort::OpenParenthesis),
    (")", Sort::CloseParenthesis),
    ("=", Sort::Assign),
    (",", Sort::Comma),
    (".", Sort::Dot),
    ("{", Sort::OpenBrace),
    ("}", Sort::CloseBrace),
    ("[", Sort::OpenBracket),
    ("]", Sort::CloseBracket),
    (":", Sort::Colon),
    ("+", Sort::Plus),
    ("-", Sort::Minus),
    ("*", Sort::Star),
    ("/", Sort::Slash),
    ("%", Sort::Percent),
    ("!", Sort::Exclamation),
    ("<", Sort::Less),
    (">", Sort::Greater),
    (":=", Sort::ColonAssign),
    ("+=", Sort::PlusAssign),
    ("==", Sort::DoubleEqual),
    ("!=", Sort::NotEqual),
    ("<=", Sort::LessEqual),
    (">=", Sort::GreaterEqual),
    ("&&", Sort::DoubleAmpersand),
    ("||", Sort::DoubleBar),
    ("->", Sort::Arrow),
];

/// The sort of a token of this kind and this text.
pub fn sort_of_kind(kind: TokenKind, text: &str) -> Sort
    ensures { result ≡ sort_of_kind kind text.now }
{
    match kind {
        TokenKind::Word => word_sort(text),
        TokenKind::Number => Sort::Number,
        TokenKind::Duration => Sort::Time,
        TokenKind::Quoted => Sort::Quoted,
        TokenKind::Raw => Sort::Raw,
        TokenKind::Symbol => symbol_sort(text),
    }
}

/// The sort of a word: a word that is not reserved is a name. It is looked up among the reserved words that begin with its
/// first letter.
#[tactic(auto, using(crate::proofs::ReservedWords::word_by_letter), unfolding(crate::specs::Sorts::word_sort))]
fn word_sort(text: &str) -> Sort
    ensures { result ≡ word_sort text.now }
{
    match text.as_bytes().first() {
        Some(letter) => sort_in(reserved_from(*letter), Sort::Name, text),
        None => Sort::Name,
    }
}

/// The reserved words that begin with this letter, each with its sort.
#[tactic(none)]
fn reserved_from(letter: u8) -> &'static [(&'static str, Sort)]
    ensures { map (λ entry. (entry.0.now, entry.1)) result.now ≡ reserved_from letter }
{
    match letter {
        b'a' => &A_WORDS,
        b'c' => &C_WORDS,
        b'd' => &D_WORDS,
        b'e' => &E_WORDS,
        b'f' => &F_WORDS,
        b'g' => &G_WORDS,
        b'i' => &I_WORDS,
        b'k' => &K_WORDS,
        b'l' => &L_WORDS,
        b'm' => &M_WORDS,
        b'n' => &N_WORDS,
        b'o' => &O_WORDS,
        b'p' => &P_WORDS,
        b'r' => &R_WORDS,
        b's' => &S_WORDS,
        b't' => &T_WORDS,
        b'u' => &U_WORDS,
        b'v' => &V_WORDS,
        b'w' => &W_WORDS,
        _ => &NO_WORDS,
    }
}

/// The sort of a symbol.
#[tactic(auto, unfolding(crate::specs::Sorts::symbol_sort))]
fn symbol_sort(text: &str) -> Sort
    ensures { result ≡ symbol_sort text.now }
{
    sort_in(&SYMBOLS, Sort::Arrow, text)
}

/// The sort that a table gives a text, or else this one.
fn sort_in(table: &[(&str, Sort)], otherwise: Sort, text: &str) -> Sort
    ensures { result ≡ sort_in (map (λ entry. (entry.0.now, entry.1)) table.now) otherwise text.now }
{
    for (word, sort) in table {
        if *word == text {
            return *sort;
        }
    }
    otherwise
}
