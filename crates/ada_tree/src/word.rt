// The words and marks of texts.
ghost use Rattle.std.specs.Prelude.{◌≡◌, bytes_eq};
ghost use Rattle.ada_tree.specs.Tables.{first_value};
ghost use Rattle.ada_tree.specs.Words.{word_text, mark_text, mark_of};

/// The reserved words of Ada 83 (section 2.9 of its manual), and after them the words of
/// annotations, which are ordinary identifiers in Ada text.
#[derive(Clone, Copy, Debug, PartialEq, Eq)]
pub enum Word {
    Abort,
    Abs,
    Accept,
    Access,
    All,
    And,
    Array,
    At,
    Begin,
    Body,
    Case,
    Constant,
    Declare,
    Delay,
    Delta,
    Digits,
    Do,
    Else,
    Elsif,
    End,
    Entry,
    Exception,
    Exit,
    For,
    Function,
    Generic,
    Goto,
    If,
    In,
    Is,
    Limited,
    Loop,
    Mod,
    New,
    Not,
    Null,
    Of,
    Or,
    Others,
    Out,
    Package,
    Pragma,
    Private,
    Procedure,
    Raise,
    Range,
    Record,
    Rem,
    Renames,
    Return,
    Reverse,
    Select,
    Separate,
    Subtype,
    Task,
    Terminate,
    Then,
    Type,
    Use,
    When,
    While,
    With,
    Xor,
    Where,
    Global,
    Implies,
    Iff,
    Exists,
    Trait,
    Introduces,
    Asserts,
    Includes,
    Generated,
    By,
    Based,
    On,
    View,
    Invariant,
    Assert,
    Variant,
    Proof,
    Orphan,
    Store,
    Update,
    Fill,
    Make,
}

/// The marks: tokens without letters and digits.
#[derive(Clone, Copy, Debug, PartialEq, Eq)]
pub enum Mark {
    Ampersand,
    Tick,
    Open,
    Close,
    Star,
    Plus,
    Comma,
    Minus,
    Dot,
    Slash,
    Colon,
    Semicolon,
    Less,
    Equal,
    Greater,
    Bar,
    OpenBracket,
    CloseBracket,
    AtSign,
    Arrow,
    Dots,
    Becomes,
    NotEqual,
    LessEqual,
    GreaterEqual,
    DoubleStar,
    LeftLabel,
    RightLabel,
    Box,
    To,
    DoubleEqual,
}

/// The words and how they are written, in the order of `Word`: the reserved words first.
pub const WORDS: [(Word, &str); 86] = [
    (Word::Abort, "abort"),
    (Word::Abs, "abs"),
    (Word::Accept, "accept"),
    (Word::Access, "access"),
    (Word::All, "all"),
    (Word::And, "and"),
    (Word::Array, "array"),
    (Word::At, "at"),
    (Word::Begin, "begin"),
    (Word::Body, "body"),
    (Word::Case, "case"),
    (Word::Constant, "constant"),
    (Word::Declare, "declare"),
    (Word::Delay, "delay"),
    (Word::Delta, "delta"),
    (Word::Digits, "digits"),
    (Word::Do, "do"),
    (Word::Else, "else"),
    (Word::Elsif, "elsif"),
    (Word::End, "end"),
    (Word::Entry, "entry"),
    (Word::Exception, "exception"),
    (Word::Exit, "exit"),
    (Word::For, "for"),
    (Word::Function, "function"),
    (Word::Generic, "generic"),
    (Word::Goto, "goto"),
    (Word::If, "if"),
    (Word::In, "in"),
    (Word::Is, "is"),
    (Word::Limited, "limited"),
    (Word::Loop, "loop"),
    (Word::Mod, "mod"),
    (Word::New, "new"),
    (Word::Not, "not"),
    (Word::Null, "null"),
    (Word::Of, "of"),
    (Word::Or, "or"),
    (Word::Others, "others"),
    (Word::Out, "out"),
    (Word::Package, "package"),
    (Word::Pragma, "pragma"),
    (Word::Private, "private"),
    (Word::Procedure, "procedure"),
    (Word::Raise, "raise"),
    (Word::Range, "range"),
    (Word::Record, "record"),
    (Word::Rem, "rem"),
    (Word::Renames, "renames"),
    (Word::Return, "return"),
    (Word::Reverse, "reverse"),
    (Word::Select, "select"),
    (Word::Separate, "separate"),
    (Word::Subtype, "subtype"),
    (Word::Task, "task"),
    (Word::Terminate, "terminate"),
    (Word::Then, "then"),
    (Word::Type, "type"),
    (Word::Use, "use"),
    (Word::When, "when"),
    (Word::While, "while"),
    (Word::With, "with"),
    (Word::Xor, "xor"),
    (Word::Where, "where"),
    (Word::Global, "global"),
    (Word::Implies, "implies"),
    (Word::Iff, "iff"),
    (Word::Exists, "exists"),
    (Word::Trait, "trait"),
    (Word::Introduces, "introduces"),
    (Word::Asserts, "asserts"),
    (Word::Includes, "includes"),
    (Word::Generated, "generated"),
    (Word::By, "by"),
    (Word::Based, "based"),
    (Word::On, "on"),
    (Word::View, "view"),
    (Word::Invariant, "invariant"),
    (Word::Assert, "assert"),
    (Word::Variant, "variant"),
    (Word::Proof, "proof"),
    (Word::Orphan, "orphan"),
    (Word::Store, "store"),
    (Word::Update, "update"),
    (Word::Fill, "fill"),
    (Word::Make, "make"),
];

/// How many words are reserved words of Ada 83.
pub const RESERVED: usize = 63;

/// The marks and how they are written, in the order of `Mark`.
pub const MARKS: [(Mark, &str); 31] = [
    (Mark::Ampersand, "&"),
    (Mark::Tick, "'"),
    (Mark::Open, "("),
    (Mark::Close, ")"),
    (Mark::Star, "*"),
    (Mark::Plus, "+"),
    (Mark::Comma, ","),
    (Mark::Minus, "-"),
    (Mark::Dot, "."),
    (Mark::Slash, "/"),
    (Mark::Colon, ":"),
    (Mark::Semicolon, ";"),
    (Mark::Less, "<"),
    (Mark::Equal, "="),
    (Mark::Greater, ">"),
    (Mark::Bar, "|"),
    (Mark::OpenBracket, "["),
    (Mark::CloseBracket, "]"),
    (Mark::AtSign, "@"),
    (Mark::Arrow, "=>"),
    (Mark::Dots, ".."),
    (Mark::Becomes, ":="),
    (Mark::NotEqual, "/="),
    (Mark::LessEqual, "<="),
    (Mark::GreaterEqual, ">="),
    (Mark::DoubleStar, "**"),
    (Mark::LeftLabel, "<<"),
    (Mark::RightLabel, ">>"),
    (Mark::Box, "<>"),
    (Mark::To, "->"),
    (Mark::DoubleEqual, "=="),
];

impl Word {
    /// How the word is written, in lower case.
    pub fn text(self) -> &'static str
        ensures { result.now ≡ word_text self }
    {
        WORDS[self as usize].1
    }
}

impl Mark {
    /// How the mark is written.
    pub fn text(self) -> &'static str
        ensures { result.now ≡ mark_text self }
    {
        MARKS[self as usize].1
    }

    /// The mark that is written so.
    pub fn of(text: &[u8]) -> Option<Mark>
        ensures { result ≡ mark_of text.now }
    {
        mark_in(&MARKS, text)
    }
}

// The mark that is written so in this table.
fn mark_in(rows: &[(Mark, &str)], text: &[u8]) -> Option<Mark>
    ensures { result ≡ first_value (λ row. row.0) (λ row. bytes_eq row.1.now text.now) rows.now }
{
    for (mark, written) in rows {
        if written.as_bytes() == text {
            return Some(*mark);
        }
    }
    None
}
