// Words and marks of Ada 83 that begin forms outside the profile.
use ada_tree::{Mark, Word};

/// abort accept access at delay delta digits do entry generic goto limited new pragma renames select
/// separate task terminate
pub const UNSUPPORTED_WORDS: [Word; 19] = [
    Word::Abort,
    Word::Accept,
    Word::Access,
    Word::At,
    Word::Delay,
    Word::Delta,
    Word::Digits,
    Word::Do,
    Word::Entry,
    Word::Generic,
    Word::Goto,
    Word::Limited,
    Word::New,
    Word::Pragma,
    Word::Renames,
    Word::Select,
    Word::Separate,
    Word::Task,
    Word::Terminate,
];

/// ** & << >> <>
pub const UNSUPPORTED_MARKS: [Mark; 5] = [
    Mark::DoubleStar,
    Mark::Ampersand,
    Mark::LeftLabel,
    Mark::RightLabel,
    Mark::Box,
];
