// How symbols are written in the tables.

#[macro_export]
macro_rules! tokens {
    (Word $word:ident) => {
        Tokens::Word(Word::$word)
    };
    (Mark $mark:ident) => {
        Tokens::Mark(Mark::$mark)
    };
    (NameOf $form:ident) => {
        Tokens::NameOf(Form::$form)
    };
    ($set:ident) => {
        Tokens::$set
    };
}

#[macro_export]
macro_rules! symbol {
    (take $($set:tt)*) => {
        Symbol::Take($crate::tokens!($($set)*))
    };
    (keep $($set:tt)*) => {
        Symbol::Keep($crate::tokens!($($set)*))
    };
    (part $rule:ident) => {
        Symbol::Part(Rule::$rule)
    };
    (build $kind:ident $count:literal) => {
        Symbol::Build(Kind::$kind, $count)
    };
    (say $word:ident) => {
        Symbol::Say(Word::$word)
    };
    (paste $between:literal) => {
        Symbol::Paste($between)
    };
    (closing $depth:literal) => {
        Symbol::Closing($depth)
    };
    (recall $depth:literal) => {
        Symbol::Recall($depth)
    };
    (join) => {
        Symbol::Join
    };
    (lower) => {
        Symbol::Lower
    };
    (notes) => {
        Symbol::Notes
    };
    (noted) => {
        Symbol::Noted
    };
    (end_notes) => {
        Symbol::EndNotes
    };
}

#[macro_export]
macro_rules! row {
    ([$side:ident] $($symbols:tt)*) => {
        (Side::$side, $crate::row!(@symbols $($symbols)*))
    };
    (@symbols $($symbol:ident $(($($argument:tt)*))?)*) => {
        &[$($crate::symbol!($symbol $($($argument)*)?)),*]
    };
    ($($symbols:tt)*) => {
        (Side::Both, $crate::row!(@symbols $($symbols)*))
    };
}

#[macro_export]
macro_rules! rules {
    ($($rule:ident $side:ident $need:ident $(or($($quiet:ident $(($($word:tt)*))?)*))? { $($([$tag:ident])? $($symbol:ident $(($($argument:tt)*))?)*)|* })*) => {
        [$((
            Rule::$rule,
            Side::$side,
            &[$(&[$($crate::symbol!($quiet $($($word)*)?)),*])?],
            &[$($crate::row!($([$tag])? $($symbol $(($($argument)*))?)*)),*],
            $need,
        )),*]
    };
}
