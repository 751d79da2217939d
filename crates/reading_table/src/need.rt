// What a rule finds among the values, what it leaves there, and how high that is at least.
ghost use Rattle.std.specs.Prelude.{◌≡◌};

/// How many nodes contain each other, at most, up to 255: expressions, terms and statements, and proof
/// steps.
#[derive(Clone, Copy, Debug, PartialEq, Eq)]
pub struct Height {
    pub nodes: u8,
    pub steps: u8,
}

/// What limits see of a value.
#[derive(Clone, Copy, Debug, PartialEq, Eq)]
pub enum Mass {
    Text,
    Comments,
    /// A node so high.
    Tree(Height),
}

/// A value that a rule finds or leaves.
#[derive(Clone, Copy, Debug, PartialEq, Eq)]
pub enum Sort {
    Text,
    Tree,
}

/// Of a rule: the values that it finds, the last one first; the one that it leaves in their place, if it
/// leaves one; how high that is at least; how many nodes it has round the values found, at least (for
/// both, of expressions, terms and statements, and of proof steps); how many parentheses are open in it
/// at once, more than before it, at least; and how many it closes that were open before it.
///
/// Each rule has a row, or is nothing, that is as low as this in all three, but for the definition of a
/// type, which is low with a parenthesis or higher without.
pub type Need = (&'static [Sort], Option<Sort>, (u8, u8), (u8, u8), u8, u8);

/// Leaves all as it was.
pub const NOTHING: Need = (&[], None, (0, 0), (0, 0), 0, 0);

/// Makes a text.
pub const TEXT: Need = (&[], Some(Sort::Text), (0, 0), (0, 0), 0, 0);

/// Goes on with a text.
pub const TEXT_ON: Need = (&[Sort::Text], Some(Sort::Text), (0, 0), (0, 0), 0, 0);

/// Makes a tree.
pub const FLAT: Need = (&[], Some(Sort::Tree), (0, 0), (0, 0), 0, 0);

/// Makes a tree with a node that counts.
pub const ONE: Need = (&[], Some(Sort::Tree), (1, 0), (0, 0), 0, 0);

/// Makes a tree with two nodes that count, one in the other.
pub const TWO: Need = (&[], Some(Sort::Tree), (2, 0), (0, 0), 0, 0);

/// Makes a proof step.
pub const STEP: Need = (&[], Some(Sort::Tree), (0, 1), (0, 0), 0, 0);

/// Makes a tree with parentheses.
pub const FLAT_OPENS: Need = (&[], Some(Sort::Tree), (0, 0), (0, 0), 1, 0);

pub const ONE_OPENS: Need = (&[], Some(Sort::Tree), (1, 0), (0, 0), 1, 0);

pub const TWO_OPENS: Need = (&[], Some(Sort::Tree), (2, 0), (0, 0), 1, 0);

/// Makes a tree behind a parenthesis, which it closes.
pub const ONE_CLOSES: Need = (&[], Some(Sort::Tree), (1, 0), (0, 0), 0, 1);

pub const TWO_CLOSES: Need = (&[], Some(Sort::Tree), (2, 0), (0, 0), 0, 1);

/// Makes a tree of a text.
pub const NAMED: Need = (&[Sort::Text], Some(Sort::Tree), (0, 0), (0, 0), 0, 0);

pub const NAMED_ONE: Need = (&[Sort::Text], Some(Sort::Tree), (1, 0), (0, 0), 0, 0);

pub const NAMED_ROUND: Need = (&[Sort::Text], Some(Sort::Tree), (2, 0), (1, 0), 0, 0);

pub const TWICE_NAMED: Need = (
    &[Sort::Text, Sort::Text],
    Some(Sort::Tree),
    (0, 0),
    (0, 0),
    0,
    0,
);

/// Goes on with a tree.
pub const ON: Need = (&[Sort::Tree], Some(Sort::Tree), (0, 0), (0, 0), 0, 0);

pub const ON_CLOSES: Need = (&[Sort::Tree], Some(Sort::Tree), (0, 0), (0, 0), 0, 1);

/// Goes on with a tree, beside one with a node that counts.
pub const BESIDE: Need = (&[Sort::Tree], Some(Sort::Tree), (1, 0), (0, 0), 0, 0);

/// Puts a node that counts round a tree, perhaps with another such tree in it.
pub const ROUND: Need = (&[Sort::Tree], Some(Sort::Tree), (1, 0), (1, 0), 0, 0);

pub const ROUND_TWO: Need = (&[Sort::Tree], Some(Sort::Tree), (2, 0), (1, 0), 0, 0);

pub const ROUND_TWO_OPENS: Need = (&[Sort::Tree], Some(Sort::Tree), (2, 0), (1, 0), 1, 0);

pub const ROUND_CLOSES: Need = (&[Sort::Tree], Some(Sort::Tree), (1, 0), (1, 0), 0, 1);

pub const ROUND_TWO_CLOSES: Need = (&[Sort::Tree], Some(Sort::Tree), (2, 0), (1, 0), 0, 1);

/// The same, where the operator is a text on the tree.
pub const OPERATOR: Need = (
    &[Sort::Text, Sort::Tree],
    Some(Sort::Tree),
    (2, 0),
    (1, 0),
    0,
    0,
);

/// The end of a proof step, behind its rule and its arguments.
pub const STEP_END: Need = (
    &[Sort::Tree, Sort::Text],
    Some(Sort::Tree),
    (0, 1),
    (0, 1),
    0,
    0,
);

/// The rest of a trait, behind its name and so many lists.
pub const BEHIND_THREE: Need = (
    &[Sort::Tree, Sort::Tree, Sort::Tree, Sort::Text],
    Some(Sort::Tree),
    (0, 0),
    (0, 0),
    0,
    0,
);

pub const BEHIND_FOUR: Need = (
    &[Sort::Tree, Sort::Tree, Sort::Tree, Sort::Tree, Sort::Text],
    Some(Sort::Tree),
    (1, 0),
    (0, 0),
    0,
    0,
);

pub const BEHIND_FOUR_NAMED: Need = (
    &[
        Sort::Text,
        Sort::Tree,
        Sort::Tree,
        Sort::Tree,
        Sort::Tree,
        Sort::Text,
    ],
    Some(Sort::Tree),
    (1, 0),
    (0, 0),
    0,
    0,
);

pub const BEHIND_FIVE: Need = (
    &[
        Sort::Tree,
        Sort::Tree,
        Sort::Tree,
        Sort::Tree,
        Sort::Tree,
        Sort::Text,
    ],
    Some(Sort::Tree),
    (0, 0),
    (0, 0),
    0,
    0,
);

pub const BEHIND_SIX: Need = (
    &[
        Sort::Tree,
        Sort::Tree,
        Sort::Tree,
        Sort::Tree,
        Sort::Tree,
        Sort::Tree,
        Sort::Text,
    ],
    Some(Sort::Tree),
    (1, 0),
    (0, 0),
    0,
    0,
);

pub const BEHIND_SEVEN: Need = (
    &[
        Sort::Tree,
        Sort::Tree,
        Sort::Tree,
        Sort::Tree,
        Sort::Tree,
        Sort::Tree,
        Sort::Tree,
        Sort::Text,
    ],
    Some(Sort::Tree),
    (0, 0),
    (0, 0),
    0,
    0,
);
