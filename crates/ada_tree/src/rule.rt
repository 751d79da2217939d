// The rules of proof, by their names, and the arguments of each.
ghost use Rattle.std.specs.Prelude.{◌≡◌, bytes_eq};
ghost use Rattle.ada_tree.specs.Tables.{first_value};
ghost use Rattle.ada_tree.specs.Rules.{rule_text, rule_of, rule_arguments, arguments_of};

use crate::grammar::Argument;

/// The rules of proof. A proof step may also have a name that is none of these; then it has no
/// arguments.
#[derive(Clone, Copy, Debug, PartialEq, Eq)]
pub enum ProofRule {
    Open,
    Hyp,
    Absurd,
    Refl,
    AndGoal,
    AndHyp,
    OrGoal,
    OrHyp,
    ImpGoal,
    ImpHyp,
    NotGoal,
    NotHyp,
    IffGoal,
    IffHyp,
    Contra,
    AllGoal,
    AllHyp,
    SomeGoal,
    SomeHyp,
    Rewrite,
    Unfold,
    Range,
    Cut,
    Cases,
    Antisym,
    Induct,
    Descend,
    Linear,
    Simplify,
    Lemma,
    Drop,
    SelectSame,
    SelectOther,
    SelectFill,
    IfGoal,
}

macro_rules! rows {
    ($($rule:ident $text:literal [$($argument:ident)*];)*) => {
        [$((ProofRule::$rule, $text, &[$(Argument::$argument),*])),*]
    };
}

/// The rules of proof, in the order of `ProofRule`: the rule's name, in lower case, and the arguments
/// of a step by it, in order.
pub const PROOF_RULES: [(ProofRule, &str, &[Argument]); 35] = rows! {
    Open "open" [];
    Hyp "hyp" [Number];
    Absurd "absurd" [Number];
    Refl "refl" [];
    AndGoal "and_goal" [];
    AndHyp "and_hyp" [Number];
    OrGoal "or_goal" [Number];
    OrHyp "or_hyp" [Number];
    ImpGoal "imp_goal" [];
    ImpHyp "imp_hyp" [Number];
    NotGoal "not_goal" [];
    NotHyp "not_hyp" [Number];
    IffGoal "iff_goal" [];
    IffHyp "iff_hyp" [Number];
    Contra "contra" [];
    AllGoal "all_goal" [Name];
    AllHyp "all_hyp" [Number Term];
    SomeGoal "some_goal" [Term];
    SomeHyp "some_hyp" [Number Name];
    Rewrite "rewrite" [Number InNumber];
    Unfold "unfold" [Name InNumber];
    Range "range" [Term];
    Cut "cut" [Term];
    Cases "cases" [Term];
    Antisym "antisym" [];
    Induct "induct" [Name Names];
    Descend "descend" [Name];
    Linear "linear" [Coefficients];
    Simplify "simplify" [];
    Lemma "lemma" [LemmaName Terms];
    Drop "drop" [Number];
    SelectSame "select_same" [];
    SelectOther "select_other" [];
    SelectFill "select_fill" [];
    IfGoal "if_goal" [];
};

impl ProofRule {
    /// The rule's name, in lower case.
    pub fn text(self) -> &'static str
        ensures { result.now ≡ rule_text self }
    {
        PROOF_RULES[self as usize].1
    }

    /// The rule of this name.
    pub fn of(text: &[u8]) -> Option<ProofRule>
        ensures { result ≡ rule_of text.now }
    {
        rule_in(&PROOF_RULES, text)
    }

    /// The arguments of a step by this rule, in order.
    pub fn arguments(self) -> &'static [Argument]
        ensures { result.now ≡ rule_arguments self }
    {
        PROOF_RULES[self as usize].2
    }
}

// The rule of this name in this table.
fn rule_in(rows: &[(ProofRule, &str, &[Argument])], text: &[u8]) -> Option<ProofRule>
    ensures { result ≡ first_value (λ row. row.0) (λ row. bytes_eq row.1.now text.now) rows.now }
{
    for (rule, written, _) in rows {
        if written.as_bytes() == text {
            return Some(*rule);
        }
    }
    None
}

/// The arguments of a step by the rule of this name: none where there is no such rule.
pub fn arguments(rule: &[u8]) -> &'static [Argument]
    ensures { result.now ≡ arguments_of rule.now }
{
    match ProofRule::of(rule) {
        None => &[],
        Some(rule) => rule.arguments(),
    }
}
