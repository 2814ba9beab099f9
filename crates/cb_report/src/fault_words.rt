//! The words for type rules that are broken, and for edits that are refused.
ghost use Rattle.std.specs.Prelude.{◌≡◌};
ghost use Rattle.cb_report.specs.FaultWords.{rule_word as word_of_rule, refusal_word as word_of_refusal};

use cb_network::EditRefusal;
use cb_rules::TypeRule;

/// The word of a type rule.
pub(crate) fn rule_word(rule: TypeRule) -> &'static [u8]
    ensures { result.now ≡ word_of_rule rule }
{
    match rule {
        TypeRule::TwoClasses => b"two-classes",
        TypeRule::NoParent => b"no-parent",
        TypeRule::Loop => b"loop",
        TypeRule::Depth => b"depth",
        TypeRule::TwoNames => b"two-names",
        TypeRule::NoTarget => b"no-target",
        TypeRule::BadInverse => b"bad-inverse",
        TypeRule::NoCause => b"no-cause",
        TypeRule::NoRelation => b"no-relation",
        TypeRule::NoEffect => b"no-effect",
        TypeRule::NoBlocked => b"no-blocked",
        TypeRule::NoHidden => b"no-hidden",
        TypeRule::TooManyClasses => b"too-many-classes",
        TypeRule::TooManyMembers => b"too-many-members",
        TypeRule::NoRepeat => b"no-repeat",
    }
}

/// The word of a refusal.
pub(crate) fn refusal_word(why: EditRefusal) -> &'static [u8]
    ensures { result.now ≡ word_of_refusal why }
{
    match why {
        EditRefusal::NoClass => b"no-class",
        EditRefusal::Exists => b"exists",
        EditRefusal::NoInstance => b"no-instance",
        EditRefusal::NoRelation => b"no-relation",
        EditRefusal::WrongKind => b"wrong-kind",
        EditRefusal::Linked => b"linked",
        EditRefusal::Occupied => b"occupied",
        EditRefusal::NotLinked => b"not-linked",
        EditRefusal::NoSymptom => b"no-symptom",
        EditRefusal::AlreadyMuted => b"already-muted",
        EditRefusal::NotMuted => b"not-muted",
        EditRefusal::InstanceLimit => b"instance-limit",
        EditRefusal::NodeLimit => b"node-limit",
        EditRefusal::ProblemLimit => b"problem-limit",
        EditRefusal::SymptomLimit => b"symptom-limit",
    }
}
