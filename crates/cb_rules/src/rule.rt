//! The type rules by name, and what is wrong with a tree.
ghost use Rattle.std.specs.Prelude.{◌≡◌};
ghost use Rattle.cb_rules.specs.Fault.{rule_number};

/// A rule that models keep. They are read in this order, each one only where those before it are kept.
#[derive(Clone, Copy, Debug, PartialEq, Eq)]
pub enum TypeRule {
    /// Two classes have one name.
    TwoClasses,
    /// A class extends a class that there isn't.
    NoParent,
    /// A class is its own ancestor.
    Loop,
    /// A class has more than 63 ancestors.
    Depth,
    /// Two events, relations or rules of a class and its ancestors have one name.
    TwoNames,
    /// A relation leads to a class that there isn't.
    NoTarget,
    /// A relation's inverse is no relation of the target that leads back.
    BadInverse,
    /// A rule's cause is no event of its class.
    NoCause,
    /// A rule's path has a relation that the class reached there doesn't have.
    NoRelation,
    /// A rule's effect is no event of the class that its path reaches.
    NoEffect,
    /// A block names no rule of its class.
    NoBlocked,
    /// A hide names no symptom of its class.
    NoHidden,
    /// There are more than 1,024 classes.
    TooManyClasses,
    /// A class has more than 256 events, more than 256 relations or more than 1,024 rules.
    TooManyMembers,
    /// A place with the plus has a relation whose target is neither the class that declares it nor a descendant of
    /// that class.
    NoRepeat,
}

impl TypeRule {
    /// All rules, in the order in which they are read.
    pub const ALL: [TypeRule; 15] = [
        TypeRule::TwoClasses,
        TypeRule::NoParent,
        TypeRule::Loop,
        TypeRule::Depth,
        TypeRule::TwoNames,
        TypeRule::NoTarget,
        TypeRule::BadInverse,
        TypeRule::NoCause,
        TypeRule::NoRelation,
        TypeRule::NoEffect,
        TypeRule::NoBlocked,
        TypeRule::NoHidden,
        TypeRule::TooManyClasses,
        TypeRule::TooManyMembers,
        TypeRule::NoRepeat,
    ];

    /// The position of the rule in that order, from 1.
    pub fn number(self) -> u8
        ensures { result ≡ rule_number self }
    {
        match self {
            TypeRule::TwoClasses => 1,
            TypeRule::NoParent => 2,
            TypeRule::Loop => 3,
            TypeRule::Depth => 4,
            TypeRule::TwoNames => 5,
            TypeRule::NoTarget => 6,
            TypeRule::BadInverse => 7,
            TypeRule::NoCause => 8,
            TypeRule::NoRelation => 9,
            TypeRule::NoEffect => 10,
            TypeRule::NoBlocked => 11,
            TypeRule::NoHidden => 12,
            TypeRule::TooManyClasses => 13,
            TypeRule::TooManyMembers => 14,
            TypeRule::NoRepeat => 15,
        }
    }
}

/// The first rule that a tree breaks, and the least line at which it does.
#[derive(Clone, Copy, Debug, PartialEq, Eq)]
pub struct BrokenRule {
    pub rule: TypeRule,
    pub line: u32,
}
