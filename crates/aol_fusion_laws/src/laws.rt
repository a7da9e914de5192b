ghost use Rattle.aol_fusion_laws.specs.Rules.{BlockKeepsRules, OnceKeepsRules, PairKeepsRules, WholeKeepsRules};

/// A law: the repetition over one block keeps the rules.
pub fn block_keeps_rules()
    ensures { BlockKeepsRules }
{}

/// A law: one run of the second repetition keeps the rules.
pub fn once_keeps_rules()
    ensures { OnceKeepsRules }
{}

/// A law: both side by side keep the rules.
pub fn pair_keeps_rules()
    ensures { PairKeepsRules }
{}

/// A law: the fused repetition keeps the rules.
pub fn whole_keeps_rules()
    ensures { WholeKeepsRules }
{}
