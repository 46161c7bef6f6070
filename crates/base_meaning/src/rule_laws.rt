//! Laws on the rules by which a block's values count. They compute nothing.
ghost use Rattle.base_meaning.specs.Rules.{OwnMentionsComeFirst, PlainSourcesCompileAlike, ReadingsAreByRule, ReadingsAreLeftmost, RulesAgreeOnPlainBlocks};

/// In each block of a source the leftmost mention of a capability decides, as the blocks are read.
pub fn readings_are_leftmost()
    ensures { ReadingsAreLeftmost }
{}

/// Reading a source by a rule changes nothing but the rule of its blocks.
pub fn readings_are_by_rule()
    ensures { ReadingsAreByRule }
{}

/// By [`Rule::OwnFirst`](ti_source::Rule::OwnFirst) the last of a block's own mentions of a
/// capability decides. If it has none, the first of its uses decides whose entry says something of
/// the capability; a cancel there leaves it absent.
pub fn own_mentions_come_first()
    ensures { OwnMentionsComeFirst }
{}

/// Both rules give a block the same values if in all blocks uses come last, nothing is said twice
/// and no used entry cancels anything.
pub fn rules_agree_on_plain_blocks()
    ensures { RulesAgreeOnPlainBlocks }
{}

/// A source of such blocks has the same entries by both rules.
pub fn plain_sources_compile_alike()
    ensures { PlainSourcesCompileAlike }
{}
