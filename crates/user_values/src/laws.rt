//! Laws of user-defined values. They compute nothing.
ghost use Rattle.user_values.specs.Laws.{TablesHaveValues, TablesHaveValuesByRule, ValuesAreWhereResolved, ValuesAreWhereResolvedByRule};

/// A block has user-defined values exactly where it resolves.
pub fn values_are_where_resolved()
    ensures { ValuesAreWhereResolved }
{}

/// The table of a block that resolves has the value of each name there: what the leftmost mention
/// gives it, and none if that is a cancel or there is no mention.
pub fn tables_have_values()
    ensures { TablesHaveValues }
{}

/// A block has user-defined values by each rule exactly where it resolves.
pub fn values_by_rule_are_where_resolved()
    ensures { ValuesAreWhereResolvedByRule }
{}

/// The table that a block that resolves has by a rule has the value of each name there: what the
/// first mention gives it, and none if that is a cancel or there is no mention.
pub fn tables_by_rule_have_values()
    ensures { TablesHaveValuesByRule }
{}
