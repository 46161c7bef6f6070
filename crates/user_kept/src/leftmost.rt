//! How many user-defined names a source has that is read by the rule `Leftmost`.
ghost use Rattle.std.specs.Prelude.{◌≡◌, ◌≤◌, ℕ, IfOk, IsErrOf, OnOk, length};
ghost use Rattle.user_values.specs.Limit.{name_count, name_limit, IsOverLimitAt};

use std::alloc::Global;
use ti_base::Database;
use user_values::ValuesError;

/// How many distinct user-defined names the source has.
pub(crate) fn count_names(alloc: Global, database: &Database) -> Result<usize, ValuesError>
    ensures count { IfOk result (λ count. count ≡ name_count database.now (length database.now)) }
    ensures few { OnOk result (name_count database.now (length database.now) ≤ name_limit) }
    ensures too_many { (at : ℕ) → IsErrOf result (ValuesError.TooManyNames at) → IsOverLimitAt database.now at }
{
    user_values::count_names(alloc, database.as_ruled())
}
