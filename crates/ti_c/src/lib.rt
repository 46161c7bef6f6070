//! The toolkit for programs in C: what `include/ti.h` declares. Each export calls the library's own
//! function and states its contract again, in terms of what C gives and sees.
//!
//! - `capabilities`: a capability by its name, and its name
//! - `other_names`: a capability by its variable or by its code in termcap, and both of it
//! - `entry`: a compiled entry as C holds it; `entries`: reads one where its bytes are or as a
//!   copy, and its values
//! - `extension`: user-defined capabilities as C holds them; `user_defined`: reads them from an
//!   entry, and their names and values
//! - `changing`: an entry in memory with changes, written anew
//! - `parameters`: which parameters a string takes
//! - `expanding`: a string with parameters as the bytes for the terminal
//! - `padding`: such bytes with their delays as pad bytes, and the line to the terminal of an entry
//! - `delays`: such bytes up to a delay, and its time
//! - `places`: the directories in which entries are, those of the system, and the file of one
//! - `laws`: that a NUL follows each string of an entry
//! - `answers`: the statuses of calls
//!
//! Nothing checks that a caller in C upholds what a type or a `requires` states: `include/ti.h`
//! says it at each call.
#![tactic(auto)]

mod answers;
mod capabilities;
mod changing;
mod delays;
mod entries;
mod entry;
mod expanding;
mod extension;
pub mod laws;
mod other_names;
mod padding;
mod parameters;
mod places;
mod user_defined;

pub use answers::Outcome;
pub use capabilities::{Place, ti_capability, ti_name};
pub use changing::{EntryChange, ti_entry_bytes, ti_entry_write};
pub use delays::{Delay, ti_first_delay};
pub use entries::{
    ti_entry_new, ti_entry_read, ti_first_name, ti_flag, ti_long_name, ti_names, ti_number,
    ti_string,
};
pub use entry::Entry;
pub use expanding::{Parameter, Variables, ti_expand};
pub use extension::EntryExtension;
pub use other_names::{
    ti_capability_by_code, ti_capability_by_variable, ti_termcap_code, ti_variable_name,
};
pub use padding::{TerminalLine, ti_line_of, ti_pad};
pub use parameters::{FormatParameters, ti_parameters_of};
pub use places::{ti_path, ti_places, ti_system_directories};
pub use user_defined::{
    FoundValue, ti_extension_read, ti_user_defined, ti_user_defined_count, ti_user_defined_named,
};
