//! The command lines of the everyday tools, as clap reads them: which tool is called, and what the
//! words after its name ask for.
//!
//! ```text
//! let tool = called_tool("/usr/bin/ti-infocmp");          // Some(Tool::Infocmp)
//! match request(alloc, Tool::Infocmp, words) {            // ti-infocmp -x -1 xterm
//!     Ok(Request::Infocmp(asked)) => ..
//!     Err(Refusal::Usage(message)) => ..
//! }
//! ```
//!
//! - `requests`: what may be asked for (`Request`)
//! - `arguments`: what the words ask for, or why they ask for nothing, and the message (`request`)
//! - `commands`: the command line of each tool, for clap (`command`), of which `everyday_arguments`
//!   has the parts; `tic_words`, `infocmp_words`, `tput_words`, `fmt_words`, `lint_words`,
//!   `clear_words`, `toe_words`, `tabs_words` and `tset_words` have the options of each tool, and what
//!   they ask for; `operands`: the words of tools whose options clap does not read
//! - `mistakes`: why words that clap takes ask for nothing
#![tactic(auto)]

mod arguments;
mod clear_words;
mod commands;
mod fmt_words;
mod infocmp_words;
mod lint_words;
mod mistakes;
mod operands;
mod requests;
mod tabs_words;
mod tic_words;
mod toe_words;
mod tput_words;
mod tset_words;

pub use arguments::{Refusal, request};
pub use commands::{VERSION, command};
pub use everyday_arguments::{Tool, called_tool, called_words};
pub use requests::{
    ClearRequest, FmtRequest, InfocmpRequest, LintColor, LintForm, LintRequest, Request,
    TabsRequest, TicRequest, ToeRequest, TputRequest, TsetRequest,
};
pub use ti_list::{Layout, Order};
pub use tools_commands::{InfocmpMode, Mistake};
