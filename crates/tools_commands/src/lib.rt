//! The command lines of the tools: what the words of a command line ask for.
//!
//! - `arguments`: the job that the words ask for, or why they ask for none, and the message
//! - `jobs`: the jobs of the program; `mistakes`: what is wrong with words that ask for none
//! - `names`: those of the program and of its tools
//! - `commands`: each tool's options, their help and examples, for clap; `infocmp_words` has what
//!   follows `infocmp`
//!
//! Of which every command line is made:
//!
//! - `rules`: arguments (`Argument`), how each is given (`Form`), and which is not supported
//!   (`refused_option`)
//! - `matches`: what clap's matches say of an argument (`is_on`, `value`, `text`, `values`, `texts`)
//! - `listing`: the width, the order and the modes of a listing
#![tactic(auto)]

mod arguments;
mod commands;
mod infocmp_words;
mod jobs;
mod listing;
mod matches;
mod mistakes;
mod names;
mod rules;

pub use arguments::{Refusal, UsageError, job, job_or_refusal};
pub use commands::command;
pub use jobs::{InfocmpMode, Job};
pub use listing::{ModeChoice, WIDTH_MAX, WIDTH_MIN, choice_of, order_of, width_in, width_of};
pub use matches::{is_on, text, texts, value, values};
pub use mistakes::Mistake;
pub use names::PROGRAM;
pub use rules::{Argument, Form, refused_option, with_arguments};
pub use ti_list::{Layout, Order};
