//! The result of `init` and `reset`.
ghost use Rattle.std.specs.Prelude.{◌≡◌, ℤ, IfOk, List};
ghost use Rattle.tools_tput.specs.Replies.{reply_of};
ghost use Rattle.everyday_tput.specs.Answers.{AnswersStart, file_of, start_file, target_of};
ghost use Rattle.everyday_tput.specs.inside.Strings.{IsLineOf};

use crate::sizes::start_last;
use crate::strings::{BAD_COMMAND, status_alone};
use crate::target::{StartFile, Target};
use everyday_starting::{first_bytes, last_bytes};
use std::alloc::{AllocError, Global};
use ti_param::Line;
use tools_tput::TputOutcome;

// The file that an entry names.
fn start_file<'a>(target: &Target<'a>, is_reset: bool) -> StartFile<'a>
    ensures { file_of result ≡ start_file (target_of target.now) is_reset }
{
    if is_reset {
        target.reset_file
    } else {
        target.init_file
    }
}

/// The result of `init`, or of `reset`.
pub(crate) fn started(
    alloc: Global,
    target: &Target<'_>,
    line: &Line,
    is_reset: bool,
) -> Result<TputOutcome, AllocError>
    ensures { (statics : List ℤ) → IsLineOf target.now line.now
        → IfOk result (λ outcome. AnswersStart (target_of target.now) is_reset statics (reply_of outcome statics)) }
{
    let view = &target.entry.view;
    let Some(mut bytes) = first_bytes(alloc, is_reset, view, start_last(target), line)? else {
        return Ok(status_alone(alloc, BAD_COMMAND));
    };
    match start_file(target, is_reset) {
        StartFile::Failed(status) => {
            bytes.push(b'\n')?;
            Ok(TputOutcome { bytes, status })
        }
        StartFile::Bytes(file) => {
            let Some(last) = last_bytes(alloc, is_reset, view, line)? else {
                return Ok(status_alone(alloc, BAD_COMMAND));
            };
            bytes.extend_from_slice(file)?;
            bytes.extend_from_slice(last.as_slice())?;
            Ok(TputOutcome { bytes, status: 0 })
        }
    }
}
