//! What comes of what an item states, as far as user-defined capabilities go.
ghost use Rattle.std.specs.Prelude.{◌≡◌, IfOk};
ghost use Rattle.std.specs.Option.{option_map};
ghost use Rattle.std.specs.Rc.{rc_slice_items};
ghost use Rattle.ti_source.specs.Stating.{statement_seen};
ghost use Rattle.ti_spelling.specs.inside.Numbers.{number_read};
ghost use Rattle.ti_spelling.specs.inside.Spelling.{unescape_result};
ghost use Rattle.user_items.specs.Verdicts.{number_verdict, text_verdict};
ghost use Rattle.user_items.specs.inside.Computed.{verdict_of, verdict_seen};

use crate::names::is_user_defined_name;
use crate::reading::UserWhat;
use std::alloc::{AllocError, Global};
use std::rc::RcSlice;
use ti_layout::Value;
use ti_source::{Claim, Statement, UnescapeError, read_number, strip};
use ti_spelling::unescape_into;

/// What comes of an item that is a use or whose name is user-defined: it is accepted, accepted
/// though an escape in it is odd, or refused since its value cannot be read.
#[derive(Drop)]
pub(crate) enum Verdict {
    Accepted(UserWhat),
    AcceptedOdd(UserWhat),
    Refused,
}

/// The verdict on a statement, if it is a use or its name is user-defined.
pub(crate) fn judge(
    alloc: Global,
    statement: &Statement<'_>,
    room: &mut Vec<u8>,
) -> Result<Option<Verdict>, AllocError>
    ensures { IfOk result (λ v. option_map verdict_seen v ≡ verdict_of (statement_seen statement.now).name (statement_seen statement.now).claim) }
{
    let name = statement.name;
    if let Claim::Text(value) = statement.claim
        && name == b"use".as_slice()
    {
        let owner = RcSlice::from_slice(alloc, strip(value))?;
        return Ok(Some(Verdict::Accepted(UserWhat::Import(owner))));
    }
    if !is_user_defined_name(name) {
        return Ok(None);
    }
    let kept = RcSlice::from_slice(alloc, name)?;
    match statement.claim {
        Claim::Flag => Ok(Some(Verdict::Accepted(UserWhat::Says(kept, Value::True)))),
        Claim::Number(text) => Ok(Some(judge_number(kept, text))),
        Claim::Text(value) => {
            let verdict = judge_text(alloc, kept, value, room)?;
            Ok(Some(verdict))
        }
        Claim::Cancel => Ok(Some(Verdict::Accepted(UserWhat::Says(kept, Value::Cancelled)))),
    }
}

fn judge_number(name: RcSlice<u8>, text: &[u8]) -> Verdict
    ensures { verdict_seen result ≡ number_verdict (rc_slice_items name) (number_read text.now) }
{
    match read_number(text) {
        Ok(number) => Verdict::Accepted(UserWhat::Says(name, Value::Number(number))),
        Err(_) => Verdict::Refused,
    }
}

fn judge_text(
    alloc: Global,
    name: RcSlice<u8>,
    value: &[u8],
    room: &mut Vec<u8>,
) -> Result<Verdict, AllocError>
    ensures { IfOk result (λ v. verdict_seen v ≡ text_verdict (rc_slice_items name) (unescape_result value.now)) }
{
    match unescape_into(room, value) {
        Ok(odd) => {
            let text = RcSlice::from_slice(alloc, room.as_slice())?;
            let what = UserWhat::Says(name, Value::Text(text));
            if odd {
                return Ok(Verdict::AcceptedOdd(what));
            }
            Ok(Verdict::Accepted(what))
        }
        Err(UnescapeError::Memory) => Err(AllocError),
        Err(_) => Ok(Verdict::Refused),
    }
}
