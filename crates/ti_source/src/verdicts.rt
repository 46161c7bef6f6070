//! What comes of what an item states.
ghost use Rattle.std.specs.Prelude.{◌≡◌, IfOk};
ghost use Rattle.ti_source.specs.Stating.{statement_seen};
ghost use Rattle.ti_spelling.specs.inside.Numbers.{number_read};
ghost use Rattle.ti_source.specs.Verdicts.{number_verdict, text_verdict};
ghost use Rattle.ti_source.specs.inside.Verdicts.{verdict_seen, verdict_of};
ghost use Rattle.ti_spelling.specs.inside.Spelling.{unescape_result};

use crate::code::Code;
use crate::items::{Claim, Statement, strip};
use crate::parsing::What;
use crate::sharing::SharedTexts;
use std::alloc::{AllocError, Global};
use std::rc::RcSlice;
use ti_caps::{Cap, Kind, find};
use ti_spelling::{NumberError, UnescapeError, read_number, unescape_into};

/// What comes of a statement: it is accepted, accepted though an escape in it is odd, or refused by
/// a fault.
#[derive(Drop)]
pub(crate) enum Verdict {
    Accepted(What),
    AcceptedOdd(What),
    Refused(Code),
}

/// The verdict on a statement: first a name that is not in the tables, then one of another kind,
/// then a value that cannot be read. A string may be shared with what was read before.
pub(crate) fn judge(
    alloc: Global,
    statement: &Statement<'_>,
    shared: &mut SharedTexts,
) -> Result<Verdict, AllocError>
    ensures { IfOk result (λ v. verdict_seen v ≡ verdict_of (statement_seen statement.now).name (statement_seen statement.now).claim) }
{
    let name = statement.name;
    if let Claim::Text(value) = statement.claim
        && name == b"use".as_slice()
    {
        let owner = RcSlice::from_slice(alloc, strip(value))?;
        return Ok(Verdict::Accepted(What::Import(owner)));
    }
    let Some(cap) = find(name) else {
        return Ok(Verdict::Refused(Code::UnknownCapability));
    };
    match (statement.claim, cap.kind()) {
        (Claim::Flag, Kind::Flag) => Ok(Verdict::Accepted(What::Flag(cap))),
        (Claim::Number(text), Kind::Number) => Ok(judge_number(cap, text)),
        (Claim::Text(value), Kind::Text) => judge_text(alloc, cap, value, shared),
        (Claim::Cancel, _) => Ok(Verdict::Accepted(What::Cancel(cap))),
        _ => Ok(Verdict::Refused(Code::WrongKind)),
    }
}

fn judge_number(cap: Cap, text: &[u8]) -> Verdict
    ensures { verdict_seen result ≡ number_verdict cap (number_read text.now) }
{
    match read_number(text) {
        Ok(number) => Verdict::Accepted(What::Number(cap, number)),
        Err(NumberError::Bad) => Verdict::Refused(Code::BadNumber),
        Err(NumberError::TooLarge) => Verdict::Refused(Code::NumberTooLarge),
    }
}

fn judge_text(
    alloc: Global,
    cap: Cap,
    value: &[u8],
    shared: &mut SharedTexts,
) -> Result<Verdict, AllocError>
    ensures { IfOk result (λ v. verdict_seen v ≡ text_verdict cap (unescape_result value.now)) }
{
    if let Some(text) = shared.text_of(cap, value) {
        return Ok(Verdict::Accepted(What::Text(cap, text.clone()?)));
    }
    match unescape_into(&mut shared.room, value) {
        Ok(odd) => {
            let text = shared.text_in_room(alloc)?;
            if odd {
                return Ok(Verdict::AcceptedOdd(What::Text(cap, text)));
            }
            shared.keep(alloc, cap, value, &text)?;
            Ok(Verdict::Accepted(What::Text(cap, text)))
        }
        Err(UnescapeError::Memory) => Err(AllocError),
        Err(_) => Ok(Verdict::Refused(Code::BadString)),
    }
}
