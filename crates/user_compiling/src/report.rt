//! Faults as the lines of a report.
ghost use Rattle.std.specs.Prelude.{◌≡◌, ◌<◌, ◌≤◌, ◌++◌, ◌∷◌, [], All, IfOk, OnOk, length, map};
ghost use Rattle.std.specs.List.{flat_map};
ghost use Rattle.std.specs.Rc.{rc_slice_items};
ghost use Rattle.user_compiling.specs.Faults.{fault_seen};
ghost use Rattle.user_compiling.specs.Report.{bad_line, extended_line, IsExtendedPlaced};
ghost use Rattle.user_compiling.specs.inside.Lines.{line_with_number};

use crate::fault::ExtendedFault;
use std::alloc::{AllocError, Global};
use std::fmt::Write;
use std::rc::RcSlice;
use ti_base::{RuledDatabase, write_detail, write_fault};

// Appends the line of W5.
fn write_bad(
    alloc: Global,
    out: &mut Vec<u8>,
    number: u64,
    name: &RcSlice<u8>,
) -> Result<(), AllocError>
    ensures { OnOk result (out.new.items ≡ out.old.items ++ bad_line number (rc_slice_items name.now)) }
{
    let digits = number.to_string(alloc)?;
    out.extend_from_slice(digits.as_bytes())?;
    out.extend_from_slice(b": W5 BadUserDefined")?;
    out.push(b' ')?;
    write_detail(out, name.as_slice())?;
    out.push(b'\n')?;
    Ok(())
}

// Appends the line of a fault that is on the line of that number.
fn write_one(
    alloc: Global,
    out: &mut Vec<u8>,
    number: u64,
    fault: &ExtendedFault,
) -> Result<(), AllocError>
    ensures { OnOk result (out.new.items ≡ out.old.items ++ line_with_number number (fault_seen fault.now)) }
{
    match fault {
        ExtendedFault::Profile(fault) => write_fault(alloc, out, number, fault),
        ExtendedFault::BadUserDefined { name, .. } => write_bad(alloc, out, number, name),
    }
}

/// The report of these faults of a source: a line for each, with the line of the whole source that
/// it is on, if the first line of the source has the number `first_line`.
///
/// # Errors
/// Out of memory.
pub fn report_of(
    alloc: Global,
    database: &RuledDatabase,
    faults: &[ExtendedFault],
    first_line: u64,
) -> Result<Vec<u8>, AllocError>
    requires placed { All (IsExtendedPlaced (length database.now.texts)) (map fault_seen faults.now) }
    requires first { first_line ≤ 9223372036854775808 }
    ensures { IfOk result (λ out. out.items ≡ flat_map (extended_line database.now.texts first_line) (map fault_seen faults.now)) }
{
    let mut out = Vec::new(alloc);
    let starts = database.line_starts()?;
    for fault in faults {
        let at = fault.block();
        let line = fault.line();
        let number = first_line + starts[at] + line as u64 - 1;
        write_one(alloc, &mut out, number, fault)?;
    }
    Ok(out)
}
