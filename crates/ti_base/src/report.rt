//! Faults as the lines of a report.
ghost use Rattle.std.specs.Prelude.{◌≡◌, ◌≤◌, ◌++◌, length, map, option_map, All, IfOk, OnOk};
ghost use Rattle.std.specs.List.{flat_map, range_with_len};
ghost use Rattle.std.specs.Rc.{rc_slice_items};
ghost use Rattle.ti_source.specs.Code.{code_text};
ghost use Rattle.base_meaning.specs.Report.{shown_byte, shown_detail, fault_line, lines_before, report_line};
ghost use Rattle.base_meaning.specs.Faults.{fault_seen};
ghost use Rattle.base_meaning.specs.Usable.{IsPlaced};
ghost use Rattle.base_slots.specs.Slots.{slot_texts};
ghost use Rattle.ti_base.specs.inside.Database.{AreKept};

use crate::owners::slot_of;
use base_meaning::Fault;
use base_slots::Slots;
use std::alloc::{AllocError, Global};
use std::fmt::Write;
use ti_source::Code;
use ti_text::count_lines;

// What a report shows for a byte of a detail: `?` for one that does not print or is white space.
fn printed_byte(byte: u8) -> u8
    ensures { result ≡ shown_byte byte }
{
    if (33..=126).contains(&byte) {
        byte
    } else {
        b'?'
    }
}

/// Appends a detail as a report shows it: `?` for each byte that does not print or is white space,
/// and `-` for an empty detail. At an error a part may have been appended.
pub fn write_detail(out: &mut Vec<u8>, detail: &[u8]) -> Result<(), AllocError>
    ensures { OnOk result (out.new.items ≡ out.old.items ++ shown_detail detail.now) }
{
    if detail.is_empty() {
        out.push(b'-')?;
        return Ok(());
    }
    for byte in detail {
        out.push(printed_byte(*byte))?;
    }
    Ok(())
}

// Writes a code and its name.
fn write_code(out: &mut Vec<u8>, code: Code) -> Result<(), AllocError>
    ensures { OnOk result (out.new.items ≡ out.old.items ++ code_text code) }
{
    out.extend_from_slice(code.label().as_bytes())?;
    out.push(b' ')?;
    out.extend_from_slice(code.name().as_bytes())?;
    Ok(())
}

/// Appends the line of a fault that is on the line of that number, such as `2: E6 MissingUse zz`
/// and a newline. At an error a part may have been appended.
pub fn write_fault(
    alloc: Global,
    out: &mut Vec<u8>,
    number: u64,
    fault: &Fault,
) -> Result<(), AllocError>
    ensures { OnOk result (out.new.items
        ≡ out.old.items ++ fault_line number fault.now.code (option_map rc_slice_items fault.now.detail)) }
{
    let digits = number.to_string(alloc)?;
    out.extend_from_slice(digits.as_bytes())?;
    out.extend_from_slice(b": ")?;
    write_code(out, fault.code)?;
    if let Some(detail) = &fault.detail {
        out.push(b' ')?;
        write_detail(out, detail.as_slice())?;
    }
    out.push(b'\n')?;
    Ok(())
}

/// The number of lines before each of the texts.
pub(crate) fn line_starts(alloc: Global, slots: &Slots) -> Result<Vec<u64>, AllocError>
    requires { AreKept slots.now }
    ensures starts { IfOk result (λ starts. starts.items
        ≡ map (lines_before (slot_texts slots.now)) (range_with_len 0 (length (slot_texts slots.now)))) }
    ensures small { IfOk result (λ starts. All (λ start. start ≤ 68719476736) starts.items) }
{
    let count = slots.len();
    let mut starts = Vec::with_capacity(alloc, count)?;
    let mut lines: u64 = 0;
    for at in 0..count {
        starts.push(lines)?;
        lines += count_lines(&slot_of(slots, at).text) as u64;
    }
    Ok(starts)
}

/// The report of these faults of a source, whose first line has that number.
pub(crate) fn write_report(
    alloc: Global,
    slots: &Slots,
    faults: &[Fault],
    first_line: u64,
) -> Result<Vec<u8>, AllocError>
    requires kept { AreKept slots.now }
    requires placed { All (IsPlaced (length (slot_texts slots.now))) (map fault_seen faults.now) }
    requires first { first_line ≤ 9223372036854775808 }
    ensures { IfOk result (λ out. out.items ≡ flat_map (report_line (slot_texts slots.now) first_line) (map fault_seen faults.now)) }
{
    let mut out = Vec::new(alloc);
    // If there is nothing to report, no lines are counted.
    if faults.is_empty() {
        return Ok(out);
    }
    let starts = line_starts(alloc, slots)?;
    for fault in faults {
        let number = first_line + starts[fault.block] + fault.line as u64 - 1;
        write_fault(alloc, &mut out, number, fault)?;
    }
    Ok(out)
}
