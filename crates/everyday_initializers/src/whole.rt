//! The tables of an entry, and the structure that has them.
ghost use Rattle.std.specs.Prelude.{◌≡◌, ◌<◌, ◌^◌, ◌++◌, IfOk, OnOk, codes, map, option_map};
ghost use Rattle.ti_caps.specs.declared.capability.Kind.TheVariants as kind;
ghost use Rattle.ti_layout.specs.View.{entry_seen};
ghost use Rattle.user_extension.specs.View.{read_rows};
ghost use Rattle.everyday_initializers.specs.Initializers as spec;
ghost use Rattle.everyday_initializers.specs.Rows as row;
ghost use Rattle.everyday_initializers.specs.Rows.{described};
ghost use Rattle.everyday_initializers.specs.inside.Lines.{described_seen, line_of};

use crate::lines::{Line, push_lines, push_number};
use crate::rows::{Described, described_in, extra_count, total_count};
use std::alloc::{AllocError, Global};
use ti_caps::{Kind, count};
use ti_layout::View;
use user_extension::Extension;

// A byte that may be in a name of C, or an underscore in its place.
fn in_name(byte: u8) -> u8
    ensures { result ≡ spec.in_name byte }
{
    if byte.is_ascii_alphanumeric() {
        byte
    } else {
        b'_'
    }
}

// A name with such bytes.
fn variable_of(alloc: Global, name: &[u8]) -> Result<Vec<u8>, AllocError>
    ensures { IfOk result (λ front. front.items ≡ map spec.in_name name.now) }
{
    let mut front = Vec::new(alloc);
    for byte in name {
        front.push(in_name(*byte))?;
    }
    Ok(front)
}

// Appends the variable of a table.
fn push_name(out: &mut Vec<u8>, front: &[u8], table: &[u8]) -> Result<(), AllocError>
    ensures { OnOk result (out.new.items ≡ out.old.items ++ spec.table_name front.now table.now) }
{
    out.extend_from_slice(front)?;
    out.extend_from_slice(b"_")?;
    out.extend_from_slice(table)?;
    out.extend_from_slice(b"_data")
}

// Appends the names field.
fn push_alias(out: &mut Vec<u8>, d: &Described<'_>, front: &[u8]) -> Result<(), AllocError>
    requires { front.now ≡ spec.prefix (described_seen d.now).names }
    ensures { OnOk result (out.new.items ≡ out.old.items ++ spec.alias_table (described_seen d.now)) }
{
    out.extend_from_slice(b"\nstatic char ")?;
    push_name(out, front, b"alias")?;
    out.extend_from_slice(b"[] = \"")?;
    out.extend_from_slice(d.view.names())?;
    out.extend_from_slice(b"\";\n\n")
}

// Appends with what a table begins.
fn push_front(out: &mut Vec<u8>, of: &[u8], front: &[u8], table: &[u8]) -> Result<(), AllocError>
    ensures { OnOk result (out.new.items ≡ out.old.items ++ spec.table_front of.now front.now table.now) }
{
    out.extend_from_slice(b"static ")?;
    out.extend_from_slice(of)?;
    push_name(out, front, table)?;
    out.extend_from_slice(b"[] = {\n")
}

// Appends the lines of all capabilities of a kind.
fn push_all(
    out: &mut Vec<u8>,
    d: &Described<'_>,
    front: &[u8],
    line: Line,
    kind: Kind,
) -> Result<(), AllocError>
    requires { front.now ≡ spec.prefix (described_seen d.now).names }
    ensures { OnOk result (out.new.items ≡ out.old.items
        ++ spec.lines (line_of (described_seen d.now) line) 0 (row.total_count (described_seen d.now) kind)) }
{
    push_lines(out, d, front, line, 0, total_count(d, kind))
}

// Appends the table of booleans.
fn push_flags(out: &mut Vec<u8>, d: &Described<'_>, front: &[u8]) -> Result<(), AllocError>
    requires { front.now ≡ spec.prefix (described_seen d.now).names }
    ensures { OnOk result (out.new.items ≡ out.old.items
        ++ spec.table (described_seen d.now) kind.Flag (codes "char ") (codes "bool") (spec.flag_at (described_seen d.now))) }
{
    push_front(out, b"char ", front, b"bool")?;
    push_all(out, d, front, Line::Flag, Kind::Flag)?;
    out.extend_from_slice(b"};\n")?;
    Ok(())
}

// Appends the table of numbers.
fn push_numbers(out: &mut Vec<u8>, d: &Described<'_>, front: &[u8]) -> Result<(), AllocError>
    requires { front.now ≡ spec.prefix (described_seen d.now).names }
    ensures { OnOk result (out.new.items ≡ out.old.items
        ++ spec.table (described_seen d.now) kind.Number (codes "short ") (codes "number") (spec.number_at (described_seen d.now))) }
{
    push_front(out, b"short ", front, b"number")?;
    push_all(out, d, front, Line::Number, Kind::Number)?;
    out.extend_from_slice(b"};\n")?;
    Ok(())
}

// Appends the table of strings.
fn push_texts(out: &mut Vec<u8>, d: &Described<'_>, front: &[u8]) -> Result<(), AllocError>
    requires { front.now ≡ spec.prefix (described_seen d.now).names }
    ensures { OnOk result (out.new.items ≡ out.old.items
        ++ spec.table (described_seen d.now) kind.Text (codes "char * ") (codes "string") (spec.text_at (described_seen d.now))) }
{
    push_front(out, b"char * ", front, b"string")?;
    push_all(out, d, front, Line::Text, Kind::Text)?;
    out.extend_from_slice(b"};\n")?;
    Ok(())
}

// Whether there are user-defined capabilities.
fn has_extra(d: &Described<'_>) -> bool
    ensures { result ≡ spec.has_extra (described_seen d.now) }
{
    extra_count(d, Kind::Flag) + extra_count(d, Kind::Number) + extra_count(d, Kind::Text) > 0
}

// Appends the user-defined names of a kind.
fn push_extra_names(
    out: &mut Vec<u8>,
    d: &Described<'_>,
    front: &[u8],
    kind: Kind,
) -> Result<(), AllocError>
    requires { front.now ≡ spec.prefix (described_seen d.now).names }
    ensures { OnOk result (out.new.items ≡ out.old.items ++ spec.extra_names (described_seen d.now) kind) }
{
    push_lines(
        out,
        d,
        front,
        Line::Name(kind),
        count(kind),
        total_count(d, kind),
    )
}

// Appends the table of user-defined names.
fn push_full_names_table(
    out: &mut Vec<u8>,
    d: &Described<'_>,
    front: &[u8],
) -> Result<(), AllocError>
    requires { front.now ≡ spec.prefix (described_seen d.now).names }
    ensures { OnOk result (out.new.items ≡ out.old.items ++ spec.full_names_table (described_seen d.now)) }
{
    push_front(out, b"char * ", front, b"string_ext")?;
    push_extra_names(out, d, front, Kind::Flag)?;
    push_extra_names(out, d, front, Kind::Number)?;
    push_extra_names(out, d, front, Kind::Text)?;
    out.extend_from_slice(b"};\n")?;
    Ok(())
}

// Appends the same, if there are any.
fn push_names_table(out: &mut Vec<u8>, d: &Described<'_>, front: &[u8]) -> Result<(), AllocError>
    requires { front.now ≡ spec.prefix (described_seen d.now).names }
    ensures { OnOk result (out.new.items ≡ out.old.items ++ spec.names_table (described_seen d.now)) }
{
    if has_extra(d) {
        push_full_names_table(out, d, front)
    } else {
        Ok(())
    }
}

// Appends all tables.
fn push_tables(out: &mut Vec<u8>, d: &Described<'_>, front: &[u8]) -> Result<(), AllocError>
    requires { front.now ≡ spec.prefix (described_seen d.now).names }
    ensures { OnOk result (out.new.items ≡ out.old.items ++ spec.tables_text (described_seen d.now)) }
{
    push_alias(out, d, front)?;
    push_all(out, d, front, Line::String, Kind::Text)?;
    out.extend_from_slice(b"\n")?;
    push_flags(out, d, front)?;
    push_numbers(out, d, front)?;
    push_texts(out, d, front)?;
    push_names_table(out, d, front)?;
    Ok(())
}

// Appends a table as a member of the structure.
fn push_member(out: &mut Vec<u8>, front: &[u8], table: &[u8]) -> Result<(), AllocError>
    ensures { OnOk result (out.new.items ≡ out.old.items ++ spec.member front.now table.now) }
{
    out.extend_from_slice(b"\t\t")?;
    push_name(out, front, table)?;
    out.extend_from_slice(b",\n")
}

// Appends the members that each system has.
fn push_members(out: &mut Vec<u8>, front: &[u8]) -> Result<(), AllocError>
    ensures { OnOk result (out.new.items ≡ out.old.items ++ spec.table_members front.now) }
{
    out.extend_from_slice(b"\t{\n")?;
    push_member(out, front, b"alias")?;
    out.extend_from_slice(b"\t\t(char *)0,\t/* pointer to string table */\n")?;
    push_member(out, front, b"bool")?;
    push_member(out, front, b"number")?;
    push_member(out, front, b"string")?;
    Ok(())
}

// Appends the table of user-defined names as a member, or none.
fn push_names_member(out: &mut Vec<u8>, d: &Described<'_>, front: &[u8]) -> Result<(), AllocError>
    requires { front.now ≡ spec.prefix (described_seen d.now).names }
    ensures { OnOk result (out.new.items ≡ out.old.items ++ spec.names_member (described_seen d.now)) }
{
    if has_extra(d) {
        push_name(out, front, b"string_ext")
    } else {
        out.extend_from_slice(b"(char **)0")
    }
}

// Appends a number as a member.
fn push_count(out: &mut Vec<u8>, number: usize, said: &[u8]) -> Result<(), AllocError>
    ensures { OnOk result (out.new.items ≡ out.old.items ++ spec.count_member number said.now) }
{
    out.extend_from_slice(b"\t\t")?;
    push_number(out, number)?;
    out.extend_from_slice(b",\t\t/* count ")?;
    out.extend_from_slice(said)?;
    out.extend_from_slice(b" */\n")?;
    Ok(())
}

// Appends how many capabilities of a kind there are.
fn push_total(
    out: &mut Vec<u8>,
    d: &Described<'_>,
    kind: Kind,
    said: &[u8],
) -> Result<(), AllocError>
    ensures { OnOk result (out.new.items ≡ out.old.items
        ++ spec.count_member (row.total_count (described_seen d.now) kind) said.now) }
{
    push_count(out, total_count(d, kind), said)
}

// Appends how many user-defined capabilities of a kind there are.
fn push_extra(
    out: &mut Vec<u8>,
    d: &Described<'_>,
    kind: Kind,
    said: &[u8],
) -> Result<(), AllocError>
    ensures { OnOk result (out.new.items ≡ out.old.items
        ++ spec.count_member (row.extra_count (described_seen d.now) kind) said.now) }
{
    push_count(out, extra_count(d, kind), said)
}

// Appends how many capabilities there are of each kind, and how many of them are user-defined.
fn push_counts(out: &mut Vec<u8>, d: &Described<'_>) -> Result<(), AllocError>
    ensures { OnOk result (out.new.items ≡ out.old.items ++ spec.count_members (described_seen d.now)) }
{
    push_total(out, d, Kind::Flag, b"total Booleans")?;
    push_total(out, d, Kind::Number, b"total Numbers")?;
    push_total(out, d, Kind::Text, b"total Strings")?;
    push_extra(out, d, Kind::Flag, b"extensions to Booleans")?;
    push_extra(out, d, Kind::Number, b"extensions to Numbers")?;
    push_extra(out, d, Kind::Text, b"extensions to Strings")?;
    Ok(())
}

// Appends the structure.
fn push_structure(out: &mut Vec<u8>, d: &Described<'_>, front: &[u8]) -> Result<(), AllocError>
    requires { front.now ≡ spec.prefix (described_seen d.now).names }
    ensures { OnOk result (out.new.items ≡ out.old.items ++ spec.structure_text (described_seen d.now)) }
{
    push_members(out, front)?;
    out.extend_from_slice(
        b"#if NCURSES_XNAMES\n\t\t(char *)0,\t/* pointer to extended string table */\n\t\t",
    )?;
    push_names_member(out, d, front)?;
    out.extend_from_slice(b",\t/* ...corresponding names */\n")?;
    push_counts(out, d)?;
    out.extend_from_slice(b"#endif /* NCURSES_XNAMES */\n\t}\n")?;
    Ok(())
}

/// An entry as C has it, given the bytes of its file, and its extension if its user-defined
/// capabilities are to be there: if `structure`, the initializer of a structure, as infocmp(1)'s `-e`
/// prints it; then, if `tables`, the tables that the structure names, as `-E` prints them. A string is
/// whole, however long it is.
///
/// # Errors
/// `AllocError` if memory ran out.
pub fn initializers<'a>(
    alloc: Global,
    bytes: &'a [u8],
    view: &View<'a>,
    extension: Option<&Extension<'a>>,
    structure: bool,
    tables: bool,
) -> Result<Vec<u8>, AllocError>
    ensures { IfOk result (λ text. text.items ≡ spec.initializers structure tables
        (described bytes.now (entry_seen view.now) (option_map (λ e. read_rows e.now) extension.entry))) }
{
    let d = described_in(bytes, view, extension);
    let front = variable_of(alloc, view.first_name())?;
    let mut out = Vec::new(alloc);
    if structure {
        push_structure(&mut out, &d, &front)?;
    }
    if tables {
        push_tables(&mut out, &d, &front)?;
    }
    Ok(out)
}
