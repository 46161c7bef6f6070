//! Takes a session's requests and gives the replies: the source, and the block that is open.
ghost use Rattle.std.specs.Prelude.{◌≡◌, IfOk, Some};
ghost use Rattle.base_meaning.specs.Edits.{change_of};
ghost use Rattle.tools_devices.specs.Counted.{observation};
ghost use Rattle.tools_devices.specs.Writing.{Wrote};
ghost use Rattle.tools_session.specs.inside.Replies.{CarriesOut, WroteReport};
ghost use Rattle.tools_session.specs.inside.Requests.{opened_change};
ghost use Rattle.tools_session.specs.Script.{asks, edits, print_reply, source};

use crate::replies::{write_hex, write_positions, write_refusal};
use crate::requests::{Opened, Request, read_request};
use std::alloc::{AllocError, Global};
use std::io::Write;
use ti_base::{Database, Edit, EditError};
use ti_text::limits::BLOCK_BYTES_MAX;
use tools_devices::{Buffer, Counted, Interpreter, ToolError, write_out};

// How many bytes of a block are held: one more than a block may have.
const BLOCK_ROOM: usize = BLOCK_BYTES_MAX + 1;

/// The source that is edited, the positions that its last accepted edit rebuilt, and the block that
/// is open, if one is.
#[derive(Drop)]
pub struct Editor {
    database: Database,
    rebuilt: Vec<usize>,
    block: Buffer,
    opened: Option<Opened>,
}

// Makes an edit, and writes what came of it. If it is accepted, the positions that it rebuilt
// replace those before.
fn carry_out<W: Write>(
    database: &mut Database,
    rebuilt: &mut Vec<usize>,
    edit: &Edit<'_>,
    writer: &mut Counted<W>,
) -> Result<(), ToolError>
    ensures { CarriesOut (source database.old rebuilt.old.items) (change_of edit.now)
        (source database.new rebuilt.new.items)
        (observation W.contents writer.old)
        (observation W.contents writer.new) result }
{
    match database.apply(edit) {
        Ok(edited) => {
            *rebuilt = edited.rebuilt;
            write_out(writer, b"ok\n")
        }
        Err(error) => write_refusal(writer, error),
    }
}

// Writes the entry of a block.
fn print<W: Write>(database: &Database, at: usize, writer: &mut Counted<W>) -> Result<(), ToolError>
    ensures { Wrote (observation W.contents writer.old)
        (observation W.contents writer.new)
        (print_reply database.now at) result }
{
    if at >= database.len() {
        return write_refusal(writer, EditError::Position);
    }
    match database.compiled(at) {
        None => write_out(writer, b"none\n"),
        Some(entry) => {
            write_hex(writer, entry)?;
            write_out(writer, b"\n")
        }
    }
}

// Writes the report.
fn report<W: Write>(database: &Database, writer: &mut Counted<W>) -> Result<(), ToolError>
    ensures { WroteReport database.now
        (observation W.contents writer.old)
        (observation W.contents writer.new) result }
{
    match database.report(1) {
        Ok(text) => {
            write_out(writer, text.as_slice())?;
            write_out(writer, b".\n")
        }
        Err(_) => write_refusal(writer, EditError::Memory),
    }
}

impl Editor {
    ghost use Rattle.tools_session.specs.inside.Editor.{HasState, ActsOn};
    ghost use Rattle.tools_session.specs.Script.{SessionState, meaning_outside, closing_reply, outside, session_start};

    /// A source without blocks, with room for a block.
    ///
    /// # Errors
    /// `AllocError` if memory ran out.
    pub fn new(alloc: Global) -> Result<Editor, AllocError>
        ensures { IfOk result (λ editor. HasState editor session_start) }
    {
        let block = Buffer::new(alloc, BLOCK_ROOM)?;
        Ok(Editor {
            database: Database::new(alloc),
            rebuilt: Vec::new(alloc),
            block,
            opened: None,
        })
    }

    // Takes a line outside a block.
    fn take_request<W: Write>(
        &mut self,
        line: &[u8],
        writer: &mut Counted<W>,
    ) -> Result<(), ToolError>
        ensures { (state : SessionState) → state.mode ≡ outside → HasState self.old state
            → ActsOn (meaning_outside line.now) state self.new
            (observation W.contents writer.old)
            (observation W.contents writer.new) result }
    {
        match read_request(line) {
            Request::Nothing => Ok(()),
            Request::Open(opened) => {
                self.block.clear();
                self.opened = Some(opened);
                Ok(())
            }
            Request::Remove { at } => {
                carry_out(
                    &mut self.database,
                    &mut self.rebuilt,
                    &Edit::Remove { at },
                    writer,
                )
            },
            Request::Relocate { from, to } => {
                carry_out(
                    &mut self.database,
                    &mut self.rebuilt,
                    &Edit::Relocate { from, to },
                    writer,
                )
            },
            Request::Print { at } => print(&self.database, at, writer),
            Request::Report => report(&self.database, writer),
            Request::Rebuilt => write_positions(writer, &self.rebuilt),
            Request::Unknown => write_out(writer, b"unknown\n"),
        }
    }

    // Ends the block that is open, and edits the source with it.
    fn end_block<W: Write>(
        &mut self,
        opened: Opened,
        writer: &mut Counted<W>,
    ) -> Result<(), ToolError>
        requires { self.old.opened ≡ Some opened }
        ensures { (state : SessionState) → (holds : HasState self.old state)
            → ActsOn (asks (edits (opened_change opened holds.text))) state self.new
            (observation W.contents writer.old)
            (observation W.contents writer.new) result }
    {
        let text = self.block.as_slice();
        let edit = match opened {
            Opened::Insert { at } => Edit::Insert { at, text },
            Opened::Replace { at } => Edit::Replace { at, text },
        };
        self.opened = None;
        carry_out(&mut self.database, &mut self.rebuilt, &edit, writer)
    }

    /// Writes the answer to a script that ends here.
    ///
    /// # Errors
    /// `WriteFault` if the writer fails.
    pub fn close<W: Write>(&self, writer: &mut Counted<W>) -> Result<(), ToolError>
        ensures { (state : SessionState) → HasState self.now state
            → Wrote (observation W.contents writer.old)
            (observation W.contents writer.new)
            (closing_reply state.mode) result }
    {
        if self.opened.is_none() {
            return Ok(());
        }
        write_out(writer, b"unfinished\n")
    }
}

impl Interpreter for Editor {
    ghost use Rattle.tools_session.specs.inside.Editor.{HasState};
    ghost use Rattle.tools_session.specs.Script.{SessionState, line_leads};

    ghost State = { SessionState };

    ghost holds = { HasState };

    ghost leads = { line_leads };

    ghost may_run_out = { ⊥ };

    fn take_line<W: Write>(
        &mut self,
        line: &[u8],
        writer: &mut Counted<W>,
    ) -> Result<(), ToolError> {
        let Some(opened) = self.opened else {
            return self.take_request(line, writer);
        };
        if line == b".".as_slice() {
            return self.end_block(opened, writer);
        }
        self.block.add(line);
        self.block.add(b"\n");
        Ok(())
    }
}
