//! The language server over an input and an output that end in each byte of a session.
use crate::{Drip, End, Narrow};
use lsp_frames::{Buffered, FrameError, write_frame};
use lsp_server::{Server, serve};
use server_answers::Terminfo;
use source_installed::Installed;
use std::alloc::{AllocError, Global};
use std::collections::BTreeSet;
use std::process::Abort;
use std::test::Fail;
use tools_devices::Counted;

const INITIALIZE: &str =
    r#"{"jsonrpc":"2.0","id":1,"method":"initialize","params":{"capabilities":{}}}"#;

const READY: &str =
    r#"{"id":1,"jsonrpc":"2.0","result":{"capabilities":{"codeActionProvider":false,"completionProvider":{"triggerCharacters":["="]},"definitionProvider":true,"documentFormattingProvider":true,"documentHighlightProvider":true,"documentRangeFormattingProvider":true,"documentSymbolProvider":true,"foldingRangeProvider":true,"hoverProvider":true,"positionEncoding":"utf-16","referencesProvider":true,"renameProvider":true,"signatureHelpProvider":{"triggerCharacters":["=","%"]},"textDocumentSync":{"change":2,"openClose":true},"workspaceSymbolProvider":true},"serverInfo":{"name":"ti-lsp","version":"1.1.0"}}}"#;

const OPEN: &str =
    r#"{"jsonrpc":"2.0","method":"textDocument/didOpen","params":{"textDocument":{"uri":"u","languageId":"terminfo","version":1,"text":"t,\n"}}}"#;

const OPENED: &str =
    r#"{"jsonrpc":"2.0","method":"textDocument/publishDiagnostics","params":{"diagnostics":[],"uri":"u","version":1}}"#;

const SHUTDOWN: &str = r#"{"jsonrpc":"2.0","id":2,"method":"shutdown"}"#;

const DONE: &str = r#"{"id":2,"jsonrpc":"2.0","result":null}"#;

const EXIT: &str = r#"{"jsonrpc":"2.0","method":"exit"}"#;

// The frames of bodies.
fn frames_of(alloc: Global, bodies: &[&str]) -> Result<Vec<u8>, AllocError> {
    let mut frames = Vec::new(alloc);
    for body in bodies {
        let len = body.len();
        let frame = format!(in alloc; "Content-Length: {len}\r\n\r\n{body}")?;
        frames.extend_from_slice(frame.as_bytes())?;
    }
    Ok(frames)
}

// The input gives so many bytes of these frames, one a read, the output takes so many, and each then
// ends so: the server stops, and has written this and no more.
fn expect_stop(
    rt: &impl Abort,
    alloc: Global,
    frames: &[u8],
    (reads_left, room, end): (usize, usize, End),
    want: &[u8],
) -> Result<(), AllocError> {
    let mut input = Buffered::new(
        alloc,
        Drip {
            rest: frames,
            reads_left,
            end,
        },
    )?;
    let taken = Vec::new(alloc);
    let mut writer = Counted::new(Narrow { taken, room, end });
    let mut server: Server<Terminfo> = Server::new(alloc);
    let nothing = Installed::of(alloc, BTreeSet::new(alloc))?;
    let stop = serve(alloc, &nothing, &mut server, &mut input, &mut writer);
    let taken = writer.into_inner().taken;
    assert!(rt;
        stop == Err(FrameError::Broken),
        "{reads_left}, {room}: {end:?}"
    );
    assert!(rt; taken.as_slice() == want, "{reads_left}, {room}: {end:?}");
    Ok(())
}

#[test]
fn an_input_that_ends_at_each_byte(rt: HostRuntime) -> Result<(), Fail> {
    let alloc = rt.alloc();
    let first = frames_of(alloc, &[INITIALIZE])?.len();
    let second = frames_of(alloc, &[INITIALIZE, OPEN])?.len();
    let frames = frames_of(alloc, &[INITIALIZE, OPEN, EXIT])?;
    let ready = frames_of(alloc, &[READY])?.len();
    let want = frames_of(alloc, &[READY, OPENED])?;
    for end in End::ALL {
        for reads_left in 0..frames.len() {
            let written = match reads_left {
                _ if reads_left < first => 0,
                _ if reads_left < second => ready,
                _ => want.len(),
            };
            let stop = (reads_left, usize::MAX, end);
            expect_stop(
                &rt,
                alloc,
                &frames,
                stop,
                want.get(..written).unwrap_or(&[]),
            )?;
        }
    }
    Ok(())
}

#[test]
fn an_output_that_ends_at_each_byte(rt: HostRuntime) -> Result<(), Fail> {
    let frames = frames_of(rt.alloc(), &[INITIALIZE, SHUTDOWN, EXIT])?;
    let want = frames_of(rt.alloc(), &[READY, DONE])?;
    for end in End::ALL {
        for room in 0..want.len() {
            let stop = (usize::MAX, room, end);
            expect_stop(
                &rt,
                rt.alloc(),
                &frames,
                stop,
                want.get(..room).unwrap_or(&[]),
            )?;
        }
    }
    Ok(())
}

// No program calls `write_frame`.
#[test]
fn a_frame_is_written(rt: HostRuntime) {
    let mut writer = Counted::new(Vec::new(rt.alloc()));
    let written = write_frame(rt.alloc(), &mut writer, b"{\"id\":\"\xc3\xa9\"} ");
    assert!(rt; written == Ok(()));
    let want = b"Content-Length: 12\r\n\r\n{\"id\":\"\xc3\xa9\"} ".as_slice();
    assert!(rt; writer.into_inner().as_slice() == want);
}

#[test]
fn a_frame_is_written_to_an_output_that_ends(rt: HostRuntime) {
    let mut room = [0_u8; 10];
    let mut writer = Counted::new(room.as_mut_slice());
    let written = write_frame(rt.alloc(), &mut writer, b"{}");
    assert!(rt; written == Err(FrameError::Broken));
}
