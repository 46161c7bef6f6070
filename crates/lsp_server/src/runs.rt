//! What is shown of each document after a whole run of messages.
ghost use Rattle.lsp_server.specs.Runs.{AllIsShownAtLast, AnswersAreOfShownTexts, OpenDocumentsAreShown};
ghost use Rattle.lsp_server.specs.Serving.{AllIsServedAtLast, ServedDocumentsAreShown};

/// A law, with no code: after any messages, the diagnostics that were published last for a URI are
/// those of the text that is open under it, with its version, unless its faults are due; for one
/// under which none is open, none are shown. An error was shown since then exactly if it is out of
/// date. No faults are due once no whole frame waits. That holds after any frames too, of which some
/// hold no message. Before a question about a document is answered, what is due is published; the
/// answer is for that text, and the question is refused if it is out of date.
pub fn open_documents_are_shown()
    ensures messages { OpenDocumentsAreShown }
    ensures last { AllIsShownAtLast }
    ensures questions { AnswersAreOfShownTexts }
    ensures frames { ServedDocumentsAreShown }
    ensures last_frame { AllIsServedAtLast }
{}
