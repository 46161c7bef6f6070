//! The words of tools whose options clap does not read.
ghost use Rattle.std.specs.Prelude.{◌≡◌, ◌++◌, IfOk, OnOk};
ghost use Rattle.tools_commands.specs.Arguments.{word_texts};
ghost use Rattle.everyday_words.specs.Operands.{as_operands, asks_for_text, operand_line, takes_operands};

use everyday_arguments::Tool;
use std::alloc::{AllocError, Global};

/// Whether to clap all words of a tool are operands.
pub(crate) fn takes_operands(tool: Tool) -> bool
    ensures { result ≡ takes_operands tool }
{
    match tool {
        Tool::Tabs | Tool::Tset | Tool::Reset => true,
        _ => false,
    }
}

// Whether a word asks for the help or the version.
fn asks_for_text(word: &str) -> bool
    ensures { result ≡ asks_for_text word.now }
{
    word == "-h" || word == "--help" || word == "--version"
}

// Adds copies of words.
fn push_copies(alloc: Global, line: &mut Vec<String>, words: &[String]) -> Result<(), AllocError>
    ensures { OnOk result (word_texts line.new.items ≡ word_texts line.old.items ++ word_texts words.now) }
{
    for word in words {
        line.push(String::from_str(alloc, word.as_str())?)?;
    }
    Ok(())
}

// Adds the words after the name as clap reads them.
fn push_operands(alloc: Global, line: &mut Vec<String>, words: &[String]) -> Result<(), AllocError>
    ensures { OnOk result (word_texts line.new.items ≡ word_texts line.old.items ++ as_operands (word_texts words.now)) }
{
    let Some((word, _)) = words.split_first() else {
        return Ok(());
    };
    if asks_for_text(word.as_str()) {
        line.push(String::from_str(alloc, word.as_str())?)?;
        return Ok(());
    }
    line.push(String::from_str(alloc, "--")?)?;
    push_copies(alloc, line, words)
}

/// The words of a command line as clap reads them.
///
/// # Errors
/// `AllocError` if memory ran out.
pub(crate) fn operand_line(alloc: Global, words: &[String]) -> Result<Vec<String>, AllocError>
    ensures { IfOk result (λ line. word_texts line.items ≡ operand_line (word_texts words.now)) }
{
    let mut line = Vec::new(alloc);
    if let Some((name, others)) = words.split_first() {
        line.push(String::from_str(alloc, name.as_str())?)?;
        push_operands(alloc, &mut line, others)?;
    }
    Ok(line)
}
