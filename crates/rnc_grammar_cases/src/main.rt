//! Compares what `rnc_grammar` returns for the texts in the rows of its data.
//!
//! In `worked.txt` and `sentences.txt` the answer is the tree, the number of components if the file is a grammar, and the
//! files that it mentions, or the broken clause. In `neighbors.txt`, whose texts may declare anything, it only says
//! whether they are sentences. `dev/rows/grammar_cases` writes the rows with their answers.
#![tactic(auto)]

use case_rows::{Answer, Row, compare_rows};
use rnc_grammar::{FileTree, MentionedFile, ParseFault, parse};
use rnc_text::{TextFault, read_text, tokens};
use std::alloc::{AllocError, Global};
use std::io;

/// Returns the fault of a file whose text has this one.
fn fault_of(fault: TextFault) -> ParseFault {
    match fault {
        TextFault::At { clause, .. } => ParseFault::Clause(clause),
        TextFault::Memory => ParseFault::Memory,
    }
}

/// Returns the tree of a file, or why it has none.
fn tree_of(alloc: Global, bytes: &[u8]) -> Result<FileTree, ParseFault> {
    let text = read_text(alloc, bytes).map_err(fault_of)?;
    let tokens = tokens(alloc, &text).map_err(fault_of)?;
    parse(alloc, tokens.as_slice())
}

/// Returns a fault as it is printed.
fn fault_line(alloc: Global, fault: ParseFault) -> Result<String, AllocError> {
    match fault {
        ParseFault::At { clause, number } => format!(in alloc; "clause {clause} at token {number}"),
        ParseFault::Clause(clause) => format!(in alloc; "clause {clause}"),
        ParseFault::Memory => String::from_str(alloc, "out of memory"),
    }
}

/// Returns the number of components, as it is printed, if the file is a grammar.
fn grammar_note(alloc: Global, tree: &FileTree) -> Result<String, AllocError> {
    match tree.grammar() {
        Some(components) => format!(in alloc; " is a grammar of {}", components.len()),
        None => Ok(String::new(alloc)),
    }
}

/// Returns a file that another one mentions, as it is printed: an include with the number of components in its braces.
fn mention_note(alloc: Global, file: MentionedFile<'_>) -> Result<String, AllocError> {
    match file {
        MentionedFile::External(mention) => {
            format!(in alloc; " external {:?} at {}", mention.href, mention.token)
        }
        MentionedFile::Included(mention, overriding) => {
            format!(in alloc;
                " include {:?} at {} over {}",
                mention.href,
                mention.token,
                overriding.len()
            )
        }
    }
}

/// Returns the files that a file mentions, as they are printed.
fn mentions_note(alloc: Global, tree: &FileTree) -> Result<String, AllocError> {
    let Ok(files) = tree.mentioned_files(alloc) else {
        return String::from_str(alloc, " out of memory");
    };
    let mut note = String::new(alloc);
    for file in &files {
        note.push_str(mention_note(alloc, *file)?.as_str())?;
    }
    Ok(note)
}

/// Returns a tree as it is printed.
fn tree_line(alloc: Global, tree: &FileTree) -> Result<String, AllocError> {
    let mut line = format!(in alloc; "{tree:?}")?;
    line.push_str(grammar_note(alloc, tree)?.as_str())?;
    line.push_str(mentions_note(alloc, tree)?.as_str())?;
    Ok(line)
}

/// Returns what is printed for a file.
fn answer_line(alloc: Global, bytes: &[u8]) -> Result<String, AllocError> {
    match tree_of(alloc, bytes) {
        Ok(tree) => tree_line(alloc, &tree),
        Err(fault) => fault_line(alloc, fault),
    }
}

/// Returns what is printed for a file that may declare anything.
fn sentence_line(alloc: Global, bytes: &[u8]) -> Result<String, AllocError> {
    match tree_of(alloc, bytes).map(|_| ()) {
        Ok(()) | Err(ParseFault::Clause(8)) => String::from_str(alloc, "sentence"),
        Err(fault) => fault_line(alloc, fault),
    }
}

/// Prints the answer to a row.
fn print_answer(to: &Answer, row: &Row) -> io::Result<()> {
    println!(to; "{}", answer_line(to.alloc(), row.bytes(0)?)?)
}

/// Prints whether the text of a row is a sentence.
fn print_sentence(to: &Answer, row: &Row) -> io::Result<()> {
    println!(to; "{}", sentence_line(to.alloc(), row.bytes(0)?)?)
}

fn main(rt: HostRuntime) -> io::Result<()> {
    compare_rows(&rt, "worked.txt", |to, row| print_answer(to, row))?;
    compare_rows(&rt, "sentences.txt", |to, row| print_answer(to, row))?;
    compare_rows(&rt, "neighbors.txt", |to, row| print_sentence(to, row))
}
