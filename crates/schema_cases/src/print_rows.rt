// Compares the text of the simple grammar of the files in each row of `print.txt`, or the clause that the files break. Then
// the answer says whether that text, read as a schema of one file, is printed as the same text.
//
// A row has a request, and files: the name of each, a text, and how often the text is repeated in it. Consecutive texts
// with the same name are one file. In each text `^` is its number, from 0, and `^+` the next one. The first file is the
// main one. The request `text` prints the whole text, and `end` the number of its lines and the last line. The request
// `again` only prints whether the same text is printed for it, and `written` only the results of printing the grammar to
// writers. A row of `table` has no files, but the number of elements of a grammar and its tables, as `written_grammars`
// reads them. For it the whole text is printed.
use crate::faults::print_fault;
use crate::writers::print_to_writers;
use case_rows::{Row, compare_rows, files_of};
use rnc_print::printed_text;
use rng_model::{SchemaFault, SimpleGrammar};
use simple_forms::simplified;
use std::alloc::Global;
use std::io;
use std::rt::Files;
use written_grammars::read_grammar;

/// Compares the answers to the rows of `print.txt`.
pub fn compare(rt: &(impl Files + Print + AllocGlobal)) -> io::Result<()> {
    compare_rows(rt, "print.txt", |to, row| print_case(to, row))
}

/// Prints what is requested of the text of a row's files.
fn print_case(rt: &(impl Print + AllocGlobal), row: &Row) -> io::Result<()> {
    if row.text(0)? == "table" {
        return print_table(rt, row.text(1)?, row.text(2)?);
    }
    let files = files_of(rt.alloc(), row)?;
    match row.text(0)? {
        "written" => print_written(rt, files.as_slice(), row.text(1)?),
        asked => print_asked(rt, asked, files.as_slice(), row.text(1)?),
    }
}

/// Prints the text of the grammar with these tables, and whether it is printed as the same text.
fn print_table(rt: &(impl Print + AllocGlobal), count: &str, tables: &str) -> io::Result<()> {
    let Some(grammar) = read_grammar(rt.alloc(), count, tables) else {
        return println!(rt; "no grammar, or out of memory");
    };
    print_answer(rt, "text", text_of_grammar(rt.alloc(), &grammar))
}

/// Prints the results of printing the simple grammar of files to writers.
fn print_written(
    rt: &(impl Print + AllocGlobal),
    files: &[(String, Vec<u8>)],
    main: &str,
) -> io::Result<()> {
    match simplified(rt.alloc(), files, main) {
        Ok(grammar) => print_to_writers(rt, &grammar),
        Err(fault) => print_fault(rt, fault),
    }
}

/// Prints what is requested of the text of files, and whether that text is printed as the same text.
fn print_asked(
    rt: &(impl Print + AllocGlobal),
    asked: &str,
    files: &[(String, Vec<u8>)],
    main: &str,
) -> io::Result<()> {
    print_answer(rt, asked, text_of_files(rt.alloc(), files, main))
}

/// Prints what is requested of a text, and whether it is printed as the same text; or the fault.
fn print_answer(
    rt: &(impl Print + AllocGlobal),
    asked: &str,
    answer: Result<String, SchemaFault>,
) -> io::Result<()> {
    match answer {
        Ok(text) => {
            print_text(rt, asked, text.as_str())?;
            print_again(rt, text.as_str())
        }
        Err(fault) => print_fault(rt, fault),
    }
}

/// Prints a text, or the number of its lines and the last line, or nothing.
fn print_text(rt: &impl Print, asked: &str, text: &str) -> io::Result<()> {
    match asked {
        "text" => print!(rt; "{text}"),
        "end" => {
            let count = text.lines().count();
            let last = text.lines().last().unwrap_or("");
            println!(rt; "{count} lines, the last: {last}")
        }
        _ => Ok(()),
    }
}

/// Prints whether the schema of a text is printed as the same text, and if not, what is printed instead.
fn print_again(rt: &(impl Print + AllocGlobal), text: &str) -> io::Result<()> {
    let name = String::from_str(rt.alloc(), "s.rnc")?;
    let bytes = Vec::from_slice(rt.alloc(), text.as_bytes())?;
    match text_of_files(rt.alloc(), &[(name, bytes)], "s.rnc") {
        Ok(again) if again.as_str() == text => println!(rt; "again: same"),
        Ok(again) => println!(rt; "again: {again}"),
        Err(fault) => print_fault(rt, fault),
    }
}

/// Returns the text of the simple grammar of the schema of some files.
fn text_of_files(
    alloc: Global,
    files: &[(String, Vec<u8>)],
    main: &str,
) -> Result<String, SchemaFault> {
    text_of_grammar(alloc, &simplified(alloc, files, main)?)
}

/// Returns the text of a grammar.
fn text_of_grammar(alloc: Global, grammar: &SimpleGrammar) -> Result<String, SchemaFault> {
    let bytes = printed_text(alloc, grammar).map_err(|_| SchemaFault::Memory)?;
    String::from_utf8(bytes).map_err(|_| SchemaFault::Memory)
}
