// Compares what `rnc_text` returns for each row of `texts.txt`.
//
// A row is a call and bytes. For `decode` the decoded text is printed, for `cut` the tokens of that text, and for both
// the clause that is broken and its offset.
use case_rows::compare_rows;
use rnc_text::{Text, TextFault, read_text, tokens};
use std::io;
use std::rt::Files;

/// Compares the answers to the rows of `texts.txt`.
pub fn compare(rt: &(impl Files + Print + AllocGlobal)) -> io::Result<()> {
    compare_rows(
        rt,
        "texts.txt",
        |to, row| print_answer(to, row.text(0)?, row.bytes(1)?),
    )
}

/// Prints what a call returns for bytes.
fn print_answer(rt: &(impl Print + AllocGlobal), call: &str, bytes: &[u8]) -> io::Result<()> {
    match read_text(rt.alloc(), bytes) {
        Ok(text) if call == "cut" => print_tokens(rt, &text),
        Ok(text) => println!(rt; "{text:?}"),
        Err(fault) => print_fault(rt, fault),
    }
}

/// Prints the tokens of a text in order, each with its kind, its text and its span.
fn print_tokens(rt: &(impl Print + AllocGlobal), text: &Text) -> io::Result<()> {
    match tokens(rt.alloc(), text) {
        Ok(tokens) => {
            let count = tokens.len();
            print!(rt; "{count} tokens:")?;
            for token in tokens {
                print!(rt;
                    " {:?} {:?} {}..{};",
                    token.kind, token.text, token.start, token.end
                )?;
            }
            println!(rt;)
        }
        Err(fault) => print_fault(rt, fault),
    }
}

/// Prints a clause and its offset.
fn print_fault(rt: &impl Print, fault: TextFault) -> io::Result<()> {
    match fault {
        TextFault::At { clause, offset } => println!(rt; "{clause} at {offset}"),
        TextFault::Memory => println!(rt; "out of memory"),
    }
}
