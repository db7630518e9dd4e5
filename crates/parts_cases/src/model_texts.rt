// Characters, names and blanks.
use rng_model::{
    OutOfMemory, Pieces, collapse, is_name_char, is_name_start, is_ncname, is_xml_char,
    split_blanks,
};
use std::io;

/// Prints what a call returns for a text. A test of characters prints `y` or `n` for each.
pub fn print_answer(rt: &(impl Print + AllocGlobal), call: &str, text: &str) -> io::Result<()> {
    match call {
        "collapse" => print_collapsed(rt, text),
        "split" => print_split(rt, text),
        "pieces" => print_pieces(rt, text),
        "ncname" => println!(rt; "{}", is_ncname(text)),
        _ => print_characters(rt, call, text),
    }
}

/// Prints which characters of a text a test takes.
fn print_characters(rt: &impl Print, call: &str, text: &str) -> io::Result<()> {
    for c in text.chars() {
        let taken = match call {
            "xml_char" => is_xml_char(c),
            "name_start" => is_name_start(c),
            _ => is_name_char(c),
        };
        print!(rt; "{}", if taken { "y" } else { "n" })?;
    }
    println!(rt;)
}

/// Prints a text with its blanks collapsed.
fn print_collapsed(rt: &(impl Print + AllocGlobal), text: &str) -> io::Result<()> {
    match collapse(rt.alloc(), text) {
        Ok(collapsed) => println!(rt; "[{collapsed}]"),
        Err(OutOfMemory) => println!(rt; "out of memory"),
    }
}

/// Prints the pieces of a text, all split off at once.
fn print_split(rt: &(impl Print + AllocGlobal), text: &str) -> io::Result<()> {
    match split_blanks(rt.alloc(), text) {
        Ok(pieces) => {
            for piece in pieces {
                print!(rt; "[{piece}]")?;
            }
            println!(rt;)
        }
        Err(OutOfMemory) => println!(rt; "out of memory"),
    }
}

/// Prints the pieces of a text one by one.
fn print_pieces(rt: &impl Print, text: &str) -> io::Result<()> {
    for piece in Pieces::new(text) {
        print!(rt; "[{piece}]")?;
    }
    println!(rt;)
}
