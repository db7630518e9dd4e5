//! Compares what the calls on schemas return, for the rows of seven files: what files load to, where a file breaks a clause,
//! where its datatypes break one, which names it mentions, the simple form of files, the restriction that a simple grammar
//! breaks, and the printed text of a simple grammar.
//!
//! The module that compares the rows of a file describes them.
#![tactic(auto)]

mod classes;
mod datatype_rows;
mod elements;
mod faults;
mod forms;
mod grammars;
mod load_rows;
mod mention_rows;
mod nested;
mod patterns;
mod place_rows;
mod print_rows;
mod rule_rows;
mod schema_patterns;
mod simple_rows;
mod writers;

use std::io;

fn main(rt: HostRuntime) -> io::Result<()> {
    load_rows::compare(&rt)?;
    place_rows::compare(&rt)?;
    datatype_rows::compare(&rt)?;
    mention_rows::compare(&rt)?;
    simple_rows::compare(&rt)?;
    rule_rows::compare(&rt)?;
    print_rows::compare(&rt)
}
