//! Rows of cases, for the programs that call a crate on data and compare what it returns.
//!
//! A file of cases has one row per line, with its fields separated by tabs. Empty lines and lines that begin with `#`
//! are not rows. In a field `%` with two hexadecimal digits is a byte, so a field can hold any bytes.
//!
//! The last field of a row is its answer: `= ` and what the program is to print for the row, without the last line feed.
//! An answer of several lines has `%0A` between them, and an empty answer is `=` alone. A file of cases may also hold
//! rows without answers, which other rows are about.
//!
//! `compare_rows` compares each row of a file with its answer. A program prints only the rows that differ, each with its
//! file and line, and how many rows of each file were compared: `cases.txt: 70 rows`. So its `stdout` has these counts,
//! and nothing passes that compares no rows.
#![tactic(auto)]

mod answer;
mod comparison;
mod devices;
mod file;
mod row;
mod schema_files;

pub use answer::Answer;
pub use comparison::{Comparison, compare_rows};
pub use devices::{Pace, Sink, Source};
pub use file::rows;
pub use row::Row;
pub use schema_files::files_of;
