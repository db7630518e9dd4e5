//! Compares what calls return for rows: calls on texts of schema files, on names, on datatypes, on
//! expressions, and on what all crates share.
//!
//! The rows of each are in a file of their own. The module that reads them describes them.
#![tactic(auto)]

mod model_devices;
mod model_rows;
mod model_texts;
mod name_classes;
mod name_rows;
mod pattern_rows;
mod text_rows;
mod type_rows;
mod xsd_type_rows;

use std::io;

fn main(rt: HostRuntime) -> io::Result<()> {
    text_rows::compare(&rt)?;
    name_rows::compare(&rt)?;
    type_rows::compare(&rt)?;
    xsd_type_rows::compare(&rt)?;
    pattern_rows::compare(&rt)?;
    model_rows::compare(&rt)
}
