// Compares what `rng_model` returns for each row of `model.txt`.
//
// A row is a call and its argument. `reads` and `writes` count the failed calls of working devices and of broken ones. The
// other calls are calls on texts.
use crate::{model_devices, model_texts};
use case_rows::compare_rows;
use std::io;
use std::rt::Files;

/// Compares the answers to the rows of `model.txt`.
pub fn compare(rt: &(impl Files + Print + AllocGlobal)) -> io::Result<()> {
    compare_rows(
        rt,
        "model.txt",
        |to, row| print_answer(to, row.text(0)?, row.text(1)?),
    )
}

/// Prints what a call returns.
fn print_answer(rt: &(impl Print + AllocGlobal), call: &str, of: &str) -> io::Result<()> {
    match call {
        "reads" => model_devices::print_reads(rt, of),
        "writes" => model_devices::print_writes(rt, of),
        _ => model_texts::print_answer(rt, call, of),
    }
}
