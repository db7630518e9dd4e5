// The fault of a schema, printed.
use rng_model::SchemaFault;
use std::io;

/// Prints which clause is broken, and the file that breaks it by itself.
pub fn print_fault(rt: &impl Print, fault: SchemaFault) -> io::Result<()> {
    match fault {
        SchemaFault::File { clause, name } => println!(rt; "S{clause} {name}"),
        SchemaFault::Clause(clause) => println!(rt; "S{clause}"),
        SchemaFault::Memory => println!(rt; "out of memory"),
    }
}
