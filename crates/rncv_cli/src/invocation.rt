// What the command line asks for.

use rncv_run::Command;

/// What the words after the program's name ask for.
#[derive(Drop)]
pub struct Words {
    /// What to do with the files.
    pub command: Command,
    /// The names of the files as they were given: the main file first, then the others in order, with repeats.
    pub files: Vec<String>,
}
