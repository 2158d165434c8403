//! The command that puts the rows of a file into the service register.
//!
//! Begin with [`import_file`]: the site first, then the file, then its rows. `TakesFile` of specs/Imports says what
//! comes of a file and what the register keeps then, by the bytes under the file's name; `import_text` and
//! `import_status` of specs/Endings say what is told of it. Whatever ends an import before its last row is put, the
//! same call completes it: `imports_are_completed` of register_import is that law.
//!
//! The file and its rows are held in memory; nothing of a file that is refused reaches the register.
#![tactic(auto)]

mod command;
mod ending;
mod import_stop;
mod lines;

pub use command::import_file;
