//! The command that judges a written text by the record of its run.
//!
//! Begin with [`audit_files`]: the site first, then the record's file, then the text's, then the verdict.
//! `AuditsFiles` of specs/Audits says what comes of two files, by the bytes under their names; `audit_text` and
//! `audit_status` of specs/Endings say what is told of it. What the verdict means stands in audit_rules.
//!
//! Both files are held in memory. Nothing is run, and nothing but the verdict is written.
#![tactic(auto)]

mod audit_stop;
mod command;
mod ending;
mod lines;

pub use command::audit_files;
