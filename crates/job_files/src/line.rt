//! The line that says why a file failed.

use crate::noted::{Failure, Notes};
use std::fmt;
use std::io::Write;

/// A file as it is named in a line: its role in the job, and its path in quotes.
#[derive(Drop)]
pub struct Name<'n, 'a>(pub &'n Notes<'a>);

impl<'n, 'a> fmt::Display for Name<'n, 'a> {
    fn fmt<W: fmt::Write>(&self, f: &mut fmt::Formatter<W>) -> fmt::Result {
        let (role, path) = (self.0.role, self.0.path);
        write!(f, "the {role} {path:?}")
    }
}

/// Prints which call on a file failed and what the system reported, or why the file was refused. The
/// line begins with the name of the program. A print that fails does not count.
fn tell<E: Write>(program: &str, file: &Notes, failure: Failure, err: &mut E) {
    let name = Name(file);
    let _ = match failure {
        Failure::Call(call, error) => writeln!(err, "{program}: {call} {name}: {error}"),
        Failure::Refused(refusal) => writeln!(err, "{program}: {name} {refusal}"),
    };
}

/// Prints what about a file ended the job, if anything has. Returns whether something has.
pub fn tell_failure<E: Write>(program: &str, file: &Notes, err: &mut E) -> bool {
    let Some(failure) = file.failure() else {
        return false;
    };
    tell(program, file, failure, err);
    true
}

/// Prints which call on a file failed without ending the job, if one has.
pub fn tell_let_pass<E: Write>(program: &str, file: &Notes, err: &mut E) {
    if let Some(failure) = file.let_pass() {
        tell(program, file, failure, err);
    }
}
