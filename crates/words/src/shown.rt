//! Text with words of the command line in it, as a terminal may show it.

use std::fmt;
use std::io::{self, Write};

/// Whether a terminal obeys or hides a character other than a line end. `{:?}` escapes such a
/// character, and it is neither a quote nor a backslash.
fn is_hidden(character: char) -> bool {
    match character {
        '\n' | '"' | '\'' | '\\' => false,
        _ => character.escape_debug().next() == Some('\\'),
    }
}

/// Prints one character, escaped if it is hidden.
fn print_character<E: Write>(character: char, err: &mut E) -> io::Result<()> {
    if is_hidden(character) {
        write!(err, "{}", character.escape_debug())
    } else {
        write!(err, "{character}")
    }
}

/// Prints what is written to it.
#[derive(Drop)]
struct Shown<'e, E> {
    err: &'e mut E,
}

impl<'e, E: Write> Shown<'e, E> {
    /// Prints a text, with the hidden characters in it escaped.
    fn print(&mut self, text: &str) -> io::Result<()> {
        if !text.chars().any(is_hidden) {
            return self.err.write_all(text.as_bytes());
        }
        for character in text.chars() {
            print_character(character, self.err)?;
        }
        Ok(())
    }
}

impl<'e, E: Write> fmt::Write for Shown<'e, E> {
    fn write_str(&mut self, text: &str) -> fmt::Result {
        self.print(text).map_err(|_| fmt::Error)
    }
}

/// Prints a text of several lines and flushes it. Characters that a terminal obeys or hides are
/// escaped as `{:?}` escapes them; line ends, quotes and backslashes stay.
pub(crate) fn print_shown<T: fmt::Display, E: Write>(text: &T, err: &mut E) -> io::Result<()> {
    let mut shown = Shown { err };
    match fmt::Write::write(&mut shown, text) {
        Ok(()) => err.flush(),
        Err(_) => Err(io::Error::from(io::ErrorKind::Other)),
    }
}
