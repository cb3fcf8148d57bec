//! The words that a program was given.

ghost use Rattle.std.specs.IoError.{error_kind};
ghost use Rattle.std.specs.Prelude.{◌≡◌, ◌≢◌, ℕ, IfOk, None, option_map, slice_get, string_bytes};
ghost use Rattle.std.specs.declared.io.ErrorKind.TheVariants.{InvalidData};
ghost use Rattle.words.specs.Statuses.{wordless_status};
ghost use Rattle.words.specs.declared.given.NoWords.TheVariants.{NoMemory, NoText};

use crate::refuse;
use page::Fault;
use std::alloc::{AllocError, Global};
use std::env;
use std::io::{self, ErrorKind, Write};
use std::rt::Env;

/// How many bytes of lines a program buffers before they go to standard error.
pub const ERROR_BUFFER_BYTES: usize = 8_192;

/// A word of Linux has fewer bytes than this, if a page of memory has 4,096.
const LONGEST_WORD: usize = 131_072;

/// Why there are no words.
#[derive(Debug, Drop)]
pub enum NoWords {
    /// The word at this place is not valid UTF-8; the program's name has the place 0. `None` if the
    /// place is not known.
    NoText(Option<usize>),
    /// Memory was refused.
    NoMemory,
}

impl From<AllocError> for NoWords {
    ghost from_gives = { λ _ why. why ≡ NoMemory };

    fn from(_e: AllocError) -> NoWords {
        NoWords::NoMemory
    }
}

impl From<io::Error> for NoWords {
    ghost from_gives = { λ error why. (error_kind error ≡ InvalidData → why ≡ NoText None)
        × (error_kind error ≢ InvalidData → why ≡ NoMemory) };

    fn from(error: io::Error) -> NoWords {
        match error.kind() {
            ErrorKind::InvalidData => NoWords::NoText(None),
            _ => NoWords::NoMemory,
        }
    }
}

impl NoWords {
    /// Prints the error and returns the status: 1 if memory was refused, 2 for a word that is not
    /// valid UTF-8, as for any line that is wrong. Fails if the message about such a word could not
    /// be printed.
    pub fn explain<E: Write>(&self, err: &mut E) -> io::Result<u8>
        ensures { IfOk result (λ status. status ≡ wordless_status self.now) }
    {
        match self {
            NoWords::NoText(place) => {
                tell_no_text(*place, err)?;
                err.flush()?;
                Ok(2)
            }
            NoWords::NoMemory => Ok(refuse(Fault::NoResource, err)),
        }
    }
}

/// Prints that the word at this place is not valid UTF-8.
fn tell_no_text<E: Write>(place: Option<usize>, err: &mut E) -> io::Result<()> {
    match place {
        Some(place) => writeln!(
            err,
            "error: word {place} of the command line is no text (UTF-8)"
        ),
        None => writeln!(err, "error: a word of the command line is no text"),
    }
}

/// The place of the first word that is not valid UTF-8. `None` if memory is refused, or if a word
/// before it is longer than Linux allows.
fn place_without_text<R: Env + AllocGlobal>(rt: &R) -> Option<usize> {
    let mut buffer = vec![in rt.alloc(); 0; LONGEST_WORD].ok()?;
    for place in 0..usize::MAX {
        let length = rt.arg(place, &mut buffer).ok()?;
        if str::from_utf8(&buffer[..length]).is_err() {
            return Some(place);
        }
    }
    None
}

/// The words of the command line, each as text. The first is the program's name.
pub fn words_of<R: Env + AllocGlobal>(rt: &R) -> Result<Vec<String>, NoWords> {
    match env::args(rt) {
        Ok(words) => Ok(words.collect(rt.alloc())?),
        Err(error) => match NoWords::from(error) {
            NoWords::NoText(_) => Err(NoWords::NoText(place_without_text(rt))),
            NoWords::NoMemory => Err(NoWords::NoMemory),
        },
    }
}

/// The same words, borrowed, each at its place.
pub fn slices_of<'a>(alloc: Global, words: &'a [String]) -> Result<Vec<&'a str>, NoWords>
    ensures { IfOk result (λ slices. (k : ℕ) →
        option_map (λ s. s.now) (slice_get slices.items k)
        ≡ option_map string_bytes (slice_get words.now k)) }
{
    let slices = words.iter().map(|word| word.as_str()).collect(alloc)?;
    Ok(slices)
}
