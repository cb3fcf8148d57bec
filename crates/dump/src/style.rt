//! How a line is written.

/// How a line is written.
#[derive(Clone, Copy, Debug, PartialEq, Eq)]
pub enum Style {
    /// As text for people: `8: update, LSN 1, transaction 1, ..`.
    Text,
    /// As an object of JSON: `{"offset":8,"kind":"update","LSN":1,"transaction":1,..}`.
    Json,
}
