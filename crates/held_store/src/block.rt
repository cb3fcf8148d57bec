//! Which of the kept bytes are those of an image.

/// An image without the zeros at its end: which of the kept bytes it begins with.
#[derive(Clone, Copy)]
pub struct Block {
    /// How many bytes are kept before those of the image.
    pub start: usize,
    /// How many bytes of the image are kept. The others are zeros.
    pub kept: usize,
}
