//! Cases worked by hand, and the code of README.

mod cases;
mod readme;
