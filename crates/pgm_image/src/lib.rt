//! Grey images in the Netpbm project's PGM format (<https://netpbm.sourceforge.net/doc/pgm.html>),
//! `P5` and `P2`. docs/PGM.md has the rules.
#![tactic(auto)]

mod error;
mod header;
mod image;
pub mod laws;
mod plain;
mod raster;
mod reading;
mod signs;
mod words;
mod writing;

pub use byte_streams::{Sink, Watched};
pub use error::{PgmError, WriteError};
pub use image::{Image, MAXVAL_LIMIT, SAMPLE_LIMIT, SIDE_LIMIT};
pub use reading::read_image;
pub use signs::is_space;
pub use writing::{put_image, write_image};
