//! Listing texts, versions 1 and 2. The format is this project's own.
#![tactic(auto)]

mod faults;
mod file_lines;
mod file_words;
mod headers;
mod laws;
mod line_buffers;
mod lines;
mod listed_rows;
mod marked_lines;
mod paths;
mod pending;
mod progress;
mod readers;
#[cfg(test)]
mod tests;
mod texts;
mod words;
mod writers;
mod written_lines;

pub use faults::ListingFault;
pub use headers::Header;
pub use laws::{first_bad_lines_are_unique, listing_texts_are_apart, settled_bad_lines_stay};
pub use readers::ListingReader;
pub use texts::{read_listing, text_len, write_listing};
pub use writers::ListingWriter;
