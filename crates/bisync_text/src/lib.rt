//! Texts and paths.
#![tactic(auto)]

mod civil_times;
mod decimals;
mod digits;
mod durations;
mod memory;
mod order;
mod path;
mod quoted_bytes;
mod quotes;
mod text;
mod times;
mod unquotes;

pub use decimals::{decimals_have_one_text, read_decimal};
pub use durations::read_duration;
pub use memory::OutOfMemory;
pub use path::{Path, PathFault, last_parts_are_unique};
pub use quoted_bytes::QuotedByte;
pub use quotes::{quote, quoted_texts_are_apart, quoted_texts_are_graphic};
pub use text::Text;
pub use times::{read_time, time_text, times_have_one_text};
pub use unquotes::{QuoteFault, unquote};
