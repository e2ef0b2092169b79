//! The text of a key certificate, line by line.
//!
//! | line | text |
//! |---|---|
//! | the first | `maestro proof 1 <entries of the table> <bytes of a key> <sharded or locked>` |
//! | a row | `row <site> <site> <p or q> <input bit> <result bit>` |
//! | a key | `key <port> <80 or 104 hexadecimal digits>` |
//! | a bit that isn't the default key's | `not <port> <position>` |
//! | two trees, for this bit 0 and 1 | `split <port> <position>` |
//! | a contradiction, shown by one sum | `clash` |
//! | a span of zeros, shown by a sum a bit | `zero <port> <4 or 6>` |
//! | a sum | `sum`, and of each row ` r<row>` and of each bit ` b<port>.<position>` |
//!
//! Words stand one space apart, and each line ends by LF. A number is a decimal below 2^32 without
//! leading zeros; digits of a key are 0-9 and a-f.
#![tactic(auto)]

mod cut;
mod digit;
mod heading;
mod key;
mod line;
mod word;

pub use cut::next_line;
pub use heading::{Heading, Kind, heading_in};
pub use line::{line_in, span_of};
