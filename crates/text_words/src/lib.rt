// Words of text in lent buffers: where they stand, the numbers and bytes that they say, and numbers and bytes written. Total for any place of any slice.
#![tactic(auto)]

pub use text_decimal_reader::number_said;
pub use text_decimal_writer::put_number;
pub use text_hex_digits::byte_said;
pub use text_hex_reader::bytes_said;
pub use text_hex_writer::put_hex;
pub use text_parts::{between, first, from};
pub use text_places::{place_of, word, word_end};
pub use text_put::put;
