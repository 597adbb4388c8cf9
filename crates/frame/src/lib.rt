// Encryption frames: headers, offsets, frame IDs, nonces and plaintexts, for any bytes and any lent buffer: the calls and what they answer.
#![tactic(auto)]

pub use frame_header::{read_header, write_header};
pub use frame_layout::{
    Header, HeaderReadRefusal, HeaderWriteRefusal, OtherLength, Plaintext, PlaintextWriteRefusal,
    TooShort,
};
pub use frame_nonce::{frame_id, nonce};
pub use frame_offset::next_offset;
pub use frame_plaintext::{read_plaintext, write_plaintext};
