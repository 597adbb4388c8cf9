// Init1 and Init2 of tcpcrypt, written and read: the calls and what they answer.
#![tactic(auto)]

pub use init_layout::{Enabled, InitMessage, InitRefusal, InitWriteRefusal};
pub use init_reader::{init1_read, init2_read};
pub use init1_writer::init1_write;
pub use init2_writer::init2_write;
