// The words of lines, each as the number of its first four letters, of which a blank is one where it has three.
pub const DOOR: u32 = 0x646f_6f72;

pub const ROLE: u32 = 0x726f_6c65;

pub const TEPS: u32 = 0x5445_5073;

pub const TEP: u32 = 0x5445_5020;

pub const RESUMING: u32 = 0x7265_7375;

pub const AREA: u32 = 0x6172_6561;

pub const MANDATORY: u32 = 0x6d61_6e64;

pub const IDENTIFIER: u32 = 0x6964_656e;

pub const OFFER: u32 = 0x6f66_6665;

pub const ANSWER: u32 = 0x616e_7377;

pub const RESEND: u32 = 0x7265_7365;

pub const RESULT: u32 = 0x7265_7375;

pub const STORE: u32 = 0x7374_6f72;

pub const FORGET: u32 = 0x666f_7267;

pub const SYN: u32 = 0x5359_4e20;

pub const ACK: u32 = 0x4143_4b20;

pub const WRITE: u32 = 0x7772_6974;

pub const INIT: u32 = 0x496e_6974;

pub const CIPHERS: u32 = 0x6369_7068;

pub const TAKEN: u32 = 0x7461_6b65;

pub const OFFERED: u32 = 0x6f66_6665;

pub const NONCE: u32 = 0x6e6f_6e63;

pub const KEY: u32 = 0x6b65_7920;

pub const INTO: u32 = 0x696e_746f;

pub const AES128: u32 = 0x3030_3031;

pub const AES256: u32 = 0x3030_3032;

pub const CHACHA20: u32 = 0x3030_3130;

pub const BYTES: u32 = 0x6279_7465;

pub const HEADER: u32 = 0x6865_6164;

pub const OFFSET: u32 = 0x6f66_6673;

pub const LENGTH: u32 = 0x6c65_6e67;

pub const FIXED: u32 = 0x6669_7865;

pub const FRAME: u32 = 0x6672_616d;

pub const PLAINTEXT: u32 = 0x706c_6169;

pub const DATA: u32 = 0x6461_7461;

pub const FIN: u32 = 0x6669_6e20;

pub const URG: u32 = 0x7572_6720;

pub const URGENT: u32 = 0x7572_6765;

pub const SEND: u32 = 0x7365_6e64;

pub const RECEIVE: u32 = 0x7265_6365;

pub const REKEY: u32 = 0x7265_6b65;

pub const LEND: u32 = 0x6c65_6e64;

pub const LOCAL: u32 = 0x6c6f_6361;

pub const REMOTE: u32 = 0x7265_6d6f;

pub const LAST: u32 = 0x6c61_7374;

pub const START: u32 = 0x7374_6172;

pub const FEED: u32 = 0x6665_6564;

pub const POSITION: u32 = 0x706f_7369;

pub const FIRST: u32 = 0x6669_7273;

pub const SECOND: u32 = 0x7365_636f;

pub const STAGE: u32 = 0x7374_6167;
