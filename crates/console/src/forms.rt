// The forms of lines: the name and the words of each, and of what kind each word is.
use Kind::{Bytes, Cipher, Ciphers, Enabled, Flag, Lent, Number, Octet, Record, Short, Small};

// What a word is.
#[derive(Clone, Copy, PartialEq, Eq)]
pub enum Kind {
    // A number below 2^64, to 65,535 or to 255.
    Number,
    Short,
    Small,
    // 0 or 1.
    Flag,
    // Two hex digits.
    Octet,
    Cipher,
    Ciphers,
    // Ciphers that can be enabled.
    Enabled,
    Record,
    Bytes,
    // The lent buffer, which is the last word of its form.
    Lent,
}

#[derive(Clone, Copy, PartialEq, Eq)]
pub enum Form {
    Offer,
    Answer,
    Receive,
    Resend,
    Result,
    Close,
    Store,
    Forget,
    Count,
    Erase,
    Find,
    Init1Write,
    Init1Read,
    Init2Write,
    Init2Read,
    HeaderWrite,
    HeaderRead,
    Nonce,
    PlaintextWrite,
    PlaintextRead,
    Generation,
    Send,
    Initiate,
    Take,
    Owed,
    Judge,
    JudgePlainly,
    PiecesInit1,
    PiecesInit2,
    PiecesFrames,
    Feed,
    Help,
}

// Each form, its name and words as help writes them, and the kinds of the words behind the name.
pub static FORMS: [(Form, &[u8], &[Kind]); 32] = [
    (
        Form::Offer,
        b"offer DOOR B A MANDATORY TEPS RESUME NONCE BUF",
        &[Number, Small, Flag, Flag, Bytes, Flag, Bytes, Lent],
    ),
    (
        Form::Answer,
        b"answer DOOR AREA A MANDATORY TEPS NONCE BUF",
        &[Number, Bytes, Flag, Flag, Bytes, Bytes, Lent],
    ),
    (
        Form::Receive,
        b"receive DOOR SYN ACK AREA",
        &[Number, Flag, Flag, Bytes],
    ),
    (Form::Resend, b"resend DOOR BUF", &[Number, Lent]),
    (Form::Result, b"result DOOR BUF", &[Number, Lent]),
    (Form::Close, b"close DOOR", &[Number]),
    (
        Form::Store,
        b"store DOOR TEP ROLE IDENTIFIER SECRET",
        &[Number, Octet, Small, Bytes, Bytes],
    ),
    (
        Form::Forget,
        b"forget DOOR TEP IDENTIFIER",
        &[Number, Octet, Bytes],
    ),
    (Form::Count, b"count DOOR", &[Number]),
    (Form::Erase, b"erase", &[]),
    (Form::Find, b"find SYN AREA", &[Flag, Bytes]),
    (
        Form::Init1Write,
        b"init1-write TEP CIPHERS NONCE KEY BUF",
        &[Octet, Ciphers, Bytes, Bytes, Lent],
    ),
    (
        Form::Init1Read,
        b"init1-read TEP ENABLED BYTES",
        &[Octet, Enabled, Bytes],
    ),
    (
        Form::Init2Write,
        b"init2-write TEP CIPHER NONCE KEY BUF",
        &[Octet, Cipher, Bytes, Bytes, Lent],
    ),
    (
        Form::Init2Read,
        b"init2-read TEP CIPHERS BYTES",
        &[Octet, Ciphers, Bytes],
    ),
    (
        Form::HeaderWrite,
        b"header-write REKEY LENGTH OFFSET BUF",
        &[Flag, Number, Number, Lent],
    ),
    (
        Form::HeaderRead,
        b"header-read OFFSET BYTES",
        &[Number, Bytes],
    ),
    (Form::Nonce, b"nonce OFFSET FIXED", &[Number, Bytes]),
    (
        Form::PlaintextWrite,
        b"plaintext-write FIN URG URGENT DATA BUF",
        &[Flag, Flag, Short, Bytes, Lent],
    ),
    (Form::PlaintextRead, b"plaintext-read BYTES", &[Bytes]),
    (
        Form::Generation,
        b"generation LOCAL REMOTE LAST FIN",
        &[Short, Short, Short, Flag],
    ),
    (Form::Send, b"send FIN", &[Flag]),
    (Form::Initiate, b"initiate DATA FIN", &[Flag, Flag]),
    (Form::Take, b"take REKEY", &[Flag]),
    (Form::Owed, b"owed", &[]),
    (
        Form::Judge,
        b"judge MANDATORY RECORD AREA AREA",
        &[Flag, Record, Bytes, Bytes],
    ),
    (
        Form::JudgePlainly,
        b"judge-plainly MANDATORY RECORD AREA AREA",
        &[Flag, Record, Bytes, Bytes],
    ),
    (
        Form::PiecesInit1,
        b"pieces-init1 TEP ENABLED",
        &[Octet, Enabled],
    ),
    (
        Form::PiecesInit2,
        b"pieces-init2 TEP CIPHERS",
        &[Octet, Ciphers],
    ),
    (Form::PiecesFrames, b"pieces-frames", &[]),
    (Form::Feed, b"feed BYTES", &[Bytes]),
    (Form::Help, b"help", &[]),
];
