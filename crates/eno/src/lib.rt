// What the crates over TCP-ENO options share: the TEPs that the unit knows, the way in which one is valid, the session record, and the cause of plain TCP.
#![tactic(auto)]

ghost use Rattle.std.specs.Prelude.{◌≡◌, is_some};
ghost use Rattle.eno.specs.Tep.{is_known, key_length, name_of, tep_of};
ghost use Rattle.eno.specs.Cause.{numbered};

// A TCP encryption protocol (TEP) that the unit knows.
#[derive(Clone, Copy, PartialEq, Eq)]
pub enum Tep {
    P256,
    P521,
    Curve25519,
    Curve448,
}

impl Tep {
    pub const CURVE25519_KEY: usize = 32;

    pub const CURVE448_KEY: usize = 56;

    // The TEP with a name, which is its byte without the bit v, if the unit knows one.
    #[tactic(auto, unfolding(crate::specs::Tep::is_known, crate::specs::Tep::tep_of))]
    pub fn of(name: u8) -> Option<Tep>
        ensures named { result ≡ tep_of name }
        ensures known { is_some result ≡ is_known name }
    {
        match name {
            0x21 => Some(Tep::P256),
            0x22 => Some(Tep::P521),
            0x23 => Some(Tep::Curve25519),
            0x24 => Some(Tep::Curve448),
            _ => None,
        }
    }

    // How long the public key is of the TEP with a name; 0 where the host reads the Init messages, and where the unit knows none.
    #[tactic(auto, unfolding(crate::specs::Tep::tep_of, crate::specs::Tep::key_length))]
    pub fn key_length_of(name: u8) -> usize
        ensures { result ≡ key_length name }
    {
        Tep::of(name).map_or(0, Tep::key_length)
    }

    // How long its public key is; 0 where the host reads the Init messages.
    #[tactic(auto, unfolding(crate::specs::Tep::key_length))]
    pub fn key_length(self) -> usize
        ensures { result ≡ key_length (name_of self) }
    {
        match self {
            Tep::Curve25519 => Tep::CURVE25519_KEY,
            Tep::Curve448 => Tep::CURVE448_KEY,
            Tep::P256 | Tep::P521 => 0,
        }
    }
}

// How a connection is keyed: by a fresh key exchange, or by a session that is resumed.
#[derive(Clone, Copy, PartialEq, Eq)]
pub enum Way {
    Fresh,
    Resumed,
}

// A session that may be resumed.
#[repr(C)]
#[derive(Clone, Copy)]
pub struct SessionRecord {
    pub tep: u8,
    // 0 where this end was host A, else host B.
    pub role: u8,
    pub identifier: [u8; 18],
    pub secret: [u8; 32],
}

// The session that a connection proposes to resume, if any ("the record in hand").
#[repr(C)]
#[derive(Clone, Copy)]
pub struct InHand {
    pub held: bool,
    pub session: SessionRecord,
}

// Why a connection is plain TCP: document 01's reason and, of an unreadable area (1), where the option stands that makes it so, and its kind; else zeros.
#[repr(C)]
#[derive(Clone, Copy)]
pub struct Cause {
    pub reason: u8,
    pub place: u8,
    pub kind: u8,
}

impl Cause {
    // A reason that has no place; the reason 0 stands where there is none.
    pub fn numbered(reason: u8) -> Cause
        ensures { result ≡ numbered reason }
    {
        Cause {
            reason,
            place: 0,
            kind: 0,
        }
    }
}
