// The unit's content in arrays of bytes that a host lends: where all stands, and a row's bytes, read and written. Any bytes are a unit.
#![tactic(auto)]

ghost use Rattle.std.specs.Prelude.{◌≡◌, ◌+◌, ◌≤◌, length, ◌++◌};
ghost use Rattle.wire.specs.Bytes.{bytes_from};
ghost use Rattle.unit_bytes.specs.Content.{record_in, row_of};

use eno::SessionRecord;

// The bytes of a word of marks.
pub const WORD: usize = 4;

// The bytes of a row: TEP, role, identifier and secret of a record, and where the last two begin.
pub const ROW: usize = 52;

const ROW_IDENTIFIER: usize = 2;

const ROW_SECRET: usize = 20;

// The bytes of a door: its numbers, the two options, identifier and secret of the record in hand, and where these four begin.
pub const PLACE: usize = 148;

pub const NUMBERS: usize = 18;

pub const OWN: usize = 18;

pub const PEER: usize = 58;

pub const IDENTIFIER: usize = 98;

pub const SECRET: usize = 116;

// Where the flags stand among the numbers of a door.
pub const MANDATORY: usize = 1;

pub const RESUMED: usize = 7;

pub const HELD: usize = 10;

// The N bytes from place `at` on; a byte past the end reads as 0.
#[tactic(auto, using(crate::proofs::Padded::padded))]
pub fn part_at<const N: usize>(bytes: &[u8], at: usize) -> [u8; N]
    ensures { result ≡ bytes_from N bytes.now at }
{
    let rest = &bytes[at.min(bytes.len())..];
    let n = N.min(rest.len());
    let mut part = [0; N];
    part[..n].copy_from_slice(&rest[..n]);
    part
}

// The record of a row.
pub fn record_of(row: [u8; ROW]) -> SessionRecord
    ensures { result ≡ record_in row }
{
    SessionRecord {
        tep: row[0],
        role: row[1],
        identifier: part_at(&row, ROW_IDENTIFIER),
        secret: part_at(&row, ROW_SECRET),
    }
}

// The pieces of a row, one behind the other.
fn row_with(head: [u8; 2], identifier: [u8; 18], secret: [u8; 32]) -> [u8; ROW]
    ensures { (result ≡ head ++ identifier ++ secret) × (length identifier ≡ 18) × (length secret ≡ 32) }
{
    let mut row = [0u8; ROW];
    wire::copy(&mut row, 0, &head);
    wire::copy(&mut row, ROW_IDENTIFIER, &identifier);
    wire::copy(&mut row, ROW_SECRET, &secret);
    row
}

// The bytes of a record, which read as that record.
pub fn row_of(session: SessionRecord) -> [u8; ROW]
    ensures { (result ≡ row_of session) × (record_in result ≡ session) }
{
    row_with(
        [session.tep, session.role],
        session.identifier,
        session.secret,
    )
}
