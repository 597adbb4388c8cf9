// Init1, written.
#![tactic(auto)]

ghost use Rattle.std.specs.Prelude.{◌≡◌};
ghost use Rattle.wire.specs.Bytes.{pasted};
ghost use Rattle.eno.specs.Option.{written_as};
ghost use Rattle.init_layout.specs.Layout.{cipher_bytes};
ghost use Rattle.init_layout.specs.Writing.{write_init1};
ghost use Rattle.init_layout.specs.Answers.{writing_of};

use init_layout::InitWriteRefusal;

// Writes ciphers from the place `at` on, two bytes each, or nothing where they do not fit.
pub fn put_ciphers(s: &mut [u8], at: usize, ciphers: &[u16])
    ensures { s.new ≡ pasted s.old at (cipher_bytes ciphers.now) }
{
    if s.len() < at || (s.len() - at) / 2 < ciphers.len() {
        return;
    }
    for (i, cipher) in ciphers.iter().enumerate() {
        wire_numbers::write_u16(s, at + 2 * i, *cipher);
    }
}

// Init1: the ciphers that A offers, in its order of preference, its nonce and its public key. Answers how many bytes were written.
pub fn init1_write(
    tep: u8,
    ciphers: &[u16],
    nonce: &[u8],
    key: &[u8],
    out: &mut [u8],
) -> Result<usize, InitWriteRefusal>
    ensures { written_as (writing_of result) out.new ≡ write_init1 tep ciphers.now nonce.now key.now out.old }
{
    if !init_writing::parts_fit(tep, nonce, key) || !init_writing::ciphers_fit(ciphers) {
        return Err(InitWriteRefusal::Unfit);
    }
    let at = 9 + 2 * ciphers.len();
    let behind = at + 32;
    let n = behind + key.len();
    if out.len() < n {
        return Err(InitWriteRefusal::NoRoom);
    }
    let length = n as u32;
    let count = ciphers.len() as u8;
    wire::copy(out, 0, b"\x15\x10\x1a\x0e");
    wire_numbers::write_u32(out, 4, length);
    wire::copy(out, 8, &[count]);
    put_ciphers(out, 9, ciphers);
    wire::copy(out, at, nonce);
    wire::copy(out, behind, key);
    Ok(n)
}
