// Init2, written.
#![tactic(auto)]

ghost use Rattle.std.specs.Prelude.{◌≡◌};
ghost use Rattle.eno.specs.Option.{written_as};
ghost use Rattle.init_layout.specs.Writing.{write_init2};
ghost use Rattle.init_layout.specs.Answers.{writing_of};

use init_layout::InitWriteRefusal;

// The number that names no cipher.
const VOID: u16 = 0x0000;

// Init2: the cipher that B takes, its nonce and its public key. Answers how many bytes were written.
pub fn init2_write(
    tep: u8,
    cipher: u16,
    nonce: &[u8],
    key: &[u8],
    out: &mut [u8],
) -> Result<usize, InitWriteRefusal>
    ensures { written_as (writing_of result) out.new ≡ write_init2 tep cipher nonce.now key.now out.old }
{
    if !init_writing::parts_fit(tep, nonce, key) || cipher == VOID {
        return Err(InitWriteRefusal::Unfit);
    }
    let whole = 42 + key.len();
    if out.len() < whole {
        return Err(InitWriteRefusal::NoRoom);
    }
    let length = whole as u32;
    wire::copy(out, 0, b"\x09\x71\x05\xe0");
    wire_numbers::write_u32(out, 4, length);
    wire_numbers::write_u16(out, 8, cipher);
    wire::copy(out, 10, nonce);
    wire::copy(out, 42, key);
    Ok(whole)
}
