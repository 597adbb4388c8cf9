// Init messages: written and read.
#![tactic(auto)]

ghost use Rattle.std.specs.Prelude.{◌≡◌};
ghost use Rattle.init_layout.specs.Writing.{write_init1, write_init2};
ghost use Rattle.init_layout.specs.Reading.{read_init1, read_init2};
ghost use Rattle.host_init_numbers.specs.Replies.{enabled_as, init_numbers, GivesInit};

use host_init_numbers::InitNumbers;
use host_reply::ReplyNumbers;
use init::Enabled;

// Init1: the ciphers that A offers, in its order of preference, its nonce and its public key.
#[unsafe(no_mangle)]
pub extern "C" fn door_link_init1_write(
    tep: u8,
    ciphers: &[u16],
    nonce: &[u8],
    key: &[u8],
    out: &mut [u8],
) -> ReplyNumbers
    ensures { GivesInit result out.new (write_init1 tep ciphers.now nonce.now key.now out.old) }
{
    let told = init::init1_write(tep, ciphers, nonce, key, out);
    host_init_numbers::writing_numbers(told)
}

// Init2: the cipher that B takes, its nonce and its public key.
#[unsafe(no_mangle)]
pub extern "C" fn door_link_init2_write(
    tep: u8,
    cipher: u16,
    nonce: &[u8],
    key: &[u8],
    out: &mut [u8],
) -> ReplyNumbers
    ensures { GivesInit result out.new (write_init2 tep cipher nonce.now key.now out.old) }
{
    let told = init::init2_write(tep, cipher, nonce, key, out);
    host_init_numbers::writing_numbers(told)
}

// Init1 as host B reads it: the first of its ciphers that B has enabled, its nonce and its key.
#[unsafe(no_mangle)]
pub extern "C" fn door_link_init1_read(
    tep: u8,
    aes128: bool,
    aes256: bool,
    chacha20: bool,
    bytes: &[u8],
) -> InitNumbers
    ensures { result ≡ init_numbers (read_init1 tep (enabled_as aes128 aes256 chacha20) bytes.now) }
{
    let enabled = Enabled {
        aes128,
        aes256,
        chacha20,
    };
    let told = init::init1_read(tep, enabled, bytes);
    host_init_numbers::init_numbers(told)
}

// Init2 as host A reads it, whose own Init1 offered the ciphers `own`: the cipher that B takes, its nonce and its key.
#[unsafe(no_mangle)]
pub extern "C" fn door_link_init2_read(tep: u8, own: &[u16], bytes: &[u8]) -> InitNumbers
    ensures { result ≡ init_numbers (read_init2 tep own.now bytes.now) }
{
    let told = init::init2_read(tep, own, bytes);
    host_init_numbers::init_numbers(told)
}
