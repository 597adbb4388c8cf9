// What both writers of Init messages test: whether TEP, nonce and key fit each other, and whether Init1 may list the ciphers.
#![tactic(auto)]

ghost use Rattle.std.specs.Prelude.{◌≡◌};
ghost use Rattle.init_layout.specs.Writing.{parts_fit, ciphers_fit};

use eno::Tep;

// How long a nonce is.
const NONCE: usize = 32;

// How many ciphers an Init1 lists.
const LEAST: usize = 1;

const MOST: usize = 255;

// Whether TEP, nonce and key fit each other.
pub fn parts_fit(tep: u8, nonce: &[u8], key: &[u8]) -> bool
    ensures { result ≡ parts_fit tep nonce.now key.now }
{
    let long = Tep::key_length_of(tep);
    long != 0 && nonce.len() == NONCE && key.len() == long
}

// Whether Init1 may list these ciphers: 1 to 255, none of them 0000.
pub fn ciphers_fit(ciphers: &[u16]) -> bool
    ensures { result ≡ ciphers_fit ciphers.now }
{
    LEAST <= ciphers.len() && ciphers.len() <= MOST && !init_listed::is_in(ciphers, 0x0000)
}
