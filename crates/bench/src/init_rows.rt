// The rows on Init messages: written, and read by the other end, whole, in part and beyond repair.
use crate::run;
use std::io;
use std::io::Stdout;

fn curve25519(to: Stdout) -> io::Result<()> {
    run::table(
        to,
        b"\
Curve25519: Init1 with one cipher: 75 bytes
  write Init1 TEP 23 ciphers 00 01 nonce a0 .. bf key 40 .. 5f into 128 -> wrote 75: 15 10 1a 0e 00 00 00 4b 01 00 01 a0 .. bf 40 .. 5f
  write Init1 TEP 23 ciphers 00 01 nonce a0 .. bf key 40 .. 5f into 75 -> wrote 75: 15 10 1a 0e 00 00 00 4b 01 00 01 a0 .. bf 40 .. 5f
  write Init1 TEP 23 ciphers 00 01 nonce a0 .. bf key 40 .. 5f into 74 -> refused 5
  read Init1 TEP 23 enabled 0001 bytes 15 10 1a 0e 00 00 00 4b 01 00 01 a0 .. bf 40 .. 5f -> cipher 0001 count 1 length 75: a0 .. bf 40 .. 5f
  read Init1 TEP 23 enabled 0001 bytes 15 10 1a 0e 00 00 00 4b 01 00 01 a0 .. bf 40 .. 5f 00 00 11 -> cipher 0001 count 1 length 75: a0 .. bf 40 .. 5f
Curve25519: Init2: 74 bytes
  write Init2 TEP 23 taken 00 01 nonce a0 .. bf key 40 .. 5f into 128 -> wrote 74: 09 71 05 e0 00 00 00 4a 00 01 a0 .. bf 40 .. 5f
  write Init2 TEP 23 taken 00 01 nonce a0 .. bf key 40 .. 5f into 73 -> refused 5
  read Init2 TEP 23 offered 00 01 bytes 09 71 05 e0 00 00 00 4a 00 01 a0 .. bf 40 .. 5f -> cipher 0001 count 1 length 74: a0 .. bf 40 .. 5f
  read Init2 TEP 23 offered 00 02 00 01 bytes 09 71 05 e0 00 00 00 4a 00 01 a0 .. bf 40 .. 5f 00 00 11 -> cipher 0001 count 1 length 74: a0 .. bf 40 .. 5f
",
    )
}

fn curve448(to: Stdout) -> io::Result<()> {
    run::table(
        to,
        b"\
Curve448: Init1 with one cipher: 99 bytes; Init2: 98 bytes
  write Init1 TEP 24 ciphers 00 10 nonce a0 .. bf key 10 .. 47 into 128 -> wrote 99: 15 10 1a 0e 00 00 00 63 01 00 10 a0 .. bf 10 .. 47
  read Init1 TEP 24 enabled 0010 bytes 15 10 1a 0e 00 00 00 63 01 00 10 a0 .. bf 10 .. 47 -> cipher 0010 count 1 length 99: a0 .. bf 10 .. 47
  write Init2 TEP 24 taken 00 10 nonce a0 .. bf key 10 .. 47 into 128 -> wrote 98: 09 71 05 e0 00 00 00 62 00 10 a0 .. bf 10 .. 47
  read Init2 TEP 24 offered 00 10 bytes 09 71 05 e0 00 00 00 62 00 10 a0 .. bf 10 .. 47 -> cipher 0010 count 1 length 98: a0 .. bf 10 .. 47
",
    )
}

fn ciphers(to: Stdout) -> io::Result<()> {
    run::table(
        to,
        b"\
Init1 with two ciphers: the first that B has enabled
  write Init1 TEP 23 ciphers 00 10 00 01 nonce a0 .. bf key 40 .. 5f into 128 -> wrote 77: 15 10 1a 0e 00 00 00 4d 02 00 10 00 01 a0 .. bf 40 .. 5f
  read Init1 TEP 23 enabled 0001 0010 bytes 15 10 1a 0e 00 00 00 4d 02 00 10 00 01 a0 .. bf 40 .. 5f -> cipher 0010 count 2 length 77: a0 .. bf 40 .. 5f
  read Init1 TEP 23 enabled 0001 0002 bytes 15 10 1a 0e 00 00 00 4d 02 00 10 00 01 a0 .. bf 40 .. 5f -> cipher 0001 count 2 length 77: a0 .. bf 40 .. 5f
no common cipher: 10, after a full reading
  read Init1 TEP 23 enabled 0002 0010 bytes 15 10 1a 0e 00 00 00 4b 01 00 01 a0 .. bf 40 .. 5f -> refused 10
  read Init1 TEP 23 enabled 0002 bytes 15 10 1a 0e 00 00 00 4c 01 00 01 a0 .. bf 40 .. 5f -> refused 9
  read Init1 TEP 23 enabled 0002 bytes 15 10 1a 0e 00 00 00 4c 01 00 01 a0 .. bf 40 .. 5f 00 -> refused 10
  read Init1 TEP 23 enabled 0001 bytes 15 10 1a 0e 00 00 00 4c 01 00 01 a0 .. bf 40 .. 5f 00 -> cipher 0001 count 1 length 76: a0 .. bf 40 .. 5f
  read Init2 TEP 23 offered 00 02 bytes 09 71 05 e0 00 00 00 4a 00 01 a0 .. bf 40 .. 5f -> refused 10
",
    )
}

fn parts(to: Stdout) -> io::Result<()> {
    run::table(
        to,
        b"\
Init bytes that some continuation makes readable: 9
  read Init1 TEP 23 enabled 0001 bytes none -> refused 9
  read Init1 TEP 23 enabled 0001 bytes 15 10 -> refused 9
  read Init1 TEP 23 enabled 0001 bytes 15 10 1a 0e 00 00 10 -> refused 9
  read Init1 TEP 23 enabled 0001 bytes 15 10 1a 0e 00 00 00 4b -> refused 9
  read Init1 TEP 23 enabled 0001 bytes 15 10 1a 0e 00 00 00 4b 01 00 01 a0 .. bf 40 .. 5e -> refused 9
  read Init2 TEP 23 offered 00 01 bytes 09 71 05 e0 00 00 00 4a -> refused 9
Init bytes that no continuation makes readable: 8
  read Init1 TEP 23 enabled 0001 bytes 15 11 -> refused 8
  read Init1 TEP 23 enabled 0001 bytes 15 10 1a 0e 01 -> refused 8
  read Init1 TEP 23 enabled 0001 bytes 15 10 1a 0e 00 00 11 -> refused 8
  read Init1 TEP 23 enabled 0001 bytes 15 10 1a 0e 00 00 10 01 -> refused 8
  read Init1 TEP 23 enabled 0001 bytes 15 10 1a 0e 00 00 00 4a -> refused 8
  read Init1 TEP 23 enabled 0001 bytes 15 10 1a 0e 00 00 00 4b 02 -> refused 8
  read Init1 TEP 23 enabled 0001 bytes 09 71 05 e0 00 00 00 4a 00 01 a0 .. bf 40 .. 5f -> refused 8
  read Init2 TEP 23 offered 00 01 bytes 09 71 05 e0 00 00 00 49 -> refused 8
Init for TEP 21, and a key of another length: 3
  write Init1 TEP 21 ciphers 00 01 nonce a0 .. bf key 40 .. 5f into 128 -> refused 3
  write Init2 TEP 21 taken 00 01 nonce a0 .. bf key 40 .. 5f into 0 -> refused 3
  write Init1 TEP 24 ciphers 00 01 nonce a0 .. bf key 40 .. 5f into 128 -> refused 3
  read Init1 TEP 21 enabled 0001 bytes 15 10 1a 0e 00 00 00 4b 01 00 01 a0 .. bf 40 .. 5f -> refused 3
  read Init2 TEP 21 offered 00 01 bytes 09 71 05 e0 00 00 00 4a 00 01 a0 .. bf 40 .. 5f -> refused 3
",
    )
}

fn void_ciphers(to: Stdout) -> io::Result<()> {
    run::table(
        to,
        b"\
Init1 with no ciphers: 8 with its count, though bytes are missing
  read Init1 TEP 23 enabled 0001 bytes 15 10 1a 0e 00 00 00 4b 00 -> refused 8
  read Init1 TEP 23 enabled 0001 bytes 15 10 1a 0e 00 00 00 49 00 a0 .. bf 40 .. 5f -> refused 8
  read Init1 TEP 23 enabled 0001 bytes 15 10 1a 0e 00 00 00 4b 00 a0 .. bf 40 .. 5f 00 00 -> refused 8
  read Init1 TEP 24 enabled 0001 bytes 15 10 1a 0e 00 00 00 62 -> refused 8
  read Init1 TEP 24 enabled 0001 bytes 15 10 1a 0e 00 00 00 63 -> refused 9
  read Init1 TEP 24 enabled 0001 bytes 15 10 1a 0e 00 00 00 63 00 -> refused 8
cipher 0000: 8 with its second byte, the first cipher or another
  read Init1 TEP 23 enabled 0001 bytes 15 10 1a 0e 00 00 00 4b 01 00 -> refused 9
  read Init1 TEP 23 enabled 0001 bytes 15 10 1a 0e 00 00 00 4b 01 00 01 -> refused 9
  read Init1 TEP 23 enabled 0001 bytes 15 10 1a 0e 00 00 00 4b 01 00 00 -> refused 8
  read Init1 TEP 23 enabled 0001 bytes 15 10 1a 0e 00 00 00 4d 02 00 01 00 -> refused 9
  read Init1 TEP 23 enabled 0001 bytes 15 10 1a 0e 00 00 00 4d 02 00 01 00 00 -> refused 8
  read Init1 TEP 23 enabled 0001 bytes 15 10 1a 0e 00 00 00 4d 02 00 01 00 00 a0 .. bf 40 .. 5f -> refused 8
  read Init2 TEP 23 offered 00 01 bytes 09 71 05 e0 00 00 00 4a 00 -> refused 9
  read Init2 TEP 23 offered 00 01 bytes 09 71 05 e0 00 00 00 4a 00 01 -> refused 9
  read Init2 TEP 23 offered 00 01 bytes 09 71 05 e0 00 00 00 4a 00 00 -> refused 8
  read Init2 TEP 23 offered 00 00 bytes 09 71 05 e0 00 00 00 4a 00 00 a0 .. bf 40 .. 5f -> refused 8
",
    )
}

fn lists(to: Stdout) -> io::Result<()> {
    run::table(
        to,
        b"\
two zeros behind the ciphers, and in the list that A offered, are no cipher
  read Init1 TEP 23 enabled 0001 bytes 15 10 1a 0e 00 00 00 4b 01 00 01 00 00 -> refused 9
  read Init1 TEP 23 enabled 0001 bytes 15 10 1a 0e 00 00 00 4d 01 00 01 a0 .. bf 40 .. 5f 00 00 -> cipher 0001 count 1 length 77: a0 .. bf 40 .. 5f
  read Init2 TEP 23 offered 00 00 00 01 bytes 09 71 05 e0 00 00 00 4a 00 01 a0 .. bf 40 .. 5f -> cipher 0001 count 1 length 74: a0 .. bf 40 .. 5f
  read Init2 TEP 23 offered 00 00 bytes 09 71 05 e0 00 00 00 4a 00 01 a0 .. bf 40 .. 5f -> refused 10
  read Init2 TEP 23 offered none bytes 09 71 05 e0 00 00 00 4a 00 01 a0 .. bf 40 .. 5f -> refused 10
a repeated cipher is written and read
  write Init1 TEP 23 ciphers 00 01 00 01 nonce a0 .. bf key 40 .. 5f into 128 -> wrote 77: 15 10 1a 0e 00 00 00 4d 02 00 01 00 01 a0 .. bf 40 .. 5f
  read Init1 TEP 23 enabled 0001 bytes 15 10 1a 0e 00 00 00 4d 02 00 01 00 01 a0 .. bf 40 .. 5f -> cipher 0001 count 2 length 77: a0 .. bf 40 .. 5f
no ciphers and cipher 0000 are not written: 3, before 5
  write Init1 TEP 23 ciphers none nonce a0 .. bf key 40 .. 5f into 128 -> refused 3
  write Init1 TEP 23 ciphers 00 00 nonce a0 .. bf key 40 .. 5f into 128 -> refused 3
  write Init1 TEP 23 ciphers 00 01 00 00 nonce a0 .. bf key 40 .. 5f into 128 -> refused 3
  write Init1 TEP 23 ciphers none nonce a0 .. bf key 40 .. 5f into 0 -> refused 3
  write Init2 TEP 23 taken 00 00 nonce a0 .. bf key 40 .. 5f into 128 -> refused 3
  write Init2 TEP 23 taken 00 00 nonce a0 .. bf key 40 .. 5f into 0 -> refused 3
",
    )
}

pub fn table(to: Stdout) -> io::Result<()> {
    curve25519(to)?;
    curve448(to)?;
    ciphers(to)?;
    parts(to)?;
    void_ciphers(to)?;
    lists(to)
}
