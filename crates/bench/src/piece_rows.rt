// The rows on messages in pieces: streams whole and cut, each refusal at its byte and again, and numbers that a host makes up.
use crate::piece_table;
use std::io;
use std::io::Stdout;

fn whole(to: Stdout) -> io::Result<()> {
    piece_table::table(
        to,
        b"\
a resumed connection: frames from 0
  feed -> used 0 waiting
  feed 00 00 11 -> used 3 header rekey 0 length 17 next 20: 00 00 11
  feed 01 .. 11 01 00 12 -> used 17 body 3 to 20
  feed 01 00 12 -> used 3 header rekey 1 length 18 next 41: 01 00 12
  feed 01 .. 11 -> used 17 waiting
  feed 12 00 -> used 1 body 23 to 41
Init1 in one piece with more behind it, then a frame
  start Init1 TEP 23 0001 -> started
  feed 15 10 1a 0e 00 00 00 4b 01 00 01 40 .. 5f 80 .. 9f 00 00 -> used 75 init1 cipher 0001 count 1 length 75: 40 .. 5f 80 .. 9f
  feed 00 00 11 -> used 3 header rekey 0 length 17 next 95: 00 00 11
  feed 01 .. 11 -> used 17 body 78 to 95
Init1 with three ciphers, of which the second is enabled, and a key of 56 bytes
  start Init1 TEP 24 0002 0010 -> started
  feed 15 10 1a 0e 00 00 00 67 03 77 77 00 02 00 10 40 .. 5f 80 .. b7 -> used 103 init1 cipher 0002 count 3 length 103: 40 .. 5f 80 .. b7
Init2 in one piece
  start Init2 TEP 23 offered 00 10 00 01 -> started
  feed 09 71 05 e0 00 00 00 4a 00 01 40 .. 5f 80 .. 9f 00 -> used 74 init2 cipher 0001 length 74: 40 .. 5f 80 .. 9f
  feed 00 00 11 -> used 3 header rekey 0 length 17 next 94: 00 00 11
",
    )
}

fn cut(to: Stdout) -> io::Result<()> {
    piece_table::table(
        to,
        b"\
Init1 cut inside each field, with empty pieces
  start Init1 TEP 23 0001 0010 -> started
  feed -> used 0 waiting
  feed 15 10 -> used 2 waiting
  feed 1a 0e 00 00 -> used 4 waiting
  feed 00 -> used 1 waiting
  feed 4c -> used 1 waiting
  feed 01 -> used 1 waiting
  feed 00 -> used 1 waiting
  feed -> used 0 waiting
  feed 01 40 -> used 2 waiting
  feed 41 .. 5f 80 -> used 32 waiting
  feed 81 .. 9f -> used 31 waiting
  feed ee 00 -> used 1 init1 cipher 0001 count 1 length 76: 40 .. 5f 80 .. 9f
  feed 00 -> used 1 waiting
  feed -> used 0 waiting
  feed 00 -> used 1 waiting
  feed 11 -> used 1 header rekey 0 length 17 next 96: 00 00 11
Init2 byte by byte up to its nonce
  start Init2 TEP 23 offered 00 01 -> started
  feed 09 -> used 1 waiting
  feed 71 -> used 1 waiting
  feed 05 -> used 1 waiting
  feed e0 -> used 1 waiting
  feed 00 -> used 1 waiting
  feed 00 -> used 1 waiting
  feed 00 -> used 1 waiting
  feed 4a -> used 1 waiting
  feed 00 -> used 1 waiting
  feed 01 -> used 1 waiting
  feed 40 .. 5f 80 .. 9e -> used 63 waiting
  feed 9f -> used 1 init2 cipher 0001 length 74: 40 .. 5f 80 .. 9f
",
    )
}

fn eights(to: Stdout) -> io::Result<()> {
    piece_table::table(
        to,
        b"\
8 at the byte that settles it, and again: magic, length, count, a cipher 0000
  start Init1 TEP 23 0001 -> started
  feed 14 -> refused 8 at 0
  feed -> refused 8 at 0
  feed 15 00 00 11 -> refused 8 at 0
  start Init1 TEP 23 0001 -> started
  feed 15 11 1a -> refused 8 at 1
  feed -> refused 8 at 1
  feed 15 00 00 11 -> refused 8 at 1
  start Init1 TEP 23 0001 -> started
  feed 15 10 1a 0e 01 -> refused 8 at 4
  feed -> refused 8 at 4
  feed 15 00 00 11 -> refused 8 at 4
  start Init1 TEP 23 0001 -> started
  feed 15 10 1a 0e 00 00 11 00 -> refused 8 at 6
  feed -> refused 8 at 6
  feed 15 00 00 11 -> refused 8 at 6
  start Init1 TEP 23 0001 -> started
  feed 15 10 1a 0e 00 00 10 01 -> refused 8 at 7
  feed -> refused 8 at 7
  feed 15 00 00 11 -> refused 8 at 7
  start Init1 TEP 23 0001 -> started
  feed 15 10 1a 0e 00 00 00 4a 01 -> refused 8 at 7
  feed -> refused 8 at 7
  feed 15 00 00 11 -> refused 8 at 7
  start Init1 TEP 23 0001 -> started
  feed 15 10 1a 0e 00 00 00 4b 00 -> refused 8 at 8
  feed -> refused 8 at 8
  feed 15 00 00 11 -> refused 8 at 8
  start Init1 TEP 23 0001 -> started
  feed 15 10 1a 0e 00 00 00 4b 02 -> refused 8 at 8
  feed -> refused 8 at 8
  feed 15 00 00 11 -> refused 8 at 8
  start Init1 TEP 23 0001 -> started
  feed 15 10 1a 0e 00 00 00 4b 01 00 00 -> refused 8 at 10
  feed -> refused 8 at 10
  feed 15 00 00 11 -> refused 8 at 10
  start Init1 TEP 23 0001 -> started
  feed 15 10 1a 0e 00 00 00 4d 02 00 01 00 00 -> refused 8 at 12
  feed -> refused 8 at 12
  feed 15 00 00 11 -> refused 8 at 12
8 in an Init2: another magic, a length below 74, a cipher 0000, offered or not
  start Init2 TEP 23 offered 00 00 -> started
  feed 15 -> refused 8 at 0
  feed -> refused 8 at 0
  feed 15 00 00 11 -> refused 8 at 0
  start Init2 TEP 23 offered 00 00 -> started
  feed 09 71 05 e0 00 00 00 49 -> refused 8 at 7
  feed -> refused 8 at 7
  feed 15 00 00 11 -> refused 8 at 7
  start Init2 TEP 23 offered 00 00 -> started
  feed 09 71 05 e0 00 00 00 4a 00 00 -> refused 8 at 9
  feed -> refused 8 at 9
  feed 15 00 00 11 -> refused 8 at 9
",
    )
}

fn tens_and_elevens(to: Stdout) -> io::Result<()> {
    piece_table::table(
        to,
        b"\
10 at the message's last byte, an ignored one
  start Init1 TEP 23 0010 -> started
  feed 15 10 1a 0e 00 00 00 4c 01 00 01 40 .. 5f 80 .. 9f -> used 75 waiting
  feed ee -> refused 10 at 75
  feed -> refused 10 at 75
10 where Init2 names no cipher that was offered
  start Init2 TEP 23 offered 00 02 -> started
  feed 09 71 05 e0 00 00 00 4a 00 01 40 .. 5f 80 .. 9f -> refused 10 at 73
11 at the third byte of a length below 17; a start that is refused leaves it
  feed 00 00 10 -> refused 11 at 2
  start Init1 TEP 21 0001 -> refused 3
  start Init2 TEP a3 offered 00 01 -> refused 3
  feed 00 -> refused 11 at 2
  start frames -> started
  feed 00 -> used 1 waiting
11 at the first byte after which no header avoids it: frames at 2^64 - 20 and 2^64 - 21
  lend position 18446744073709551596 first 0 second 0 stage 0
  feed 00 -> refused 11 at 18446744073709551596
  lend position 18446744073709551595 first 0 second 0 stage 0
  feed 00 01 -> refused 11 at 18446744073709551596
  lend position 18446744073709551595 first 0 second 0 stage 0
  feed 00 00 12 -> refused 11 at 18446744073709551597
  lend position 18446744073709551595 first 0 second 0 stage 0
  feed 00 00 11 -> used 3 header rekey 0 length 17 next 18446744073709551615: 00 00 11
  feed 01 .. 11 -> used 17 body 18446744073709551598 to 18446744073709551615
  feed -> used 0 waiting
  feed 00 -> refused 11 at 18446744073709551615
",
    )
}

fn odd_numbers(to: Stdout) -> io::Result<()> {
    piece_table::table(
        to,
        b"\
numbers that no stream makes
  lend position 5 first 0 second 0 stage 7
  feed 00 00 11 -> used 3 header rekey 0 length 17 next 25: 00 00 11
  lend position 1 first 511 second 256 stage 2
  feed 11 -> used 1 header rekey 1 length 17 next 20: ff 00 11
  lend position 30 first 40 second 20 stage 3
  feed -> used 0 waiting
  feed 01 02 -> used 1 body 40 to 20
  feed 02 00 11 -> used 3 header rekey 0 length 17 next 40: 02 00 11
  lend position 9 first 9 second 0 stage 6
  feed -> refused 11 at 9
  lend position 9 first 8 second 5 stage 6
  feed 00 -> refused 8 at 9
",
    )
}

pub fn table(to: Stdout) -> io::Result<()> {
    whole(to)?;
    cut(to)?;
    eights(to)?;
    tens_and_elevens(to)?;
    odd_numbers(to)
}
