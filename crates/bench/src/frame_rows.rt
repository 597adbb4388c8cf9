// The rows on frames: nonces, offsets, headers and plaintexts.
use crate::run;
use std::io;
use std::io::Stdout;

fn k12_and_offsets(to: Stdout) -> io::Result<()> {
    run::table(
        to,
        b"\
K12: offset 75, fixed nonce all ff
  frame ID offset 75 -> made: 44 41 54 41 00 00 00 00 00 00 00 4b
  nonce fixed ff ff ff ff ff ff ff ff ff ff ff ff offset 75 -> made: bb be ab be ff ff ff ff ff ff ff b4
  nonce fixed ff ff ff ff ff ff ff ff ff ff ff offset 75 -> refused 3
frame at 75, length 17: next at 95
  next offset 75 length 17 -> next 95
  write header rekey 0 length 17 offset 75 into 3 -> next 95: 00 00 11
  write header rekey 1 length 17 offset 75 into 128 -> next 95: 01 00 11
  read header bytes 00 00 11 offset 75 -> rekey 0 length 17 next 95: 00 00 11
  read header bytes 01 00 11 ff offset 75 -> rekey 1 length 17 next 95: 01 00 11
  read header bytes fe 00 11 offset 75 -> rekey 0 length 17 next 95: fe 00 11
",
    )
}

fn ends_of_ranges(to: Stdout) -> io::Result<()> {
    run::table(
        to,
        b"\
the frame ends at 2^64 - 1, and one further on: 11
  next offset 18446744073709551595 length 17 -> next 18446744073709551615
  next offset 18446744073709551596 length 17 -> refused 11
  write header rekey 0 length 17 offset 18446744073709551595 into 3 -> next 18446744073709551615: 00 00 11
  write header rekey 0 length 17 offset 18446744073709551596 into 3 -> refused 11
  read header bytes 00 00 11 offset 18446744073709551595 -> rekey 0 length 17 next 18446744073709551615: 00 00 11
  read header bytes 00 00 11 offset 18446744073709551596 -> refused 11
header of 2 bytes: 9, also where 11 applies
  read header bytes 00 00 offset 75 -> refused 9
  read header bytes 00 00 offset 18446744073709551615 -> refused 9
lengths 16, 65,535 and 65,536; 5 before 11
  next offset 75 length 16 -> refused 11
  next offset 75 length 65535 -> next 65613
  next offset 75 length 65536 -> refused 11
  write header rekey 0 length 16 offset 75 into 3 -> refused 11
  write header rekey 0 length 16 offset 75 into 2 -> refused 5
  write header rekey 0 length 65535 offset 75 into 3 -> next 65613: 00 ff ff
  write header rekey 0 length 65536 offset 75 into 3 -> refused 11
  write header rekey 0 length 17 offset 75 into 2 -> refused 5
  read header bytes 00 00 10 offset 75 -> refused 11
  read header bytes 00 ff ff offset 75 -> rekey 0 length 65535 next 65613: 00 ff ff
",
    )
}

fn plaintexts(to: Stdout) -> io::Result<()> {
    run::table(
        to,
        b"\
plaintext of 65,518 bytes
  write plaintext fin 0 urg 0 urgent 7 data 65517 into 70016 -> wrote 65518 fin 0 urg 0 urgent 0 from 1: 00
  write plaintext fin 0 urg 0 urgent 7 data 65517 into 65518 -> wrote 65518 fin 0 urg 0 urgent 0 from 1: 00
  write plaintext fin 0 urg 0 urgent 7 data 65517 into 65517 -> refused 5
  write plaintext fin 1 urg 1 urgent 258 data 65515 into 70016 -> wrote 65518 fin 1 urg 1 urgent 258 from 3: 03 01 02
  write plaintext fin 1 urg 1 urgent 258 data 65515 into 65518 -> wrote 65518 fin 1 urg 1 urgent 258 from 3: 03 01 02
  write plaintext fin 1 urg 1 urgent 258 data 65515 into 65517 -> refused 5
plaintext of 65,519 bytes
  write plaintext fin 0 urg 0 urgent 7 data 65518 into 70016 -> wrote 65519 fin 0 urg 0 urgent 0 from 1: 00
  write plaintext fin 0 urg 0 urgent 7 data 65518 into 65519 -> wrote 65519 fin 0 urg 0 urgent 0 from 1: 00
  write plaintext fin 0 urg 0 urgent 7 data 65518 into 65518 -> refused 5
  write plaintext fin 1 urg 1 urgent 258 data 65516 into 70016 -> wrote 65519 fin 1 urg 1 urgent 258 from 3: 03 01 02
  write plaintext fin 1 urg 1 urgent 258 data 65516 into 65519 -> wrote 65519 fin 1 urg 1 urgent 258 from 3: 03 01 02
  write plaintext fin 1 urg 1 urgent 258 data 65516 into 65518 -> refused 5
plaintext of 65,520 bytes
  write plaintext fin 0 urg 0 urgent 7 data 65519 into 70016 -> refused 11
  write plaintext fin 0 urg 0 urgent 7 data 65519 into 65520 -> refused 11
  write plaintext fin 0 urg 0 urgent 7 data 65519 into 65519 -> refused 5
  write plaintext fin 1 urg 1 urgent 258 data 65517 into 70016 -> refused 11
  write plaintext fin 1 urg 1 urgent 258 data 65517 into 65520 -> refused 11
  write plaintext fin 1 urg 1 urgent 258 data 65517 into 65519 -> refused 5
plaintext of 70,000 bytes
  write plaintext fin 0 urg 0 urgent 7 data 69999 into 70016 -> refused 11
  write plaintext fin 0 urg 0 urgent 7 data 69999 into 70000 -> refused 11
  write plaintext fin 0 urg 0 urgent 7 data 69999 into 69999 -> refused 5
  write plaintext fin 1 urg 1 urgent 258 data 69997 into 70016 -> refused 11
  write plaintext fin 1 urg 1 urgent 258 data 69997 into 70000 -> refused 11
  write plaintext fin 1 urg 1 urgent 258 data 69997 into 69999 -> refused 5
plaintexts as they are read
  read plaintext bytes none -> refused 12
  read plaintext bytes 02 00 -> refused 12
  read plaintext bytes 02 00 05 -> fin 0 urg 1 urgent 5 from 3
  read plaintext bytes fe 00 05 -> fin 0 urg 1 urgent 5 from 3
  read plaintext bytes fd -> fin 1 urg 0 urgent 0 from 1
",
    )
}

pub fn table(to: Stdout) -> io::Result<()> {
    k12_and_offsets(to)?;
    ends_of_ranges(to)?;
    plaintexts(to)
}
