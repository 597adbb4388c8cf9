// The bench table's rows that run on the unit, and K2 through the calls; K1 is RFC 8547's figure 9. R is TEP 23, role A, identifier 00 .. 11.
use crate::run;
use std::io;
use std::io::Stdout;

fn k2(to: Stdout) -> io::Result<()> {
    run::unit_table(
        to,
        b"\
K2, host A
  offer role 0 TEPs 21 23 24 -> wrote 5: 45 05 21 23 24
  SYN+ACK area 45 05 01 23 21 -> Open
  result -> role 0 TEP 21 fresh transcript 10: 45 05 21 23 24 45 05 01 23 21
K2, host B
  offer role 1 TEPs 23 21 -> wrote 5: 45 05 01 23 21
  SYN area 45 05 21 23 24 -> Crossed
  resend -> wrote 5: 45 05 01 23 21
  SYN+ACK area 45 05 21 23 24 -> Open
  result -> role 1 TEP 21 fresh transcript 10: 45 05 21 23 24 45 05 01 23 21
",
    )
}

// RFC 8547, 4.2: bit a of the global suboption. An end that makes it mandatory takes no other end without it.
fn application_aware(to: Stdout) -> io::Result<()> {
    run::unit_table(
        to,
        b"\
application-aware, mandatory at both ends, host A
  offer role 0 mandatory-aware TEPs 21 23 -> wrote 5: 45 05 02 21 23
  SYN+ACK area 45 04 03 23 -> Open
  result -> role 0 TEP 23 fresh transcript 9: 45 05 02 21 23 45 04 03 23
application-aware, mandatory at both ends, host B
  answer area 45 05 02 21 23 mandatory-aware TEPs 23 -> wrote 4: 45 04 03 23
  ACK area 45 02 -> Open
  result -> role 1 TEP 23 fresh transcript 9: 45 05 02 21 23 45 04 03 23
application-aware, mandatory at host A alone: reason 5
  offer role 0 mandatory-aware TEPs 21 23 -> wrote 5: 45 05 02 21 23
  SYN+ACK area 45 04 01 23 -> plain 5
  result -> plain 5
application-aware, mandatory at neither end
  offer role 0 aware TEPs 21 23 -> wrote 5: 45 05 02 21 23
  SYN+ACK area 45 04 01 23 -> Open
  result -> role 0 TEP 23 fresh transcript 9: 45 05 02 21 23 45 04 01 23
",
    )
}

fn r_offered(to: Stdout) -> io::Result<()> {
    run::unit_table(
        to,
        b"\
R held, offer 21 23 resuming, answer 45 0d 01 a3 09 .. 11: resumed
  store TEP 23 role 0 identifier 00 .. 11 -> done
  offer role 0 TEPs 21 23 resuming -> wrote 13: 45 0d 21 a3 00 .. 08
  SYN+ACK area 45 0d 01 a3 09 .. 11 -> Open
  result -> role 0 TEP a3 resumed transcript 26: 45 0d 21 a3 00 .. 08 45 0d 01 a3 09 .. 11
R held, offer 21 23 resuming, answer 45 0d 01 a3 00 .. 08: reason 6
  store TEP 23 role 0 identifier 00 .. 11 -> done
  offer role 0 TEPs 21 23 resuming -> wrote 13: 45 0d 21 a3 00 .. 08
  SYN+ACK area 45 0d 01 a3 00 .. 08 -> plain 6
  result -> plain 6
  count -> holds 0
  forget TEP 23 identifier 00 .. 11 -> refused 16
  store TEP 23 role 0 identifier 00 .. 11 -> done
R held, offer 21 23 resuming, answer 45 04 01 23: fresh, R gone
  store TEP 23 role 0 identifier 00 .. 11 -> done
  offer role 0 TEPs 21 23 resuming -> wrote 13: 45 0d 21 a3 00 .. 08
  SYN+ACK area 45 04 01 23 -> Open
  result -> role 0 TEP 23 fresh transcript 17: 45 0d 21 a3 00 .. 08 45 04 01 23
  count -> holds 0
  forget TEP 23 identifier 00 .. 11 -> refused 16
  store TEP 23 role 0 identifier 00 .. 11 -> done
",
    )
}

fn data_from_b(to: Stdout) -> io::Result<()> {
    run::unit_table(
        to,
        b"\
resumption data of 8 bytes from host B: fresh
  store TEP 23 role 0 identifier 00 .. 11 -> done
  offer role 0 TEPs 21 23 resuming -> wrote 13: 45 0d 21 a3 00 .. 08
  SYN+ACK area 45 0c 01 a3 09 .. 10 -> Open
  result -> role 0 TEP a3 fresh transcript 25: 45 0d 21 a3 00 .. 08 45 0c 01 a3 09 .. 10
  count -> holds 0
  forget TEP 23 identifier 00 .. 11 -> refused 16
  store TEP 23 role 0 identifier 00 .. 11 -> done
resumption data of 9 bytes from host B: resumption
  store TEP 23 role 0 identifier 00 .. 11 -> done
  offer role 0 TEPs 21 23 resuming -> wrote 13: 45 0d 21 a3 00 .. 08
  SYN+ACK area 45 0d 01 a3 09 .. 11 -> Open
  result -> role 0 TEP a3 resumed transcript 26: 45 0d 21 a3 00 .. 08 45 0d 01 a3 09 .. 11
resumption data of 17 bytes from host B: resumption
  store TEP 23 role 0 identifier 00 .. 11 -> done
  offer role 0 TEPs 21 23 resuming -> wrote 13: 45 0d 21 a3 00 .. 08
  SYN+ACK area 45 15 01 a3 09 .. 11 f0 .. f7 -> Open
  result -> role 0 TEP a3 resumed transcript 34: 45 0d 21 a3 00 .. 08 45 15 01 a3 09 .. 11 f0 .. f7
resumption data of 18 bytes from host B: bad
  store TEP 23 role 0 identifier 00 .. 11 -> done
  offer role 0 TEPs 21 23 resuming -> wrote 13: 45 0d 21 a3 00 .. 08
  SYN+ACK area 45 16 01 a3 09 .. 11 f0 .. f8 -> plain 6
  result -> plain 6
  count -> holds 0
  forget TEP 23 identifier 00 .. 11 -> refused 16
  store TEP 23 role 0 identifier 00 .. 11 -> done
",
    )
}

fn data_from_a(to: Stdout) -> io::Result<()> {
    run::unit_table(
        to,
        b"\
resumption data of 8 bytes from host A: fresh
  store TEP 23 role 0 identifier 00 .. 11 -> done
  answer area 45 0b a3 09 .. 10 TEPs 23 -> wrote 4: 45 04 01 23
  ACK area 45 02 -> Open
  result -> role 1 TEP 23 fresh transcript 15: 45 0b a3 09 .. 10 45 04 01 23
  count -> holds 1
resumption data of 9 bytes from host A: resumption
  store TEP 23 role 0 identifier 00 .. 11 -> done
  answer area 45 0c a3 09 .. 11 TEPs 23 -> wrote 13: 45 0d 01 a3 00 .. 08
  ACK area 45 02 -> Open
  result -> role 1 TEP a3 resumed transcript 25: 45 0c a3 09 .. 11 45 0d 01 a3 00 .. 08
  count -> holds 0
resumption data of 17 bytes from host A: resumption
  store TEP 23 role 0 identifier 00 .. 11 -> done
  answer area 45 14 a3 09 .. 11 f0 .. f7 TEPs 23 -> wrote 13: 45 0d 01 a3 00 .. 08
  ACK area 45 02 -> Open
  result -> role 1 TEP a3 resumed transcript 33: 45 14 a3 09 .. 11 f0 .. f7 45 0d 01 a3 00 .. 08
  count -> holds 0
resumption data of 18 bytes from host A: bad
  store TEP 23 role 0 identifier 00 .. 11 -> done
  answer area 45 15 a3 09 .. 11 f0 .. f8 TEPs 23 -> plain 6
  result -> plain 6
  count -> holds 1
",
    )
}

fn doors_and_records(to: Stdout) -> io::Result<()> {
    run::unit_table(
        to,
        b"\
doors 47, 48: taken, 1
  door 47 store TEP 23 role 0 identifier 00 .. 11 -> done
  door 48 store TEP 23 role 0 identifier 00 .. 11 -> refused 1
  door 47 count -> holds 1
  door 48 count -> refused 1
  door 47 offer role 0 TEPs 23 -> wrote 3: 45 03 23
  door 48 offer role 0 TEPs 23 -> refused 1
fifth record: 6
  store TEP 21 role 0 identifier 00 .. 11 -> done
  store TEP 22 role 0 identifier 00 .. 11 -> done
  store TEP 23 role 0 identifier 00 .. 11 -> done
  store TEP 24 role 0 identifier 00 .. 11 -> done
  store TEP 23 role 0 identifier 01 01 .. 11 -> refused 6
  count -> holds 4
",
    )
}

pub fn table(to: Stdout) -> io::Result<()> {
    k2(to)?;
    application_aware(to)?;
    r_offered(to)?;
    data_from_b(to)?;
    data_from_a(to)?;
    doors_and_records(to)
}
