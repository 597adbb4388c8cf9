// The worked examples of RFC 8547, section 6, and what its other sections and RFC 8548, sections 3.2 and 3.5, say of an option; X is 21, Y 23, Z 24.
use crate::run;
use std::io;
use std::io::Stdout;

fn figures_9_and_10(to: Stdout) -> io::Result<()> {
    run::unit_table(
        to,
        b"\
K1, RFC 8547 Fig 9, host A
  offer role 0 TEPs 21 23 -> wrote 4: 45 04 21 23
  SYN+ACK area 45 04 01 23 -> Open
  result -> role 0 TEP 23 fresh transcript 8: 45 04 21 23 45 04 01 23
K1, RFC 8547 Fig 9, host B
  answer area 45 04 21 23 TEPs 23 -> wrote 4: 45 04 01 23
  ACK area 45 02 -> Open
  result -> role 1 TEP 23 fresh transcript 8: 45 04 21 23 45 04 01 23
RFC 8547 Fig 10, host A
  offer role 0 TEPs 21 23 -> wrote 4: 45 04 21 23
  SYN+ACK area nothing -> plain 2
  result -> plain 2
RFC 8547 Fig 10, case 2, host B
  answer area 45 04 21 23 TEPs 22 24 -> plain 6
  result -> plain 6
RFC 8547 Fig 10, case 3, host B
  answer area 45 04 21 23 mandatory-aware TEPs 23 -> plain 5
  result -> plain 5
RFC 8547 Fig 10, case 4, host B
  answer area 02 04 05 b4 TEPs 23 -> plain 2
  result -> plain 2
",
    )
}

fn figures_11_and_12(to: Stdout) -> io::Result<()> {
    run::unit_table(
        to,
        b"\
RFC 8547 Fig 11, host B
  answer area 45 04 21 23 TEPs 21 -> wrote 4: 45 04 01 21
  ACK area nothing -> plain 2
  result -> plain 2
RFC 8547 Fig 11, host A
  offer role 0 TEPs 21 23 -> wrote 4: 45 04 21 23
  SYN+ACK area 02 04 05 b4 -> plain 2
  result -> plain 2
RFC 8547 Fig 12, host A
  offer role 0 TEPs 23 21 -> wrote 4: 45 04 23 21
  SYN area 45 06 01 21 23 24 -> Crossed
  resend -> wrote 4: 45 04 23 21
  SYN+ACK area 45 06 01 21 23 24 -> Open
  result -> role 0 TEP 23 fresh transcript 10: 45 04 23 21 45 06 01 21 23 24
RFC 8547 Fig 12, host B
  offer role 1 TEPs 21 23 24 -> wrote 6: 45 06 01 21 23 24
  SYN area 45 04 23 21 -> Crossed
  resend -> wrote 6: 45 06 01 21 23 24
  SYN+ACK area 45 04 23 21 -> Open
  result -> role 1 TEP 23 fresh transcript 10: 45 04 23 21 45 06 01 21 23 24
RFC 8547 Fig 12, A's SYN lost, host B
  offer role 1 TEPs 21 23 24 -> wrote 6: 45 06 01 21 23 24
  SYN+ACK area 45 04 23 21 -> Open
  result -> role 1 TEP 23 fresh transcript 10: 45 04 23 21 45 06 01 21 23 24
",
    )
}

fn roles_and_vacuous_options(to: Stdout) -> io::Result<()> {
    run::unit_table(
        to,
        b"\
RFC 8547 8.1, the option echoed
  offer role 0 TEPs 23 -> wrote 3: 45 03 23
  SYN+ACK area 45 03 23 -> plain 4
  result -> plain 4
RFC 8547 4.3, b = 1 to a passive opener
  answer area 45 04 01 23 TEPs 23 -> plain 4
  result -> plain 4
RFC 8547 4.6, a vacuous option to host B
  answer area 45 02 TEPs 23 -> plain 6
  result -> plain 6
RFC 8547 4.6, a vacuous option with b = 1 to host A
  offer role 0 TEPs 21 23 -> wrote 4: 45 04 21 23
  SYN+ACK area 45 03 01 -> plain 6
  result -> plain 6
RFC 8547 4.6, a vacuous option with b = 0 to host A
  offer role 0 TEPs 21 23 -> wrote 4: 45 04 21 23
  SYN+ACK area 45 02 -> plain 4
  result -> plain 4
",
    )
}

fn forms(to: Stdout) -> io::Result<()> {
    run::unit_table(
        to,
        b"\
RFC 8547 4.1, two ENO options in a SYN
  offer role 0 TEPs 21 23 -> wrote 4: 45 04 21 23
  SYN+ACK area 45 04 01 23 45 04 01 23 -> plain 2
  result -> plain 2
RFC 8547 4.1, two ENO options in an ACK
  answer area 45 04 21 23 TEPs 23 -> wrote 4: 45 04 01 23
  ACK area 45 04 01 23 45 04 01 23 -> Open
  result -> role 1 TEP 23 fresh transcript 8: 45 04 21 23 45 04 01 23
RFC 8547 4.2, only the first global suboption counts
  offer role 0 TEPs 21 23 -> wrote 4: 45 04 21 23
  SYN+ACK area 45 05 01 00 23 -> Open
  result -> role 0 TEP 23 fresh transcript 9: 45 04 21 23 45 05 01 00 23
RFC 8547 4.4, case 1, too few data bytes
  offer role 0 TEPs 21 23 -> wrote 4: 45 04 21 23
  SYN+ACK area 45 05 01 81 a3 -> plain 3
  result -> plain 3
RFC 8547 4.4, case 2, a length byte with no TEP behind it
  offer role 0 TEPs 21 23 -> wrote 4: 45 04 21 23
  SYN+ACK area 45 05 01 80 9f -> plain 3
  result -> plain 3
RFC 8547 5.1, v in the TEP byte
  offer role 0 TEPs 21 23 -> wrote 4: 45 04 21 23
  SYN+ACK area 45 04 01 a3 -> Open
  result -> role 0 TEP a3 fresh transcript 8: 45 04 21 23 45 04 01 a3
",
    )
}

fn resumption(to: Stdout) -> io::Result<()> {
    run::unit_table(
        to,
        b"\
RFC 8548 3.5, a half that does not match
  store TEP 23 role 0 identifier 00 .. 11 -> done
  offer role 0 TEPs 23 resuming -> wrote 12: 45 0c a3 00 .. 08
  SYN+ACK area 45 0d 01 a3 00 .. 08 -> plain 6
  result -> plain 6
  count -> holds 0
  forget TEP 23 identifier 00 .. 11 -> refused 16
  store TEP 23 role 0 identifier 00 .. 11 -> done
RFC 8548 3.2, resumption offered and a fresh key exchange taken
  store TEP 23 role 0 identifier 00 .. 11 -> done
  offer role 0 TEPs 23 resuming -> wrote 12: 45 0c a3 00 .. 08
  SYN+ACK area 45 04 01 23 -> Open
  result -> role 0 TEP 23 fresh transcript 16: 45 0c a3 00 .. 08 45 04 01 23
  count -> holds 0
  forget TEP 23 identifier 00 .. 11 -> refused 16
  store TEP 23 role 0 identifier 00 .. 11 -> done
RFC 8548 3.5, host B of the session resumes it as host A
  store TEP 23 role 1 identifier 00 .. 11 -> done
  offer role 0 TEPs 23 resuming -> wrote 12: 45 0c a3 09 .. 11
  SYN+ACK area 45 0d 01 a3 00 .. 08 -> Open
  result -> role 0 TEP a3 resumed transcript 25: 45 0c a3 09 .. 11 45 0d 01 a3 00 .. 08
",
    )
}

pub fn table(to: Stdout) -> io::Result<()> {
    figures_9_and_10(to)?;
    figures_11_and_12(to)?;
    roles_and_vacuous_options(to)?;
    forms(to)?;
    resumption(to)
}
