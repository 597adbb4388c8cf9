// Unreadable areas on the unit: the place and the kind of the option that makes an area so.
use crate::run;
use std::io;
use std::io::Stdout;

pub fn table(to: Stdout) -> io::Result<()> {
    run::unit_table(
        to,
        b"\
an unreadable area is answered: the option that makes it so is behind whole ones
  answer area 01 01 02 04 05 b4 08 TEPs 23 -> plain 1 place 6 kind 08
  result -> plain 1 place 6 kind 08
an unreadable area in Offered, with an ENO option before the fault; Plain keeps place and kind
  offer role 0 TEPs 21 23 -> wrote 4: 45 04 21 23
  SYN+ACK area 45 03 23 02 -> plain 1 place 3 kind 02
  SYN+ACK area 45 01 -> plain 1 place 3 kind 02
  result -> plain 1 place 3 kind 02
  result -> plain 1 place 3 kind 02
an unreadable second SYN in Crossed: 1 before 2
  offer role 0 TEPs 21 23 -> wrote 4: 45 04 21 23
  SYN area 45 04 01 23 -> Crossed
  SYN+ACK area 45 02 45 02 02 01 -> plain 1 place 4 kind 02
  result -> plain 1 place 4 kind 02
an unreadable second SYN in Answered: the ENO option itself
  answer area 45 04 21 23 TEPs 23 -> wrote 4: 45 04 01 23
  SYN area 45 01 -> plain 1 place 0 kind 45
  result -> plain 1 place 0 kind 45
an unreadable ACK in Answered, at the largest place
  answer area 45 04 21 23 TEPs 23 -> wrote 4: 45 04 01 23
  ACK area 01 01 01 01 01 01 01 01 01 01 01 01 01 01 01 01 01 01 01 01 01 01 01 01 01 01 01 01 01 01 01 01 01 01 01 01 01 01 01 45 -> plain 1 place 39 kind 45
  result -> plain 1 place 39 kind 45
",
    )
}
