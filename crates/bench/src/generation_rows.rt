// Runs of generation records (RFC 8548, 3.8): each line has the answer and the record afterwards.
use crate::run;
use std::io;
use std::io::Stdout;

fn rekeying(to: Stdout) -> io::Result<()> {
    run::table(
        to,
        b"\
two rekeys received, then three sends
  receive rekey 1 -> received 1 local 1 remote 1 last 0 fin 0 owed 1
  receive rekey 1 -> received 2 local 2 remote 2 last 0 fin 0 owed 1
  send fin 0 -> sent 1 rekey 1 local 2 remote 2 last 1 fin 0 owed 1
  send fin 0 -> sent 2 rekey 1 local 2 remote 2 last 2 fin 0 owed 0
  send fin 0 -> sent 2 rekey 0 local 2 remote 2 last 2 fin 0 owed 0
both ends initiate at once: no answer is owed
  initiate data 0 fin 0 -> sent 1 rekey 1 local 1 remote 0 last 1 fin 0 owed 0
  receive rekey 1 -> received 1 local 1 remote 1 last 1 fin 0 owed 0
  send fin 0 -> sent 1 rekey 0 local 1 remote 1 last 1 fin 0 owed 0
initiating without data while remote is below local: 15
  initiate data 0 fin 0 -> sent 1 rekey 1 local 1 remote 0 last 1 fin 0 owed 0
  initiate data 0 fin 0 -> refused 15 local 1 remote 0 last 1 fin 0 owed 0
  initiate data 1 fin 0 -> sent 2 rekey 1 local 2 remote 0 last 2 fin 0 owed 0
  receive rekey 1 -> received 1 local 2 remote 1 last 2 fin 0 owed 0
  receive rekey 1 -> received 2 local 2 remote 2 last 2 fin 0 owed 0
  initiate data 0 fin 0 -> sent 3 rekey 1 local 3 remote 2 last 3 fin 0 owed 0
initiating while a rekey frame is owed: 4
  receive rekey 1 -> received 1 local 1 remote 1 last 0 fin 0 owed 1
  initiate data 1 fin 0 -> refused 4 local 1 remote 1 last 0 fin 0 owed 1
  send fin 0 -> sent 1 rekey 1 local 1 remote 1 last 1 fin 0 owed 0
  initiate data 1 fin 0 -> sent 2 rekey 1 local 2 remote 1 last 2 fin 0 owed 0
",
    )
}

fn ends(to: Stdout) -> io::Result<()> {
    run::table(
        to,
        b"\
sending after FINp: 14
  send fin 1 -> sent 0 rekey 0 local 0 remote 0 last 0 fin 1 owed 0
  send fin 0 -> refused 14 local 0 remote 0 last 0 fin 1 owed 0
  initiate data 1 fin 0 -> refused 14 local 0 remote 0 last 0 fin 1 owed 0
  receive rekey 1 -> received 1 local 1 remote 1 last 0 fin 1 owed 0
  initiate data 1 fin 0 -> refused 14 local 1 remote 1 last 0 fin 1 owed 0
a generation past 65,535: 13
  lend local 65534 remote 65534 last 65534 fin 0
  initiate data 0 fin 0 -> sent 65535 rekey 1 local 65535 remote 65534 last 65535 fin 0 owed 0
  initiate data 1 fin 0 -> refused 13 local 65535 remote 65534 last 65535 fin 0 owed 0
  receive rekey 1 -> received 65535 local 65535 remote 65535 last 65535 fin 0 owed 0
  receive rekey 1 -> refused 13 local 65535 remote 65535 last 65535 fin 0 owed 0
  receive rekey 0 -> received 65535 local 65535 remote 65535 last 65535 fin 0 owed 0
  send fin 0 -> sent 65535 rekey 0 local 65535 remote 65535 last 65535 fin 0 owed 0
records that no connection reaches
  lend local 0 remote 5 last 0 fin 0
  receive rekey 1 -> received 6 local 6 remote 6 last 0 fin 0 owed 1
  lend local 3 remote 0 last 10 fin 0
  initiate data 1 fin 0 -> sent 10 rekey 0 local 4 remote 0 last 10 fin 0 owed 0
",
    )
}

// RFC 8548, 3.8: the answering rekey frame is sent only before FIN.
fn after_fin(to: Stdout) -> io::Result<()> {
    run::table(
        to,
        b"\
after FINp local follows, nothing is owed and last-used is left
  lend local 2 remote 2 last 1 fin 1
  receive rekey 1 -> received 3 local 3 remote 3 last 1 fin 1 owed 0
  receive rekey 1 -> received 4 local 4 remote 4 last 1 fin 1 owed 0
  lend local 5 remote 0 last 3 fin 1
  receive rekey 1 -> received 1 local 5 remote 1 last 3 fin 1 owed 0
FINp on an owed frame: it carries rekey, and no more is owed
  lend local 2 remote 2 last 0 fin 0
  send fin 1 -> sent 1 rekey 1 local 2 remote 2 last 1 fin 1 owed 0
  receive rekey 1 -> received 3 local 3 remote 3 last 1 fin 1 owed 0
initiating after FINp where local is above last-used: 14
  lend local 1 remote 1 last 0 fin 1
  initiate data 0 fin 0 -> refused 14 local 1 remote 1 last 0 fin 1 owed 0
  initiate data 0 fin 1 -> refused 14 local 1 remote 1 last 0 fin 1 owed 0
  initiate data 1 fin 0 -> refused 14 local 1 remote 1 last 0 fin 1 owed 0
  initiate data 1 fin 1 -> refused 14 local 1 remote 1 last 0 fin 1 owed 0
  send fin 0 -> refused 14 local 1 remote 1 last 0 fin 1 owed 0
and where local is 65,535: 13
  lend local 65535 remote 65535 last 0 fin 1
  initiate data 0 fin 0 -> refused 13 local 65535 remote 65535 last 0 fin 1 owed 0
  send fin 0 -> refused 14 local 65535 remote 65535 last 0 fin 1 owed 0
before FINp, and where local is not above last-used, as ever
  lend local 1 remote 1 last 0 fin 0
  initiate data 0 fin 0 -> refused 4 local 1 remote 1 last 0 fin 0 owed 1
  lend local 65535 remote 0 last 65535 fin 1
  initiate data 0 fin 0 -> refused 13 local 65535 remote 0 last 65535 fin 1 owed 0
  lend local 3 remote 5 last 10 fin 1
  initiate data 0 fin 0 -> refused 14 local 3 remote 5 last 10 fin 1 owed 0
",
    )
}

pub fn table(to: Stdout) -> io::Result<()> {
    rekeying(to)?;
    ends(to)?;
    after_fin(to)
}
