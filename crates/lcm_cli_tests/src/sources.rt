//! Parts that are sources, and the parts beside them.
use outside_io::MemFiles;
use std::alloc::{AllocError, Global};
use worked_parts::BACK;

// Takes a deposit, tells of the balance and returns it.
const BANK: &str = "\
module bank code 4096 data 8192 closure 10 returns 11 4 stack 65536;
import teller.notify/1;
global balance = 100;
export proc deposit(n) {
  balance = balance + n;
  notify(balance);
  return balance;
}
";

// There is no seal for its call.
const FEW: &str = "\
module few code 4096 data 8192 closure 10 returns 11 0 stack 65536;
import teller.notify/1;
export proc deposit(n) { notify(n); return n; }
";

// Calls what it imports, and halts.
const REC: &str = "\
module rec code 4096 data 8192 closure 10 returns 11 1 stack 65536;
import adv.go/1;
export proc main() { go(0); halt 7; }
";

// Deposits 5, and halts.
const TELLER: &str = "\
.name teller
.stack 65536
.closure 20
.seals 21 1
.code 12288
move t1 pc
cca t1 @lit
load t2 t1
move rcode pc
cca rcode @back
cseal rcode t2
move rdata data
cseal rdata t2
load c1 data
cca data 1
load c2 data
move a0 5
xjmp c1 c2
back: halt
notify: xjmp rcode rdata
lit: .seal 21 21 21
.data 16384
.int 0
.int 0
.import bank deposit 0
.export main 0 shared
.export notify notify shared
";

static TEXTS: [(&str, &str); 5] = [
    ("bank.prc", BANK),
    ("few.prc", FEW),
    ("rec.prc", REC),
    ("teller.asm", TELLER),
    ("back.asm", BACK),
];

/// The files of the parts: the bank, its teller, a source without a seal for its call, one that calls what it
/// imports, and what that calls, which goes right back.
pub(crate) fn files(alloc: Global) -> Result<MemFiles, AllocError> {
    let mut files = MemFiles::new(alloc)?;
    for (name, text) in &TEXTS {
        files.add(name, text.as_bytes())?;
    }
    Ok(files)
}
