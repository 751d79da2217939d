// Runs of the program over a shelf and a sink in memory.
ghost use Rattle.std.specs.Prelude.{◌≡◌, ◌<◌};

use base_kit::{Memory, Steps, Tally};
use outside::{MemShelf, MemSink};
use penelope_cli::penelope;
use std::alloc::Global;
use std::marker::Brand;
use std::sync::ledger::{Blank, Ledger};

pub const SET: &str = "procedure SET (X, Y : in out INTEGER)
--| where in Y = 3; out X = 3; out Y = in Y; end where;
is begin X := Y; end SET;
";

pub const SET_REPORT: &str = "unit SET incomplete
  entry.1 open
    var X : INTEGER
    var Y : INTEGER
    hyp 1 : Y = 3
    goal (Y = 3) and (Y = Y)
";

// What fails: calls of the shelf, and writes; and how much the sink takes.
#[derive(Clone, Copy)]
pub struct Failing {
    pub call: u64,
    pub write: u64,
    pub room: usize,
    pub most: usize,
}

pub const NOTHING: Failing = Failing {
    call: 0,
    write: 0,
    room: 1_000_000,
    most: 1_000_000,
};

// What a run wrote, how often it called the shelf, how often a write failed, and its status.
#[derive(Drop)]
pub struct Outcome {
    pub text: Vec<u8>,
    pub calls: u64,
    pub faults: u64,
    pub status: u8,
}

// A run over a shelf.
fn run_over<P: Ledger>(
    alloc: Global,
    blank: Blank,
    words: &[String],
    mut shelf: MemShelf,
    failing: &Failing,
) -> Result<Outcome, Memory>
    requires name { blank.name ≡ P.name }
    requires parts { blank.parts ≡ P.parts }
    requires some { 0 < blank.parts }
{
    let writes = vec![in alloc; failing.write]?;
    let mut out = MemSink::new(alloc, failing.room, failing.most, writes)?;
    let mut steps = Steps::new(Tally::<P>::new(blank));
    let status = penelope(alloc, words, &mut shelf, &mut out, &mut steps);
    Ok(Outcome {
        text: out.written().to_vec(alloc)?,
        calls: shelf.calls(),
        faults: out.faults(),
        status,
    })
}

// Words, which have blanks between them.
fn words_of(alloc: Global, words: &str) -> Result<Vec<String>, Memory> {
    let mut owned = Vec::new(alloc);
    for word in words.split(' ') {
        owned.push(String::from_str(alloc, word)?)?;
    }
    Ok(owned)
}

// A run over a shelf, by the words that these are.
fn run_on(
    alloc: Global,
    words: &str,
    shelf: MemShelf,
    failing: &Failing,
) -> Result<Outcome, Memory> {
    let words = words_of(alloc, words)?;
    run_over::<Brand>(alloc, Blank::new(1), words.as_slice(), shelf, failing)
}

// A run over one file, named a.
pub fn run(alloc: Global, words: &str, file: &[u8], failing: &Failing) -> Result<Outcome, Memory> {
    let mut shelf = MemShelf::new(alloc, vec![in alloc; failing.call]?);
    shelf.add(alloc, "a", file)?;
    run_on(alloc, words, shelf, failing)
}

// A run over two files, named a and b.
pub fn run_pair(
    alloc: Global,
    words: &str,
    first: &[u8],
    second: &[u8],
    failing: &Failing,
) -> Result<Outcome, Memory> {
    let mut shelf = MemShelf::new(alloc, vec![in alloc; failing.call]?);
    shelf.add(alloc, "a", first)?;
    shelf.add(alloc, "b", second)?;
    run_on(alloc, words, shelf, failing)
}

// Files by their names.
pub type Files = &'static [(&'static str, &'static str)];

// A run over several files.
pub fn run_files(
    alloc: Global,
    words: &str,
    files: Files,
    failing: &Failing,
) -> Result<Outcome, Memory> {
    let mut shelf = MemShelf::new(alloc, vec![in alloc; failing.call]?);
    for (name, text) in files {
        shelf.add(alloc, name, text.as_bytes())?;
    }
    run_on(alloc, words, shelf, failing)
}

// Whether the run wrote this, and ended with this status.
pub fn gives(got: &Outcome, text: &str, status: u8) -> bool {
    got.text.as_slice() == text.as_bytes() && got.status == status
}
