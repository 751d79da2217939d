//! `penelope`: reads Ada units with annotations, and prints their proof obligations.
#![tactic(auto)]

ghost use Rattle.std.specs.Prelude.{◌≡◌, ◌<◌, map, string_bytes, IfOk, OnErr};
ghost use Rattle.outside.specs.declared.status.Status.TheVariants.{NoMemory};
ghost use Rattle.outside.specs.Statuses.{code_of};
ghost use Rattle.penelope_cli.specs.Promises.{Run, Keeps};

use base_kit::{Memory, Steps, Tally};
use outside::{FileShelf, Shelf, Sink, Status, StdSink};
use penelope_cli::penelope;
use std::alloc::Global;
use std::env;
use std::io::ErrorKind;
use std::marker::Brand;
use std::process::ExitCode;
use std::rt::Env;
use std::sync::ledger::{Blank, Ledger};

// The program with a ledger of its own, over any shelf and any sink. Without memory for the words it
// does nothing.
fn run<S: Shelf, K: Sink, P: Ledger>(
    alloc: Global,
    blank: Blank,
    words: Result<Vec<String>, Memory>,
    shelf: &mut S,
    out: &mut K,
) -> u8
    requires name { blank.name ≡ P.name }
    requires parts { blank.parts ≡ P.parts }
    requires some { 0 < blank.parts }
    ensures words { IfOk words (λ given. Keeps record {
      words = map string_bytes given.items;
      code = result;
      shelf = S.state shelf.old;
      shelf_after = S.state shelf.new;
      sink = K.state out.old;
      sink_after = K.state out.new;
    }) }
    ensures no_words { OnErr words (result ≡ code_of NoMemory) }
    ensures no_shelf { OnErr words (S.state shelf.new ≡ S.state shelf.old) }
    ensures no_sink { OnErr words (K.state out.new ≡ K.state out.old) }
{
    match words {
        Ok(words) => {
            let mut steps = Steps::new(Tally::<P>::new(blank));
            penelope(alloc, words.as_slice(), shelf, out, &mut steps)
        }
        Err(_) => Status::NoMemory.code(),
    }
}

// The words after the program's name; none where they can't be had.
fn words_of(rt: &(impl Env + Alloc<A = Global>)) -> Result<Vec<String>, Memory> {
    match env::args(rt) {
        Ok(words) => Ok(words.skip(1).collect(rt.alloc())?),
        Err(error) if error.kind() == ErrorKind::OutOfMemory => Err(Memory),
        Err(_) => Ok(Vec::new(rt.alloc())),
    }
}

fn main(rt: HostRuntime) -> ExitCode {
    ExitCode::from(run::<FileShelf<'_, HostRuntime>, StdSink<'_, HostRuntime>, Brand>(
        rt.alloc(),
        Blank::new(1),
        words_of(&rt),
        &mut FileShelf::new(&rt),
        &mut StdSink::new(&rt),
    ))
}
