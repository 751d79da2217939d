// The files and the standard output of the system: the edge that is trusted.
ghost use Rattle.std.specs.Prelude.{◌≡◌, ◌≤◌, ◌<◌, length, take, None, option_map, IfOk, IsOk, OnOk, OnErr, IsErrOf};
ghost use Rattle.outside.specs.Meaning.{silent, NoneFell, CalledTimes, Rose, raised, Found, NotFound, FoundLonger, with_file, OthersStayHeld, written_more};
ghost use Rattle.outside.specs.System.{counted_error, counted_result};

use crate::ends::{cause_of, read_front, write_front, write_whole};
use crate::{Shelf, ShelfError, Sink, SinkError};
use std::alloc::Global;
use std::io::ErrorKind;
use std::marker::Model;
use std::rt::Files;
use std::{fs, io};

/// Files by their paths. It tells neither what they hold nor how many calls it had.
#[derive(Drop)]
pub struct FileShelf<'a, R: Files> {
    rt: &'a R,
    faults: u64,
    absences: u64,
    excesses: u64,
}

impl<'a, R: Files> Model for FileShelf<'a, R> {
    ghost use Rattle.outside.specs.Meaning.{ShelfCounts};

    ghost Value = { ShelfCounts };

    ghost view = { λ s. record { faults = s.faults; absences = s.absences; excesses = s.excesses } };
}

impl<'a, R: Files> FileShelf<'a, R> {
    /// It takes no memory.
    pub fn new(rt: &'a R) -> Self
        ensures { result ≡ record { faults = 0; absences = 0; excesses = 0 } }
    {
        FileShelf {
            rt,
            faults: 0,
            absences: 0,
            excesses: 0,
        }
    }
}

impl<R: Files> FileShelf<'_, R> {
    // Counts an answer that isn't Ok, and gives it.
    fn count(&mut self, error: ShelfError) -> ShelfError
        ensures answer { result ≡ error }
        ensures counted { self.new ≡ counted_error self.old error }
    {
        match error {
            ShelfError::Failed => self.faults = self.faults.saturating_add(1),
            ShelfError::Absent => self.absences = self.absences.saturating_add(1),
            ShelfError::TooLong => self.excesses = self.excesses.saturating_add(1),
            ShelfError::Memory => {}
        }
        error
    }
}

fn read_file<R: Files>(rt: &R, alloc: Global, name: &str, limit: u64) -> io::Result<Vec<u8>> {
    read_front(alloc, fs::open(rt, name)?, limit)
}

fn write_file<R: Files>(rt: &R, name: &str, bytes: &[u8]) -> io::Result<()> {
    let _file = write_whole(fs::create(rt, name)?, bytes)?;
    Ok(())
}

// The bytes within the limit, or what is wrong with them.
fn within(read: io::Result<Vec<u8>>, limit: u64) -> Result<Vec<u8>, ShelfError>
    ensures ok { IfOk result (λ bytes. IfOk read (λ had. (bytes ≡ had) × (length had.items ≤ limit))) }
    ensures read { OnOk result (IsOk read) }
    ensures too_long { IsErrOf result ShelfError.TooLong → IfOk read (λ had. limit < length had.items) }
    ensures has_read { IsErrOf result ShelfError.TooLong → IsOk read }
{
    match read {
        Ok(bytes) if bytes.len() as u64 > limit => Err(ShelfError::TooLong),
        Ok(bytes) => Ok(bytes),
        Err(error) => Err(cause_of(error.kind())),
    }
}

impl<R: Files> Shelf for FileShelf<'_, R> {
    ghost use Rattle.outside.specs.Meaning.{silent};

    ghost state = { silent };

    fn get(&mut self, alloc: Global, name: &str, limit: u64) -> Result<Vec<u8>, ShelfError>
        ensures called { CalledTimes 1 (silent self.old) (silent self.new) }
        ensures counts { NoneFell (silent self.old) (silent self.new) }
        ensures kept { (silent self.new).holds ≡ (silent self.old).holds }
        ensures within { IfOk result (λ bytes. length bytes.items ≤ limit) }
        ensures found { IfOk result (λ bytes. Found (silent self.old).holds name.now bytes.items) }
        ensures failed { IsErrOf result ShelfError.Failed → Rose self.old.faults self.new.faults }
        ensures absent { IsErrOf result ShelfError.Absent → Rose self.old.absences self.new.absences }
        ensures not_held { IsErrOf result ShelfError.Absent → NotFound (silent self.old).holds name.now }
        ensures too_long { IsErrOf result ShelfError.TooLong → Rose self.old.excesses self.new.excesses }
        ensures longer { IsErrOf result ShelfError.TooLong → FoundLonger (silent self.old).holds name.now limit }

        // Beside what every shelf ensures: each answer raises its own count by one, and no other.
        ensures counted { self.new ≡ counted_result self.old result }
    {
        match within(read_file(self.rt, alloc, name, limit), limit) {
            Ok(bytes) => Ok(bytes),
            Err(error) => Err(self.count(error)),
        }
    }

    fn put(&mut self, _alloc: Global, name: &str, bytes: &[u8]) -> Result<(), ShelfError>
        ensures called { CalledTimes 1 (silent self.old) (silent self.new) }
        ensures counts { NoneFell (silent self.old) (silent self.new) }
        ensures stored { OnOk result ((silent self.new).holds ≡ option_map (with_file name.now bytes.now) (silent self.old).holds) }
        ensures failed { IsErrOf result ShelfError.Failed → Rose self.old.faults self.new.faults }
        ensures others { IsErrOf result ShelfError.Failed → OthersStayHeld name.now (silent self.old).holds (silent self.new).holds }
        ensures memory { IsErrOf result ShelfError.Memory → (silent self.new).holds ≡ (silent self.old).holds }
        ensures not_absent { ¬ IsErrOf result ShelfError.Absent }
        ensures not_too_long { ¬ IsErrOf result ShelfError.TooLong }

        // Beside what every shelf ensures: each answer raises its own count by one, and no other.
        ensures counted { self.new ≡ counted_result self.old result }
    {
        match write_file(self.rt, name, bytes) {
            Ok(()) => Ok(()),
            Err(error) => {
                if error.kind() == ErrorKind::OutOfMemory {
                    return Err(ShelfError::Memory);
                }
                Err(self.count(ShelfError::Failed))
            }
        }
    }
}

/// Standard output. It doesn't tell what was written.
#[derive(Drop)]
pub struct StdSink<'a, R: Print> {
    rt: &'a R,
    faults: u64,
}

impl<'a, R: Print> Model for StdSink<'a, R> {
    ghost use Rattle.std.specs.Prelude.{None};
    ghost use Rattle.outside.specs.Meaning.{SinkState};

    ghost Value = { SinkState };

    ghost view = { λ s. record { written = None; faults = s.faults } };
}

impl<'a, R: Print> StdSink<'a, R> {
    /// It takes no memory.
    pub fn new(rt: &'a R) -> Self
        ensures { result ≡ record { written = None; faults = 0 } }
    {
        StdSink { rt, faults: 0 }
    }
}

impl<R: Print> Sink for StdSink<'_, R> {
    ghost state = { λ s. s };

    fn write(&mut self, piece: &[u8]) -> Result<usize, SinkError>
        ensures counts { self.old.faults ≤ self.new.faults }
        ensures within { IfOk result (λ count. count ≤ length piece.now) }
        ensures some { IfOk result (λ count. 0 < length piece.now → 0 < count) }
        ensures written { IfOk result (λ count. self.new.written ≡ written_more self.old.written (take count piece.now)) }
        ensures failed { OnErr result (Rose self.old.faults self.new.faults) }
        ensures kept { OnErr result (self.new.written ≡ self.old.written) }

        // Beside what every sink ensures: a failure raises the count by one, and nothing else does.
        ensures taken { OnOk result (self.new ≡ self.old) }
        ensures counted { OnErr result (self.new ≡ record self.old { faults = raised 1 self.old.faults }) }
    {
        match write_front(&mut io::writer(self.rt), piece) {
            Ok(count) => Ok(count),
            Err(failed) => {
                self.faults = self.faults.saturating_add(1);
                Err(failed)
            }
        }
    }
}
