// Gets the sources from the shelf.
ghost use Rattle.std.specs.Prelude.{◌≡◌, ◌≤◌, length, map, string_bytes, IfOk};
ghost use Rattle.std.specs.List.{All};
ghost use Rattle.penelope_cli.specs.Gets.{Gets};
ghost use Rattle.penelope_cli.specs.Plans.{fetch_source, fetch_all};

use crate::tell::end_with_line;
use base_kit::{Names, Text};
use outside::{Shelf, ShelfError, Sink, Status};
use std::alloc::Global;

/// The most bytes of a source.
pub const MOST_BYTES: u64 = 4_194_304;

// Gets a source, or answers how the run ended.
fn get<S: Shelf, K: Sink>(
    alloc: Global,
    name: &str,
    shelf: &mut S,
    out: &mut K,
) -> Result<Text, Status>
    ensures gets { Gets (fetch_source name.now) result (S.state shelf.old) (S.state shelf.new)
        (K.state out.old) (K.state out.new) }
    ensures short { IfOk result (λ bytes. length bytes ≤ MOST_BYTES) }
{
    match shelf.get(alloc, name, MOST_BYTES) {
        Ok(bytes) => Ok(Text::from(bytes)),
        Err(ShelfError::Absent) => Err(end_with_line(out, "absent ", name, Status::ShelfFailed)),
        Err(ShelfError::TooLong) => Err(end_with_line(out, "too long ", name, Status::SourceFault)),
        Err(ShelfError::Failed) => Err(end_with_line(out, "failed ", name, Status::ShelfFailed)),
        Err(ShelfError::Memory) => Err(Status::NoMemory),
    }
}

/// Gets the sources of these names in order, or answers how the run ended.
pub fn get_all<S: Shelf, K: Sink>(
    alloc: Global,
    names: &[String],
    shelf: &mut S,
    out: &mut K,
) -> Result<Names, Status>
    ensures gets { Gets (fetch_all (map string_bytes names.now)) result
        (S.state shelf.old) (S.state shelf.new) (K.state out.old) (K.state out.new) }
    ensures short { IfOk result (λ sources. All (λ bytes. length bytes ≤ MOST_BYTES) sources) }
    ensures number { IfOk result (λ sources. length sources ≡ length names.now) }
{
    let mut sources = Names::new(alloc);
    for name in names {
        let bytes = get(alloc, name.as_str(), shelf, out)?;
        sources.push(bytes).map_err(|_| Status::NoMemory)?;
    }
    Ok(sources)
}
