// Library units, and which of them a unit's context shows.
ghost use Rattle.std.specs.Prelude.{◌≡◌, IfOk};
ghost use Rattle.std.specs.Option.{option_copied};
ghost use Rattle.ada_names.specs.Sees as spec;

use crate::outward::is_visible;
use crate::scope::Scope;
use ada_names::{Entry, Space, has_ended, kid};
use ada_tree::Kind;
use base_kit::{Copied, Memory, Path, Text};
use std::alloc::Global;

/// The unit of a place: its file, and its number there.
pub fn unit_of(alloc: Global, place: &Path) -> Result<Path, Memory>
    ensures { IfOk result (λ unit. unit ≡ spec.unit_of place.now) }
{
    let mut unit = Vec::from_slice(alloc, place.0.as_slice())?;
    unit.truncate(2);
    Ok(Path(unit))
}

impl Scope {
    /// What a unit declares or completes.
    fn library_entry(&self, unit: &Path) -> Result<Option<&Entry>, Memory>
        ensures { IfOk result (λ e. option_copied e ≡ spec.library_entry self.now unit.now) }
    {
        let library = kid(self.alloc, unit, 1)?;
        match self.table.at(&library.0) {
            Some(entry) => Ok(Some(entry)),
            None => {
                let specification = kid(self.alloc, &library, 0)?;
                Ok(self.table.at(&specification.0))
            }
        }
    }

    /// The unit where the declaration of a unit stands.
    fn declaration_unit(&self, unit: &Path) -> Result<Path, Memory>
        ensures { IfOk result (λ path. path ≡ spec.declaration_unit self.now unit.now) }
    {
        match self.library_entry(unit)? {
            Some(entry) => unit_of(self.alloc, &entry.origin),
            None => unit.copy(self.alloc),
        }
    }

    /// The same for the unit of a place.
    pub(crate) fn declaration_unit_at(&self, place: &Path) -> Result<Path, Memory>
        ensures { IfOk result (λ path. path ≡ spec.declaration_unit self.now (spec.unit_of place.now)) }
    {
        let unit = unit_of(self.alloc, place)?;
        self.declaration_unit(&unit)
    }

    // Whether it is that unit's own declaration, or a `with` clause of that unit names it.
    fn is_known_in(&self, entry: &Entry, unit: &Path) -> Result<bool, Memory>
        ensures { IfOk result (λ b. b ≡ spec.is_known_in self.now entry.now unit.now) }
    {
        let own = unit_of(self.alloc, &entry.place)?;
        if own.0.as_slice() == unit.0.as_slice() {
            return Ok(true);
        }
        Ok(self.first(Space::Withs, unit, &entry.name)?.is_some())
    }

    fn is_in_context(&self, place: &Path, entry: &Entry) -> Result<bool, Memory>
        ensures { IfOk result (λ b. b ≡ spec.is_in_context self.now place.now entry.now) }
    {
        let unit = unit_of(self.alloc, place)?;
        if self.is_known_in(entry, &unit)? {
            return Ok(true);
        }
        let declared = self.declaration_unit_at(place)?;
        self.is_known_in(entry, &declared)
    }

    /// The library unit of a name that is visible at a place.
    pub(crate) fn library_unit(&self, place: &Path, name: &Text) -> Result<Option<&Entry>, Memory>
        ensures { IfOk result (λ e. option_copied e ≡ spec.library_unit self.now place.now name.now) }
    {
        let library = Path(Vec::new(self.alloc));
        match self.first(Space::Names, &library, name)? {
            Some(entry) if is_visible(place, entry) => {
                if self.is_in_context(place, entry)? {
                    Ok(Some(entry))
                } else {
                    Ok(None)
                }
            }
            _ => Ok(None),
        }
    }

    /// The library unit of a name whose declaration stands before a place.
    pub(crate) fn earlier_unit(&self, place: &Path, name: &Text) -> Result<Option<&Entry>, Memory>
        ensures { IfOk result (λ e. option_copied e ≡ spec.earlier_unit self.now place.now name.now) }
    {
        let library = Path(Vec::new(self.alloc));
        match self.first(Space::Names, &library, name)? {
            Some(entry) if has_ended(entry.from.0.as_slice(), place.0.as_slice()) => {
                Ok(Some(entry))
            }
            _ => Ok(None),
        }
    }

    /// Whether a place is in a trait.
    pub(crate) fn is_in_trait(&self, place: &Path) -> Result<bool, Memory>
        ensures { IfOk result (λ b. b ≡ spec.is_in_trait self.now place.now) }
    {
        let unit = unit_of(self.alloc, place)?;
        match self.table.at(&unit.0) {
            Some(entry) => Ok(entry.kind == Kind::Trait),
            None => Ok(false),
        }
    }

    /// The predefined name that is seen at a place.
    pub(crate) fn predefined_name(
        &self,
        place: &Path,
        name: &Text,
    ) -> Result<Option<&Entry>, Memory>
        ensures { IfOk result (λ e. option_copied e ≡ spec.predefined_name self.now place.now name.now) }
    {
        let everywhere = Path(Vec::new(self.alloc));
        match self.first(Space::Predefined, &everywhere, name)? {
            Some(entry) => {
                if entry.kind == Kind::Enum || !self.is_in_trait(place)? {
                    Ok(Some(entry))
                } else {
                    Ok(None)
                }
            }
            None => Ok(None),
        }
    }
}
