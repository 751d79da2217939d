// Direct visibility: from the regions round a place outward.
ghost use Rattle.std.specs.Prelude.{◌≡◌, ◌+◌, ◌<◌, take, length, IfOk};
ghost use Rattle.std.specs.Option.{option_copied};
ghost use Rattle.ada_names.specs.Entries.{first_of};
ghost use Rattle.ada_names.specs.Sees as spec;

use crate::scope::Scope;
use ada_names::{Entry, Key, Space, has_ended, is_in, kid};
use ada_tree::Kind;
use base_kit::{Copied, Memory, Path, Text};
use std::alloc::Global;

/// Whether a declaration is visible at a place.
pub fn is_visible(place: &Path, entry: &Entry) -> bool
    ensures { result ≡ spec.is_visible place.now entry.now }
{
    has_ended(entry.from.0.as_slice(), place.0.as_slice())
        || (entry.kind == Kind::Pack && is_in(entry.place.0.as_slice(), place.0.as_slice()))
}

/// The node round a place that has this many nodes round it below the document.
pub fn front_at(alloc: Global, place: &Path, depth: usize) -> Result<Path, Memory>
    requires { depth < length place.now }
    ensures { IfOk result (λ front. front ≡ take (depth + 1) place.now) }
{
    let mut front = Vec::from_slice(alloc, place.0.as_slice())?;
    front.truncate(depth + 1);
    Ok(Path(front))
}

impl Scope {
    /// The first entry of a name in a region.
    pub(crate) fn first(
        &self,
        space: Space,
        region: &Path,
        name: &Text,
    ) -> Result<Option<&Entry>, Memory>
        ensures { IfOk result (λ e. option_copied e ≡ first_of self.now space region.now name.now) }
    {
        let key = Key {
            space,
            region: Vec::from_slice(self.alloc, region.0.as_slice())?,
            name: Vec::from_slice(self.alloc, name.as_bytes())?,
        };
        Ok(self.table.first(&key))
    }

    // The region that begins at a node.
    fn region_of(&self, front: Path) -> Result<Path, Memory>
        ensures { IfOk result (λ region. region ≡ spec.region_of self.now front) }
    {
        match self.table.at(&front.0) {
            Some(entry) if entry.kind == Kind::Body => entry.origin.copy(self.alloc),
            _ => Ok(front),
        }
    }

    fn in_region(&self, place: &Path, name: &Text, region: &Path) -> Result<Option<&Entry>, Memory>
        ensures { IfOk result (λ e. option_copied e ≡ spec.in_region self.now place.now name.now region.now) }
    {
        match self.first(Space::Names, region, name)? {
            Some(entry) if is_visible(place, entry) => Ok(Some(entry)),
            _ => Ok(None),
        }
    }
}

impl Scope {
    // The predefined name or the library unit: what no region round the place has.
    fn outermost(&self, place: &Path, name: &Text) -> Result<Option<&Entry>, Memory>
        ensures { IfOk result (λ e. option_copied e ≡ spec.seen_from self.now place.now name.now 0) }
    {
        match self.library_unit(place, name)? {
            Some(entry) => Ok(Some(entry)),
            None => self.predefined_name(place, name),
        }
    }

    /// The region that begins at the node round the place that has this many nodes round it below the
    /// document.
    pub(crate) fn region_at(&self, place: &Path, depth: usize) -> Result<Path, Memory>
        requires { depth < length place.now }
        ensures { IfOk result (λ region. region ≡ spec.region_of self.now (take (depth + 1) place.now)) }
    {
        let front = front_at(self.alloc, place, depth)?;
        self.region_of(front)
    }

    // What the region at that node has.
    fn at_depth(&self, place: &Path, name: &Text, depth: usize) -> Result<Option<&Entry>, Memory>
        requires { depth < length place.now }
        ensures { IfOk result (λ e. option_copied e ≡ spec.in_region self.now place.now name.now (spec.region_of self.now (take (depth + 1) place.now))) }
    {
        let region = self.region_at(place, depth)?;
        self.in_region(place, name, &region)
    }

    /// What a name sees without `use` clauses.
    #[tactic(auto, using(crate::proofs::Steps::seen_further))]
    pub(crate) fn directly(&self, place: &Path, name: &Text) -> Result<Option<&Entry>, Memory>
        ensures { IfOk result (λ e. option_copied e ≡ spec.directly self.now place.now name.now) }
    {
        for depth in (0..place.0.len()).rev() {
            if let Some(entry) = self.at_depth(place, name, depth)? {
                return Ok(Some(entry));
            }
        }
        self.outermost(place, name)
    }
}
