// What can be done with open groups.
ghost use Rattle.std.specs.Prelude.{◌≡◌, ℕ, ◌+◌, List, length, vec_len};
ghost use Rattle.cells.specs.Groups.{lookup};
ghost use Rattle.cells.specs.Contributions.{there, begins as has_begun, beginning, ids as ids_of, heard_on};
ghost use Rattle.groups.specs.Held.{open_groups, Starting, Adding, Sorting};

use crate::added::{Added, NoRoom};
use crate::chains;
use crate::held::{OpenGroups, SortedGroups};
use cells::cell::Cell;
use cells::id::{GroupId, listed};
use cells::place::Place;
use measures::measure::Measure;

// The most places that links can tell apart.
pub const MOST_PLACES: usize = 0xFFFF_FFFF;

impl<V: Copy> OpenGroups<V> {
    // No groups, in whatever places; more places than links can tell apart are given back.
    pub fn start(mut places: Vec<Place<V>>) -> Result<OpenGroups<V>, Vec<Place<V>>>
        ensures { Starting places result }
    {
        if places.len() > MOST_PLACES {
            return Err(places);
        }
        chains::clear(places.as_mut_slice());
        Ok(OpenGroups { places, used: 0 })
    }

    // How many places are live.
    fn count(&self) -> usize
        ensures { result ≡ self.now.used }
    {
        self.used // the live places come first
    }

    // How many groups there are.
    pub fn len(&self) -> usize
        ensures { result ≡ length (open_groups self.now) }
    {
        self.count()
    }

    // How many places there are.
    pub fn room(&self) -> usize
        ensures { result ≡ vec_len self.now.places }
    {
        self.places.len()
    }

    // The group, if it is there.
    pub fn find(&self, id: &GroupId) -> Option<Cell<V>>
        ensures { result ≡ lookup id.now (open_groups self.now) }
    {
        let i = chains::seek(self.places.as_slice(), self.used, id)?;
        Some(self.places[i].cell)
    }

    // Whether the group is there.
    pub fn has(&self, id: &GroupId) -> bool
        ensures { result ≡ there id.now (open_groups self.now) }
    {
        self.find(id).is_some()
    }

    // Whether a group is not there yet, and is not among those to come later.
    fn begins(&self, id: &GroupId, later: &[GroupId]) -> bool
        ensures { result ≡ has_begun id.now later.now (open_groups self.now) }
    {
        !self.has(id) && !listed(id, later)
    }

    // How many groups contributions with these ids would begin. An id that stands more than once
    // counts once; to see that, each new id is compared with those after it.
    pub fn missing(&self, ids: &[GroupId]) -> usize
        ensures counts { result ≡ beginning ids.now (open_groups self.now) }
        ensures exact { (joins : ℕ → V → V → V) (xs : List (Cell V)) → ids_of xs ≡ ids.now → length (heard_on joins (open_groups self.now) xs) ≡ length (open_groups self.now) + result }
    {
        let mut n = 0;
        let mut rest = ids;
        while let Some((id, later)) = rest.split_first() {
            if self.begins(id, later) {
                n += 1;
            }
            rest = later;
        }
        n
    }

    // A contribution: its group has grown by it, or is new; where there is no room, nothing changes.
    pub fn add<M: Measure<Value = V>>(&mut self, measure: &M, new: Cell<V>) -> Result<Added, NoRoom>
        ensures { Adding (M.Measure.meaning measure.now).join new self.old self.new result }
    {
        let used = self.used;
        match chains::put(measure, self.places.as_mut_slice(), used, new)? {
            Added::Grown => Ok(Added::Grown),
            Added::Begun => {
                self.used = used + 1;
                Ok(Added::Begun)
            }
        }
    }

    // The same groups, sorted.
    pub fn sort(self) -> SortedGroups<V>
        ensures { Sorting self result }
    {
        let used = self.used;
        let mut places = self.places;
        chains::sort(places.as_mut_slice(), used);
        SortedGroups { places, used }
    }

    // The places back, as they are.
    pub fn into_places(self) -> Vec<Place<V>>
        ensures { result ≡ self.places }
    {
        self.places // whatever they hold
    }
}
