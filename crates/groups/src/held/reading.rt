// What can be done with sorted groups.
ghost use Rattle.std.specs.Prelude.{◌≡◌, ◌≤◌, length, take};
ghost use Rattle.cells.specs.Groups.{Sorted};
ghost use Rattle.groups.specs.Chains.{cells_of};
ghost use Rattle.groups.specs.Held.{sorted_groups, Linking};

use crate::chains;
use crate::held::{OpenGroups, SortedGroups};
use cells::place::Place;

// The first places.
fn front<V>(places: &[Place<V>], n: usize) -> &[Place<V>]
    requires { n ≤ length places.now }
    ensures { result.now ≡ take n places.now }
{
    &places[..n]
}

impl<V: Copy> SortedGroups<V> {
    // How many places are live.
    fn count(&self) -> usize
        ensures { result ≡ self.now.used }
    {
        self.used // the live places come first
    }

    // How many groups there are.
    pub fn len(&self) -> usize
        ensures { result ≡ length (sorted_groups self.now) }
    {
        self.count()
    }

    // The places of the groups: their cells are the groups in order.
    pub fn live(&self) -> &[Place<V>]
        ensures groups { cells_of result.now ≡ sorted_groups self.now }
        ensures sorted { Sorted (cells_of result.now) }
    {
        front(self.places.as_slice(), self.used)
    }

    // The same groups, open to contributions again.
    pub fn link(self) -> OpenGroups<V>
        ensures { Linking self result }
    {
        let used = self.used;
        let mut places = self.places;
        chains::relink(places.as_mut_slice(), used);
        OpenGroups { places, used }
    }

    // The places back, as they are.
    pub fn into_places(self) -> Vec<Place<V>>
        ensures { result ≡ self.places }
    {
        self.places // whatever they hold
    }
}
