// Groups, by type: open to contributions, or sorted. Each holds its places, and gives them back. These are
// given once and never grow, so that memory is fixed: no map stands here, since a map allocates. The two
// are no one type with a state for a parameter: what they keep and what their groups are differ, and a
// trait that names both is longer than the three one-line methods which they share.
ghost use Rattle.std.specs.Prelude.{◌^◌, ◌<◌, vec_len};
ghost use Rattle.groups.specs.Chains.{Linked, Ordered};

pub mod adding;
pub mod reading;

use cells::place::Place;

// Groups in order of arrival, in the first `used` places, chained by bucket.
#[derive(Drop)]
pub struct OpenGroups<V> {
    places: Vec<Place<V>>,
    used: usize,
    ghost few: { vec_len places < 2 ^ 32 },
    ghost kept: { ∥ Linked places.items used ∥₁ },
}

// Groups in ascending order, in the first `used` places.
#[derive(Drop)]
pub struct SortedGroups<V> {
    places: Vec<Place<V>>,
    used: usize,
    ghost few: { vec_len places < 2 ^ 32 },
    ghost kept: { ∥ Ordered places.items used ∥₁ },
}
