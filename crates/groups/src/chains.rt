// Cells in order of arrival, found by hash chains that lie inside the places. Each function works on a
// lent slice, of whose places the first `used` are live. The chains are broken between the writes here, so a struct of
// the two could have no invariant that says they are whole; OpenGroups has it, where they are.
ghost use Rattle.std.specs.Prelude.{◌≡◌, ℕ, ◌+◌, ◌^◌, ◌<◌, ◌≤◌, length, drop, slice_index_or, slice_set, MatchOption};
ghost use Rattle.cells.specs.Groups.{in_order, Apart};
ghost use Rattle.cells.specs.Groups.{grown as has_grown};
ghost use Rattle.groups.specs.Chains.{bucket_of};
ghost use Rattle.groups.specs.Chains.{cells_of, live, Chained, Found, Putting};

use crate::added::{Added, NoRoom};
use cells::cell::{Cell, grown};
use cells::id::GroupId;
use cells::place::{Place, is_end, is_full, sort_places};
use measures::measure::Measure;

// The bucket of a group, of `count` buckets.
fn bucket(id: &GroupId, count: usize) -> usize
    requires { 0 < count }
    ensures value { result ≡ bucket_of id.now count }
    ensures bound { result < count }
{
    // between `u64` and `usize` there is no `From`; `as` is proved to lose nothing
    (id.hash() % count as u64) as usize
}

// The index that a link goes to, if it goes to one.
fn target(link: u32) -> Option<usize>
    ensures { MatchOption result (link ≡ 0) (λ i. i + 1 ≡ link) }
{
    // `usize` has no `From<u32>`; `as` is proved to lose nothing
    let above = link as usize;
    if is_end(above) { None } else { Some(above - 1) }
}

// Where the cell of a group is among the live ones.
pub(crate) fn seek<V>(places: &[Place<V>], used: usize, id: &GroupId) -> Option<usize>
    requires { Chained places.now used }
    ensures { Found id.now (live used places.now) result }
{
    if places.is_empty() {
        return None;
    }
    let b = bucket(id, places.len());
    let mut at = places[b].head;
    while let Some(i) = target(at) {
        if places[i].cell.id.is(id) {
            return Some(i);
        }
        at = places[i].next;
    }
    None
}

// Every bucket becomes empty, whatever the places hold.
pub(crate) fn clear<V: Copy>(places: &mut [Place<V>])
    ensures cells { cells_of places.new ≡ cells_of places.old }
    ensures chained { Chained places.new 0 }
{
    for place in places.iter_mut() {
        *place = place.with_head(0);
    }
}

// Puts the cell at i into its chain, where those before it are chained.
fn link<V: Copy>(places: &mut [Place<V>], i: usize)
    requires within { i < length places.old }
    requires few { length places.old < 2 ^ 32 }
    requires chained { Chained places.old i }
    ensures cells { cells_of places.new ≡ cells_of places.old }
    ensures chained { Chained places.new (i + 1) }
{
    let count = places.len();
    let b = bucket(&places[i].cell.id, count);
    let newest = places[b].head;
    places[i] = places[i].with_next(newest);
    // there are fewer places than links: `as` is proved to lose nothing, and `try_from` would have a case that never comes
    places[b] = places[b].with_head((i + 1) as u32);
}

// One cell more.
fn append<V: Copy>(places: &mut [Place<V>], used: usize, cell: Cell<V>)
    requires within { used < length places.old }
    requires few { length places.old < 2 ^ 32 }
    requires chained { Chained places.old used }
    ensures cells { cells_of places.new ≡ slice_set (cells_of places.old) used cell }
    ensures chained { Chained places.new (used + 1) }
{
    places[used] = places[used].with_cell(cell);
    link(places, used);
}

// The cell at i, to whose group a contribution came.
fn grow<M: Measure>(measure: &M, places: &mut [Place<M::Value>], i: usize, new: Cell<M::Value>)
    requires { i < length places.old }
    ensures cells { cells_of places.new ≡ slice_set (cells_of places.old) i (has_grown (M.Measure.meaning measure.now).join new (slice_index_or (cells_of places.old) i new)) }
    ensures chained { (used : ℕ) → Chained places.old used → Chained places.new used }
{
    let cell = grown(measure, new, places[i].cell);
    places[i] = places[i].with_cell(cell);
}

// A contribution to its group, which begins where there is none and a place is left.
pub(crate) fn put<M: Measure>(
    measure: &M,
    places: &mut [Place<M::Value>],
    used: usize,
    new: Cell<M::Value>,
) -> Result<Added, NoRoom>
    requires few { length places.old < 2 ^ 32 }
    requires chained { Chained places.old used }
    requires apart { Apart (live used places.old) }
    ensures { Putting (M.Measure.meaning measure.now).join new places.old used places.new result }
{
    match seek(places, used, &new.id) {
        Some(i) => {
            grow(measure, places, i, new);
            Ok(Added::Grown)
        }
        None if is_full(used, places.len()) => Err(NoRoom),
        None => {
            append(places, used, new);
            Ok(Added::Begun)
        }
    }
}

// Chains the live cells anew, whatever the chains were.
pub(crate) fn relink<V: Copy>(places: &mut [Place<V>], used: usize)
    requires within { used ≤ length places.old }
    requires few { length places.old < 2 ^ 32 }
    ensures cells { cells_of places.new ≡ cells_of places.old }
    ensures chained { Chained places.new used }
{
    clear(places);
    // the index is what is linked
    for i in 0..used {
        link(places, i);
    }
}

// The live cells in the order of their groups.
pub(crate) fn sort<V>(places: &mut [Place<V>], used: usize)
    requires within { used ≤ length places.old }
    requires apart { Apart (live used places.old) }
    ensures live { live used places.new ≡ in_order (live used places.old) }
    ensures rest { drop used (cells_of places.new) ≡ drop used (cells_of places.old) }
{
    sort_places(&mut places[..used]);
}
