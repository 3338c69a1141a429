// What a group holds.
ghost use Rattle.std.specs.Prelude.{◌≡◌};
ghost use Rattle.cells.specs.Groups.{grown as has_grown};

use crate::id::GroupId;
use measures::measure::Measure;

// One group, or a contribution to one: whose it is, how many rows, and the value of these.
#[derive(Clone, Copy)]
pub struct Cell<V> {
    pub id: GroupId,
    pub rows: u32,
    pub value: V,
}

// A group to which a contribution came: the contribution's value is joined in front. Row counts are
// added; past 32 bits the count stays at their end.
pub fn grown<M: Measure>(measure: &M, new: Cell<M::Value>, old: Cell<M::Value>) -> Cell<M::Value>
    ensures { result ≡ has_grown (M.Measure.meaning measure.now).join new old }
{
    Cell {
        id: old.id,
        rows: new.rows.saturating_add(old.rows),
        value: measure.join(new.value, old.value),
    }
}
