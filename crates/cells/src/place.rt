// Where a group lies.
ghost use Rattle.std.specs.Prelude.{◌≡◌, ◌==◌};
ghost use Rattle.std.specs.declared.cmp.Ordering.{Ordering};
ghost use Rattle.std.specs.List.Sorted.{IsPermutation, IsSorted};
ghost use Rattle.std.specs.Cmp.{eq_by_cmp_equiv, on_total, partial_equiv_from_equiv};
ghost use Rattle.std.specs.Cmp.Rules.{comparing};
ghost use Rattle.std.specs.Ordering.{as_partial_cmp, eq_by_cmp, on};
ghost use Rattle.cells.specs.Order.{order, order_total};
ghost use Rattle.std.proofs.Common.{refl};
ghost use Rattle.cells.specs.Places.{with_next as next_put, with_head as head_put, with_cell as cell_put};

use crate::cell::Cell;
use std::cmp::Ordering;

// A cell, and two links of the chains in which cells are found. Each place is also a bucket: its head
// links to the newest cell of the bucket with the place's own index, and next to the next older cell
// of the bucket that the place's cell is in. A link is 0, for none, or one more than an index: an
// Option of a link, of a `NonZeroU32` too, takes eight bytes here and not four (measured), and there are two in every
// place.
#[derive(Clone, Copy)]
pub struct Place<V> {
    pub cell: Cell<V>,
    pub head: u32,
    pub next: u32,
}

impl<V: Copy> Place<V> {
    // A place that holds a cell; what it holds does not matter until groups are started in it.
    pub fn new(cell: Cell<V>) -> Place<V>
        ensures { result ≡ record { cell = cell; head = 0; next = 0 } }
    {
        Place {
            cell,
            head: 0,
            next: 0,
        }
    }

    // The place with its cell linked to an older one.
    pub fn with_next(self, older: u32) -> Place<V>
        ensures { result ≡ next_put self older }
    {
        Place {
            next: older,
            ..self
        }
    }

    // The place with its bucket beginning at a link.
    pub fn with_head(self, newest: u32) -> Place<V>
        ensures { result ≡ head_put self newest }
    {
        Place {
            head: newest,
            ..self
        }
    }

    // The place with another cell.
    pub fn with_cell(self, new: Cell<V>) -> Place<V>
        ensures { result ≡ cell_put self new }
    {
        Place { cell: new, ..self }
    }
}

// Whether a link is none, so that a chain ends there.
pub fn is_end(link: usize) -> bool
    ensures { result ≡ (link == 0) }
{
    link == 0
}

// Whether every place has its group.
pub fn is_full(used: usize, places: usize) -> bool
    ensures { result ≡ (used == places) }
{
    used == places
}

// Places compare by group alone. A derive would ask the same of cells, and two cells with different
// values would pass for equal.
impl<V> PartialEq for Place<V> {
    ghost eq = { eq_by_cmp (on (λ s. s.cell.id) order) };

    ghost laws = { partial_equiv_from_equiv (eq_by_cmp_equiv (on_total (λ s. s.cell.id) order_total)) };

    #[tactic(auto, using(crate::proofs::Ordered::equal_order))]
    fn eq(&self, other: &Place<V>) -> bool {
        self.cell.id == other.cell.id
    }
}

impl<V> Eq for Place<V> {
    ghost laws = { eq_by_cmp_equiv (on_total (λ s. s.cell.id) order_total) };
}

impl<V> PartialOrd for Place<V> {
    ghost partial_cmp = { as_partial_cmp (on (λ s. s.cell.id) order) };

    ghost laws = { Prim.search (comparing, order_total) };

    fn partial_cmp(&self, other: &Place<V>) -> Option<Ordering> {
        Some(self.cmp(other))
    }
}

impl<V> Ord for Place<V> {
    ghost cmp = { on (λ s. s.cell.id) order };

    ghost total = { on_total (λ s. s.cell.id) order_total };

    ghost matches_partial_cmp = { λ x y. refl };

    ghost matches_eq = { λ x y. refl };

    fn cmp(&self, other: &Place<V>) -> Ordering {
        self.cell.id.order(&other.cell.id)
    }
}

// Places in the order of their groups.
pub fn sort_places<V>(places: &mut [Place<V>])
    ensures shuffled { IsPermutation places.old places.new }
    ensures ascends { IsSorted (on (λ s. s.cell.id) order) places.new }
{
    places.sort_unstable();
}
