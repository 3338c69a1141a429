// Whose group a cell holds.
ghost use Rattle.std.specs.Prelude.{◌≡◌, Decides};
ghost use Rattle.cells.specs.Order.{order as id_order};
ghost use Rattle.cells.specs.Listed.{listed as is_listed};
ghost use Rattle.cells.specs.Hash.{stirred, hashed};

use std::cmp::Ordering;

// The most row fields that a key can have.
pub const KEY_WIDTH: usize = 4;

// A column's number, and a key of the column: its values, with zeros past the column's width. The
// order is by column, then by key, value by value.
#[derive(Clone, Copy, Debug, PartialEq, Eq, PartialOrd, Ord)]
pub struct GroupId {
    pub column: u8,
    pub key: [i32; KEY_WIDTH],
}

// An odd number with its bits well mixed: 2^64 over the golden ratio.
const STIR: u64 = 0x9E37_79B9_7F4A_7C15;

#[tactic(auto, using(crate::proofs::Bits::back), unfolding(crate::specs::Hash::stirred))]
fn stir(h: u64, v: i32) -> u64
    ensures { result ≡ stirred h v }
{
    let product = (h ^ u64::from(v.cast_unsigned())).wrapping_mul(STIR);
    product ^ (product >> 32)
}

impl GroupId {
    // Column and key, all stirred together.
    #[tactic(auto, using(crate::proofs::Bits::back), unfolding(crate::specs::Hash::hashed))]
    pub fn hash(&self) -> u64
        ensures { result ≡ hashed self.now }
    {
        let column = stir(0, i32::from(self.column));
        let [first, second, third, fourth] = self.key;
        let one = stir(column, first);
        let two = stir(one, second);
        let three = stir(two, third);
        stir(three, fourth)
    }

    // By column, then by key.
    #[tactic(auto, unfolding(crate::specs::Order::order))]
    pub fn order(&self, other: &GroupId) -> Ordering
        ensures { result ≡ id_order self.now other.now }
    {
        self.cmp(other)
    }

    // Whether the two are one group.
    #[tactic(auto, using(crate::proofs::Ordered::equal_Decides))]
    pub fn is(&self, other: &GroupId) -> bool
        ensures { Decides result (self.now ≡ other.now) }
    {
        self == other
    }
}

// Whether an id is one of the ids.
pub fn listed(id: &GroupId, ids: &[GroupId]) -> bool
    ensures { result ≡ is_listed id.now ids.now }
{
    ids.contains(id)
}
