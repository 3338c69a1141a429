// Keys: a row's values in the fields that a condition reads, by ascending field.
ghost use Rattle.std.specs.Prelude.{◌≡◌, drop, pos, slice_index_or};
ghost use Rattle.conditions.specs.Postfix.{asked, trees};
ghost use Rattle.conditions.specs.Meaning.{says};
ghost use Rattle.conditions.specs.Keys.{spread};

use crate::condition::{Condition, MOST_FIELDS};

// The first value of a key, 0 where it has none, and the others.
fn next_of(key: &[i32]) -> (i32, &[i32])
    ensures value { result.0 ≡ slice_index_or key.now 0 (pos 0) }
    ensures rest { result.1.now ≡ drop 1 key.now }
{
    match key {
        [value, rest @ ..] => (*value, rest),
        [] => (0, key),
    }
}

// The row that has a key's values in the fields of the key, and 0 in the others.
pub fn row_of_key(fields: &[bool; 8], key: &[i32]) -> [i32; 8]
    ensures { result ≡ spread fields.now key.now }
{
    let mut row = [0i32; MOST_FIELDS];
    let mut rest = key;
    for (i, held) in fields.iter().enumerate() {
        if *held {
            (row[i], rest) = next_of(rest);
        }
    }
    row
}

impl Condition {
    // Whether a key, of these fields, and a base row meet it; a field that the key lacks reads as 0.
    pub fn holds_of_key(&self, fields: &[bool; 8], key: &[i32], base: &[i32]) -> bool
        ensures { result ≡ says (asked (trees self.now)) (spread fields.now key.now) base.now }
    {
        let row = row_of_key(fields, key);
        self.holds(&row, base)
    }
}
