// What is done with names.
ghost use Rattle.std.specs.Prelude.{◌≡◌, ◌<◌, [], length, IfSome, is_ok, nat_lt, nat_le};
ghost use Rattle.std.specs.List.{position_from};
ghost use Rattle.words.specs.Lexemes.{same};
ghost use Rattle.words.specs.Tables.{texts, place, added};

use crate::names::{MOST_NAMES, Table};

// The place of a word among names, from 0.
fn place_of(names: &[&[u8]], word: &[u8]) -> Option<usize>
    ensures value { result ≡ position_from (λ name. same name.now word.now) 0 names.now }
    ensures within { IfSome result (λ i. i < length names.now) }
{
    names.iter().position(|name| *name == word)
}

// A table has no place for one name more.
#[derive(Clone, Copy, PartialEq, Eq, Debug)]
pub struct Full;

impl<'a> Table<'a> {
    // A table of no names, for words of this text.
    #[tactic(auto, unfolding(crate::specs::Tables::texts))]
    pub fn empty(text: &'a [u8]) -> Table<'a>
        ensures names { texts result ≡ [] }
        ensures used { result.used ≡ 0 }
    {
        Table {
            words: [&text[..0]; MOST_NAMES],
            used: 0,
        }
    }

    // How many names there are.
    #[tactic(auto, using(crate::proofs::Tabling::long), unfolding(crate::specs::Tables::texts))]
    pub fn len(&self) -> usize
        ensures value { result ≡ length (texts self.now) }
        ensures few { result < 9 }
    {
        self.used.min(MOST_NAMES)
    }

    // Whether no place is left.
    fn is_full(&self) -> bool
        ensures { result ≡ nat_le 8 self.now.used }
    {
        self.used >= MOST_NAMES
    }

    // One name more behind the others; a full table stays as it is.
    pub fn add(&mut self, word: &'a [u8]) -> Result<(), Full>
        ensures names { texts self.new ≡ added (texts self.old) word.now }
        ensures value { is_ok result ≡ nat_lt (length (texts self.old)) 8 }
    {
        if self.is_full() {
            return Err(Full);
        }
        self.words[self.used] = word;
        self.used += 1;
        Ok(())
    }

    // The place of a word among the names, from 0.
    pub fn find(&self, word: &[u8]) -> Option<u8>
        ensures value { result ≡ place (texts self.now) word.now 0 }
        ensures small { IfSome result (λ n. n < 8) }
    {
        // `as` is proved to lose nothing here; `u8::try_from` would have a case that never comes.
        place_of(&self.words[..self.len()], word).map(|i| i as u8)
    }
}
