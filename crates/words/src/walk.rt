// From word to word.
ghost use Rattle.std.specs.Prelude.{◌≡◌, ◌-◌, ◌≤◌, length, take, ◌==◌};
ghost use Rattle.std.specs.List.{position_from};
ghost use Rattle.words.specs.Lexemes.{seen};
ghost use Rattle.words.specs.Spots.{spot, token_spot, past};
ghost use Rattle.words.specs.Cutting.{is_gap, spell, after_word, next, later, none_left, lexemes, to_come, here};

use crate::cursor::{MOST_BYTES, Words};
use crate::tokens::{Token, token_of};

// Whether a byte ends a word.
fn is_gap(b: u8) -> bool
    ensures { result ≡ is_gap b }
{
    b == b' ' || b == b'\n'
}

// Where the first byte stands that ends a word.
fn first_gap(text: &[u8]) -> Option<usize>
    ensures { result ≡ position_from is_gap 0 text.now }
{
    text.iter().position(|b| is_gap(*b))
}

// A text cut in two behind the word that it begins with.
fn split_word(text: &[u8]) -> (&[u8], &[u8])
    ensures word { result.0.now ≡ (spell text.now).0 }
    ensures after { after_word result.1.now ≡ (spell text.now).1 }
    ensures shorter { length result.1.now ≤ length text.now }
{
    let end = first_gap(text).unwrap_or(text.len());
    text.split_at(end)
}

// The first 4,096 bytes of a text.
#[tactic(auto, using(std::proofs::lemmas::List::take_min))]
fn first_bytes(text: &[u8]) -> &[u8]
    ensures front { result.now ≡ take 4096 text.now }
    ensures few { length result.now ≤ 4096 }
{
    &text[..MOST_BYTES.min(text.len())]
}

impl<'a> Words<'a> {
    // The words of the first 4,096 bytes of a text.
    #[tactic(auto, unfolding(crate::specs::Cutting::ahead))]
    pub fn of(text: &'a [u8]) -> Words<'a>
        ensures words { to_come result ≡ lexemes (take 4096 text.now) }
        ensures place { here result ≡ spot 1 1 }
    {
        Words {
            rest: first_bytes(text),
            line: 1,
            word: 1,
        }
    }

    // Whether the next word is the line's first.
    fn is_first(&self) -> bool
        ensures { result ≡ (self.now.word == 1) }
    {
        self.word == 1
    }

    // The line and the number of the next word. Each caller takes the pair apart at once, so a struct would be no plainer.
    pub fn place(&self) -> (usize, usize)
        ensures line { result.0 ≡ self.now.line }
        ensures word { result.1 ≡ self.now.word }
    {
        (self.line, self.word)
    }

    // Whether the text has ended.
    #[tactic(auto, using(crate::proofs::Walking::none_is))]
    pub fn is_done(&self) -> bool
        ensures { result ≡ none_left (to_come self.now) }
    {
        self.rest.is_empty()
    }

    // The next word, or what stands in its place.
    pub fn peek(&self) -> Token<'a>
        ensures seen { seen result ≡ next (to_come self.now) }
        ensures place { token_spot result ≡ here self.now }
    {
        let (line, word) = self.place();
        match self.rest {
            [] => Token::TextEnd { line, word },
            all if self.is_first() => token_of(split_word(all).0, line, word),
            [b'\n', ..] => Token::LineEnd { line, word },
            [_, after @ ..] => token_of(split_word(after).0, line, word),
        }
    }

    // Past the next word, or past the line's end; at the end of the text nothing changes.
    pub fn advance(&mut self)
        ensures words { to_come self.new ≡ later (to_come self.old) }
        ensures place { here self.new ≡ past (next (to_come self.old)) (here self.old) }
    {
        match self.rest {
            [] => {}
            all if self.is_first() => {
                self.rest = split_word(all).1;
                self.word += 1;
            }
            [b'\n', after @ ..] => {
                self.rest = after;
                self.line += 1;
                self.word = 1;
            }
            [_, after @ ..] => {
                self.rest = split_word(after).1;
                self.word += 1;
            }
        }
    }
}
