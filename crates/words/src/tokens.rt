// What a word of a plan is.
ghost use Rattle.std.specs.Prelude.{◌≡◌, ℕ, Bool};
ghost use Rattle.std.specs.Fn.{FnReturnsAt};
ghost use Rattle.words.specs.Lexemes.{same, seen, keyword_of, letters, lexeme, mark_in, marked, name_long, name_of};
ghost use Rattle.words.specs.Spots.{spot, token_spot};

use crate::signs::{Mark, Sign, mark_of};
use text::numbers::read_number;

// The most letters that a name has.
pub const MOST_LETTERS: usize = 8;

// The words that are no names.
#[derive(Clone, Copy, PartialEq, Eq, Debug)]
pub enum Keyword {
    Rows,
    Base,
    Where,
    And,
    Or,
    Not,
    Count,
    Sum,
    Least,
    Greatest,
    Mean,
}

// A word of a plan, or what stands where a word is missing: the line's end or the end of the text.
// `line` and `word` count from 1. `upper`, `plus` and `opens` are a yes or no under its name: an enum for each of the
// three would have the same two cases and be no plainer.
#[derive(Clone, Copy)]
pub enum Token<'a> {
    Name {
        text: &'a [u8],
        upper: bool,
        line: usize,
        word: usize,
    },
    Reserved {
        text: &'a [u8],
        keyword: Keyword,
        line: usize,
        word: usize,
    },
    Number {
        text: &'a [u8],
        value: i32,
        line: usize,
        word: usize,
    },
    Sign {
        text: &'a [u8],
        sign: Sign,
        line: usize,
        word: usize,
    },
    Shift {
        text: &'a [u8],
        plus: bool,
        line: usize,
        word: usize,
    },
    Bracket {
        text: &'a [u8],
        opens: bool,
        line: usize,
        word: usize,
    },
    Other {
        text: &'a [u8],
        line: usize,
        word: usize,
    },
    LineEnd {
        line: usize,
        word: usize,
    },
    TextEnd {
        line: usize,
        word: usize,
    },
}

// A word as it stands in the text, with its place.
#[derive(Clone, Copy)]
struct Placed<'a> {
    text: &'a [u8],
    line: usize,
    word: usize,
}

// Whether a text is as long as a name is.
fn is_name_long(text: &[u8]) -> bool
    ensures { result ≡ name_long text.now }
{
    !text.is_empty() && text.len() <= MOST_LETTERS
}

// Whether a text is a name of such letters.
fn is_name<F: Fn(&u8) -> bool>(text: &[u8], is_letter: F) -> bool
    requires { F.IsAlwaysCallable is_letter }
    ensures { (test : ℕ → Bool) → ((b : ℕ) (r : Bool) → FnReturnsAt F.Fn is_letter b r → r ≡ test b) → result ≡ name_of test text.now }
{
    is_name_long(text) && text.iter().all(is_letter)
}

// Whether a text is that word.
pub fn is_same(text: &[u8], word: &[u8]) -> bool
    ensures { result ≡ same text.now word.now }
{
    text == word
}

// The keyword that a text is, if it is one.
fn keyword_of(text: &[u8]) -> Option<Keyword>
    ensures { result ≡ keyword_of text.now }
{
    match text {
        b"rows" => Some(Keyword::Rows),
        b"base" => Some(Keyword::Base),
        b"where" => Some(Keyword::Where),
        b"and" => Some(Keyword::And),
        b"or" => Some(Keyword::Or),
        b"not" => Some(Keyword::Not),
        b"count" => Some(Keyword::Count),
        b"sum" => Some(Keyword::Sum),
        b"least" => Some(Keyword::Least),
        b"greatest" => Some(Keyword::Greatest),
        b"mean" => Some(Keyword::Mean),
        _ => None,
    }
}

// The mark that a word of one or two bytes is, if it is one.
fn mark_in(text: &[u8]) -> Option<Mark>
    ensures { result ≡ mark_in text.now }
{
    match text {
        [only] => mark_of(char::from(*only), ' '),
        [first, second] => mark_of(char::from(*first), char::from(*second)),
        _ => None,
    }
}

impl<'a> Placed<'a> {
    // A keyword, a name, or neither.
    fn letters(self) -> Token<'a>
        ensures seen { seen result ≡ letters self.entry.text.now }
        ensures place { token_spot result ≡ spot self.entry.line self.entry.word }
    {
        let Placed { text, line, word } = self;
        match keyword_of(text) {
            Some(keyword) => Token::Reserved {
                text,
                keyword,
                line,
                word,
            },
            None if is_name(text, |b| b.is_ascii_lowercase()) => Token::Name {
                text,
                upper: false,
                line,
                word,
            },
            None if is_name(text, |b| b.is_ascii_uppercase()) => Token::Name {
                text,
                upper: true,
                line,
                word,
            },
            None => Token::Other { text, line, word },
        }
    }

    // A mark, a keyword, a name, or none of these.
    fn unnumbered(self) -> Token<'a>
        ensures seen { seen result ≡ marked (mark_in self.entry.text.now) self.entry.text.now }
        ensures place { token_spot result ≡ spot self.entry.line self.entry.word }
    {
        let Placed { text, line, word } = self;
        match mark_in(text) {
            Some(Mark::Sign(sign)) => Token::Sign {
                text,
                sign,
                line,
                word,
            },
            Some(Mark::Shift { plus }) => Token::Shift {
                text,
                plus,
                line,
                word,
            },
            Some(Mark::Bracket { opens }) => Token::Bracket {
                text,
                opens,
                line,
                word,
            },
            None => self.letters(),
        }
    }
}

// What a word is, with its place.
pub fn token_of<'a>(text: &'a [u8], line: usize, word: usize) -> Token<'a>
    ensures seen { seen result ≡ lexeme text.now }
    ensures place { token_spot result ≡ spot line word }
{
    match read_number(text) {
        Some(value) => Token::Number {
            text,
            value,
            line,
            word,
        },
        None => Placed { text, line, word }.unnumbered(),
    }
}
