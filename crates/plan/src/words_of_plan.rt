// What the words of a plan are, outside conditions.
ghost use Rattle.std.specs.Prelude.{◌≡◌};
ghost use Rattle.words.specs.Lexemes.{seen};
ghost use Rattle.plan.specs.Lines.{leading_keyword, leading, kind_keyword, kind_of, following_keyword, following, declared, telling, wrong_of, takes_field, ends_line};

use any_measure::any::AnyMeasure;
use conditions::wrong::Wrong;
use measures::measure::Measure;
use words::tokens::{Keyword, Token};

// The keyword that begins a line.
#[derive(Clone, Copy, PartialEq, Eq, Debug)]
pub enum Leading {
    Rows,
    Base,
}

// What may follow a column's measure: `where`, or the line's end.
#[derive(Clone, Copy, PartialEq, Eq, Debug)]
pub enum Following {
    Where,
    End,
}

// Why a word is no name: it is reserved, or it has another form.
#[derive(Clone, Copy, PartialEq, Eq, Debug)]
pub enum NoName {
    Held,
    OtherForm,
}

// What is wrong with such a word where a name is to be declared.
impl From<NoName> for Wrong {
    ghost from_gives = { λ no_name wrong. wrong ≡ wrong_of no_name };

    fn from(no_name: NoName) -> Wrong {
        match no_name {
            NoName::Held => Wrong::Taken,
            NoName::OtherForm => Wrong::Form,
        }
    }
}

pub(crate) fn leading_of(token: Token) -> Option<Leading>
    ensures { result ≡ leading (seen token.entry) }
{
    match token {
        Token::Reserved {
            keyword: Keyword::Rows,
            ..
        } => Some(Leading::Rows),
        Token::Reserved {
            keyword: Keyword::Base,
            ..
        } => Some(Leading::Base),
        _ => None,
    }
}

fn kind_keyword(keyword: Keyword) -> Option<AnyMeasure>
    ensures { result ≡ kind_keyword keyword }
{
    match keyword {
        Keyword::Count => Some(AnyMeasure::Count),
        Keyword::Sum => Some(AnyMeasure::Sum),
        Keyword::Least => Some(AnyMeasure::Least),
        Keyword::Greatest => Some(AnyMeasure::Greatest),
        Keyword::Mean => Some(AnyMeasure::Mean),
        _ => None,
    }
}

// The measure that a word is.
pub(crate) fn kind_of(token: Token) -> Option<AnyMeasure>
    ensures { result ≡ kind_of (seen token.entry) }
{
    let Token::Reserved { keyword, .. } = token else {
        return None;
    };
    kind_keyword(keyword)
}

// Whether a measured field follows the measure's word.
pub(crate) fn takes_field(kind: AnyMeasure) -> bool
    ensures { result ≡ takes_field kind }
{
    kind.fields() > 0
}

pub(crate) fn following_of(token: Token) -> Option<Following>
    ensures { result ≡ following (seen token.entry) }
{
    match token {
        Token::Reserved {
            keyword: Keyword::Where,
            ..
        } => Some(Following::Where),
        Token::LineEnd { .. } => Some(Following::End),
        _ => None,
    }
}

// Whether a line ends.
pub(crate) fn ends_line(token: Token) -> bool
    ensures { result ≡ ends_line (seen token.entry) }
{
    matches!(token, Token::LineEnd { .. })
}

// A word where a name in upper or lower case is to stand; a reserved word has the form of one in lower case.
pub(crate) fn declared_of<'a>(token: Token<'a>, upper: bool) -> Result<&'a [u8], NoName>
    ensures { telling result ≡ declared upper (seen token.entry) }
{
    match token {
        Token::Name {
            text,
            upper: other,
            ..
        } if upper == other => Ok(text),
        Token::Reserved { .. } if !upper => Err(NoName::Held),
        _ => Err(NoName::OtherForm),
    }
}
