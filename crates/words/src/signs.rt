// Words of one or two characters that are no letters.
ghost use Rattle.std.specs.Prelude.{◌≡◌};
ghost use Rattle.words.specs.Lexemes.{mark};

// The sign of a comparison.
#[derive(Clone, Copy, PartialEq, Eq, Debug)]
pub enum Sign {
    Equal,
    Unequal,
    Less,
    AtMost,
    Greater,
    AtLeast,
}

// What one or two characters are: a sign of comparison, `+` or `-`, or an opening or closing bracket.
#[derive(Clone, Copy, PartialEq, Eq, Debug)]
pub enum Mark {
    Sign(Sign),
    Shift { plus: bool },
    Bracket { opens: bool },
}

// The mark that one or two characters are, if they are one; the second is a space where there is one only.
pub fn mark_of(first: char, second: char) -> Option<Mark>
    ensures { result ≡ mark first second }
{
    match first {
        '=' => match second {
            ' ' => Some(Mark::Sign(Sign::Equal)),
            _ => None,
        },
        '<' => match second {
            ' ' => Some(Mark::Sign(Sign::Less)),
            '>' => Some(Mark::Sign(Sign::Unequal)),
            '=' => Some(Mark::Sign(Sign::AtMost)),
            _ => None,
        },
        '>' => match second {
            ' ' => Some(Mark::Sign(Sign::Greater)),
            '=' => Some(Mark::Sign(Sign::AtLeast)),
            _ => None,
        },
        '+' => match second {
            ' ' => Some(Mark::Shift { plus: true }),
            _ => None,
        },
        '-' => match second {
            ' ' => Some(Mark::Shift { plus: false }),
            _ => None,
        },
        '(' => match second {
            ' ' => Some(Mark::Bracket { opens: true }),
            _ => None,
        },
        ')' => match second {
            ' ' => Some(Mark::Bracket { opens: false }),
            _ => None,
        },
        _ => None,
    }
}
