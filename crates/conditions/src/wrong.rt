// What is wrong with a word of a plan, and the refusal that says so.
ghost use Rattle.std.specs.Prelude.{◌≡◌};
ghost use Rattle.words.specs.Cutting.{here};
ghost use Rattle.conditions.specs.Machine.{refusal};

use text::refusal::Refusal;
use words::cursor::Words;

// The form, a name used again or reserved, a name of no field, one too many.
#[derive(Clone, Copy, PartialEq, Eq, Debug)]
pub enum Wrong {
    Form,
    Taken,
    Unknown,
    Limit,
}

impl Wrong {
    // The refusal of the next word for it.
    pub fn at(self, words: &Words) -> Refusal
        ensures { result ≡ refusal self (here words.now) }
    {
        let (line, word) = words.place();
        match self {
            Wrong::Form => Refusal::PlanForm { line, word },
            Wrong::Taken => Refusal::NameTaken { line, word },
            Wrong::Unknown => Refusal::UnknownField { line, word },
            Wrong::Limit => Refusal::PlanLimit { line, word },
        }
    }
}
