// Reads a condition, one word after another.
ghost use Rattle.std.specs.Prelude.{◌≡◌, ◌+◌, ◌<◌, true, false, [], ◌∷◌, Some, IfOk, OnOk, nat_lt};
ghost use Rattle.words.specs.Lexemes.{seen};
ghost use Rattle.words.specs.Cutting.{next, later, to_come};
ghost use Rattle.conditions.specs.Machine.{Names, State, Move, go, found, joint, opening, joining, shift_of};
ghost use Rattle.conditions.specs.Postfix.{trees, tree};
ghost use Rattle.conditions.specs.Promises.{seen_by, On, rest, onto, looks, Known, Finds, Notes, ReadsShift, ReadsOperand, ReadsComparison, ReadsTerm, ReadsAnds, ReadsOrs, NoAnd, NoOr, Counts, Room, Grown, outcome, reading, ResultOf, KeyFields, KeepsLimits};

use crate::condition::{
    Comparison, Condition, DEEPEST, FieldNames, Found, MOST_COMPARISONS, MOST_FIELDS, MOST_READ,
    Operand, Shift, Step,
};
use crate::reader::{Joining, Joint, Opening, Read, Reader};
use crate::wrong::Wrong;
use text::refusal::Refusal;
use words::cursor::Words;
use words::tokens::{Keyword, Token};

fn joint_of(keyword: Keyword) -> Option<Joint>
    ensures { result ≡ joint keyword }
{
    match keyword {
        Keyword::And => Some(Joint::And),
        Keyword::Or => Some(Joint::Or),
        Keyword::Not => Some(Joint::Not),
        _ => None,
    }
}

fn opening_of(token: Token) -> Opening
    ensures { result ≡ opening (seen token.entry) }
{
    match token {
        Token::Reserved { keyword, .. } => match joint_of(keyword) {
            Some(Joint::Not) => Opening::Denial,
            _ => Opening::Plain,
        },
        Token::Bracket { opens: true, .. } => Opening::Bracket,
        _ => Opening::Plain,
    }
}

fn joining_of(token: Token) -> Option<Joining>
    ensures { result ≡ joining (seen token.entry) }
{
    match token {
        Token::Reserved { keyword, .. } => match joint_of(keyword)? {
            Joint::And => Some(Joining::And),
            Joint::Or => Some(Joining::Or),
            Joint::Not => None,
        },
        Token::Bracket { opens: false, .. } => Some(Joining::Close),
        Token::LineEnd { .. } => Some(Joining::End),
        _ => None,
    }
}

// What is added or taken away; a number with a sign is neither.
fn shift_by(plus: bool, value: i32) -> Option<Shift>
    ensures { result ≡ shift_of plus value }
{
    let by = u32::try_from(value).ok()?;
    if plus {
        Some(Shift::Plus(by))
    } else {
        Some(Shift::Minus(by))
    }
}

// How many levels a condition may have.
fn levels() -> u8
    ensures { result ≡ 8 }
{
    DEEPEST
}

// Whether one comparison more is within the limit.
// This and the next are not one function of a limit, so that a wrong limit is refused at the contract that names it.
fn may_compare(comparisons: usize) -> bool
    ensures { result ≡ nat_lt comparisons 16 }
{
    comparisons < MOST_COMPARISONS
}

// Whether one different row field more is within the limit.
fn may_read(different: usize) -> bool
    ensures { result ≡ nat_lt different 4 }
{
    different < MOST_READ
}

impl FieldNames<'_> {
    // The field that a name is: a row field first. That its number is below 8 is said by `known`, here and below, and not
    // by a type: `Found` and `Operand`, which hold it, are public and take any number.
    #[tactic(auto, unfolding(crate::specs::Promises::looks))]
    fn field(&self, word: &[u8]) -> Result<Found, Wrong>
        ensures value { result ≡ looks self.now word.now }
        ensures known { IfOk result Known }
    {
        match self.rows.find(word) {
            Some(i) => Ok(Found::RowField(i)),
            None => match self.base.find(word) {
                Some(i) => Ok(Found::BaseField(i)),
                None => Err(Wrong::Unknown),
            },
        }
    }

    // What a word is as an operand.
    fn found(&self, token: Token) -> Result<Found, Wrong>
        ensures value { result ≡ found (looks self.now) (seen token.entry) }
        ensures known { IfOk result Known }
    {
        match token {
            Token::Name { text, .. } => self.field(text),
            Token::Number { value, .. } => Ok(Found::Value(value)),
            _ => Err(Wrong::Form),
        }
    }
}

impl<'a> Reader<'a> {
    // Past the next word.
    fn advance(&mut self)
        ensures on { On self.old self.new }
        ensures words { to_come self.new.words ≡ later (to_come self.old.words) }
        ensures goes { (e : Names) (st : State) → onto e self.old (go st (seen_by self.old)) ≡ rest e self.new st }
    {
        self.words.advance();
    }

    // What the next word is as an operand.
    fn found(&self, names: &FieldNames) -> Result<Found, Refusal>
        ensures value { Finds (looks names.now) self.now result }
        ensures known { IfOk result Known }
    {
        // A `match`: with `map_err` it was not proved which refusal the closure gives.
        match names.found(self.words.peek()) {
            Ok(found) => Ok(found),
            Err(wrong) => Err(wrong.at(&self.words)),
        }
    }

    // One row field more, if there are not too many.
    fn note(&mut self, field: u8) -> Result<(), Refusal>
        requires { field < 8 }
        ensures on { On self.old self.new }
        ensures words { self.new.words ≡ self.old.words }
        ensures value { Notes self.old self.new field result }
        ensures stays { (e : Names) (m : Move) → onto e self.old m ≡ onto e self.new m }
    {
        let i = usize::from(field);
        if self.fields[i] {
            return Ok(());
        }
        if !may_read(self.different) {
            return Err(Wrong::Limit.at(&self.words));
        }
        self.different += 1;
        self.fields[i] = true;
        Ok(())
    }

    // What is added to a field.
    fn shift(&mut self) -> Result<Shift, Refusal>
        ensures on { On self.old self.new }
        ensures value { ReadsShift self.old self.new result }
    {
        let Token::Shift { plus, .. } = self.words.peek() else {
            return Ok(Shift::Bare);
        };
        self.advance();
        let Token::Number { value, .. } = self.words.peek() else {
            return Err(Wrong::Form.at(&self.words));
        };
        let Some(by) = shift_by(plus, value) else {
            return Err(Wrong::Form.at(&self.words));
        };
        self.advance();
        Ok(by)
    }

    fn operand(&mut self, names: &FieldNames) -> Result<Operand, Refusal>
        ensures on { On self.old self.new }
        ensures value { ReadsOperand (looks names.now) self.old self.new result }
    {
        let first = self.found(names)?;
        match first {
            Found::Value(z) => {
                self.advance();
                Ok(Operand::Number(z))
            }
            Found::RowField(field) => {
                self.note(field)?;
                self.advance();
                let by = self.shift()?;
                Ok(Operand::Row(field, by))
            }
            Found::BaseField(field) => {
                self.advance();
                let by = self.shift()?;
                Ok(Operand::Base(field, by))
            }
        }
    }

    // Two operands with a sign between them. One too many is refused at its first word, once that is found good.
    fn comparison(&mut self, names: &FieldNames) -> Result<Comparison, Refusal>
        ensures on { On self.old self.new }
        ensures value { ReadsComparison (looks names.now) self.old self.new result }
        ensures counts { OnOk result (Counts self.old self.new) }
    {
        self.found(names)?;
        if !may_compare(self.comparisons) {
            return Err(Wrong::Limit.at(&self.words));
        }
        self.comparisons += 1;
        let left = self.operand(names)?;
        let Token::Sign { sign, .. } = self.words.peek() else {
            return Err(Wrong::Form.at(&self.words));
        };
        self.advance();
        let right = self.operand(names)?;
        Ok(Comparison { left, sign, right })
    }

    fn opening(&self) -> Opening
        ensures { result ≡ opening (next (to_come self.now.words)) }
    {
        opening_of(self.words.peek())
    }

    fn joining(&self) -> Option<Joining>
        ensures { result ≡ joining (next (to_come self.now.words)) }
    {
        joining_of(self.words.peek())
    }

    // Whether the next word follows a term so.
    fn joins(&self, wanted: Joining) -> bool
        ensures yes { result ≡ true → Some wanted ≡ joining (next (to_come self.now.words)) }
        ensures no { result ≡ false → joining (next (to_come self.now.words)) ≡ Some wanted → ⊥ }
    {
        self.joining() == Some(wanted)
    }

    // A comparison, a bracket, or a `not` before one of these, with so many levels left.
    // Names, condition and depth stay arguments: the names are only lent, and the depth differs at each level.
    #[cycle(conjunction_disjunction_term)]
    fn term(&mut self, names: &FieldNames, out: &mut Condition, depth: u8) -> Result<(), Refusal>
        requires { Room self.old out.old depth }
        ensures on { On self.old self.new }
        ensures value { ReadsTerm (looks names.now) self.old self.new out.new depth result }
        ensures grown { OnOk result (Grown (trees out.old) out.new self.new depth) }
    {
        match self.opening() {
            Opening::Denial => {
                if depth == 0 {
                    return Err(Wrong::Limit.at(&self.words));
                }
                self.advance();
                self.term(names, out, depth - 1)?;
                out.push(Step::Not);
                Ok(())
            }
            Opening::Bracket => {
                if depth == 0 {
                    return Err(Wrong::Limit.at(&self.words));
                }
                self.advance();
                self.disjunction(names, out, depth - 1)?;
                if !self.joins(Joining::Close) {
                    return Err(Wrong::Form.at(&self.words));
                }
                self.advance();
                out.push(Step::Bracket);
                Ok(())
            }
            Opening::Plain => {
                let found = self.comparison(names)?;
                out.push(Step::Compare(found));
                Ok(())
            }
        }
    }

    // Terms joined by `and`.
    // Not one function with the next: one of a joining would promise both, by cases, and still call a function for each.
    #[cycle(conjunction_disjunction_term)]
    fn conjunction(
        &mut self,
        names: &FieldNames,
        out: &mut Condition,
        depth: u8,
    ) -> Result<(), Refusal>
        requires { Room self.old out.old depth }
        ensures on { On self.old self.new }
        ensures value { ReadsAnds (looks names.now) self.old self.new out.new depth result }
        ensures grown { OnOk result (Grown (trees out.old) out.new self.new depth) }
        ensures ends { OnOk result (NoAnd self.new) }
    {
        self.term(names, out, depth)?;
        while self.joins(Joining::And) {
            self.advance();
            self.term(names, out, depth)?;
            out.push(Step::And);
        }
        Ok(())
    }

    // Those joined by `or`.
    #[cycle(conjunction_disjunction_term)]
    fn disjunction(
        &mut self,
        names: &FieldNames,
        out: &mut Condition,
        depth: u8,
    ) -> Result<(), Refusal>
        requires { Room self.old out.old depth }
        ensures on { On self.old self.new }
        ensures value { ReadsOrs (looks names.now) self.old self.new out.new depth result }
        ensures grown { OnOk result (Grown (trees out.old) out.new self.new depth) }
        ensures ends { OnOk result (NoAnd self.new × NoOr self.new) }
    {
        self.conjunction(names, out, depth)?;
        while self.joins(Joining::Or) {
            self.advance();
            self.conjunction(names, out, depth)?;
            out.push(Step::Or);
        }
        Ok(())
    }

    // A condition and the end of its line.
    fn condition(&mut self, names: &FieldNames) -> Result<Condition, Refusal>
        ensures value { outcome result self.new ≡ reading (looks names.now) self.old }
        ensures one { IfOk result (λ c. trees c ≡ tree c ∷ []) }
    {
        let mut out = Condition::always();
        self.disjunction(names, &mut out, levels())?;
        if !self.joins(Joining::End) {
            return Err(Wrong::Form.at(&self.words));
        }
        self.words.advance();
        Ok(out)
    }
}

// Reads a condition up to the end of its line, and that. After a refusal the words are as before.
pub fn read_condition(words: &mut Words, names: &FieldNames) -> Result<Read, Refusal>
    ensures value { ResultOf result words.old words.new (looks names.now) }
    ensures fields { IfOk result KeyFields }
    ensures limits { IfOk result KeepsLimits }
{
    let mut reader = Reader {
        words: *words,
        comparisons: 0,
        different: 0,
        fields: [false; MOST_FIELDS],
    };
    let condition = reader.condition(names)?;
    *words = reader.words;
    Ok(Read {
        condition,
        fields: reader.fields,
    })
}
