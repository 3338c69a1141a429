// Reads the lines of a plan. What the clauses `shorter` and `on` say relates the words before and after a call, so it is no
// fact of one value that a type could hold.
ghost use Rattle.std.specs.Prelude.{◌≡◌, ◌<◌, ◌≤◌, true, length, OnOk, nat_lt};
ghost use Rattle.words.specs.Cutting.{to_come};
ghost use Rattle.words.specs.Tables.{texts};
ghost use Rattle.plan.specs.Drafts.{columns_of};
ghost use Rattle.plan.specs.Machine.{some};
ghost use Rattle.plan.specs.Promises.{Shorter, ReadsNew, ReadsName, ReadsNames, ReadsKind, ReadsField, ReadsMeasured, ReadsWhere, ReadsColumn, ReadsTitle};

use crate::plan::{Column, MOST_BASE, MOST_COLUMNS, Plan};
use crate::words_of_plan::{Following, declared_of, ends_line, following_of, kind_of, takes_field};
use any_measure::any::AnyMeasure;
use conditions::condition::{Condition, FieldNames, MOST_FIELDS};
use conditions::reader::Read;
use conditions::reading::read_condition;
use conditions::wrong::Wrong;
use text::refusal::Refusal;
use words::cursor::Words;
use words::names::Table;
use words::tables::Full;

// The names of one kind: whether they are in upper case, and how many there are at most.
#[derive(Clone, Copy)]
pub(crate) struct NameRule {
    upper: bool,
    most: usize,
    ghost few: { most ≤ 8 },
}

pub(crate) const ROW_NAMES: NameRule = NameRule {
    upper: false,
    most: MOST_FIELDS,
};

pub(crate) const BASE_NAMES: NameRule = NameRule {
    upper: true,
    most: MOST_BASE,
};

const COLUMN_NAMES: NameRule = NameRule {
    upper: false,
    most: MOST_COLUMNS,
};

impl NameRule {
    // Whether one name more is within the limit.
    fn has_room(self, count: usize) -> bool
        ensures { result ≡ nat_lt count self.most }
    {
        count < self.most
    }

    // One name that is new among others.
    fn read_new<'a>(self, words: &mut Words<'a>, names: &Table) -> Result<&'a [u8], Refusal>
        ensures value { ReadsNew self.upper self.most words.old words.new (texts names.now) result }
        ensures shorter { OnOk result (Shorter words.old words.new) }
        ensures room { OnOk result (length (texts names.now) < self.most) }
    {
        let name = match declared_of(words.peek(), self.upper) {
            Ok(name) => name,
            Err(no_name) => return Err(Wrong::from(no_name).at(words)),
        };
        if names.find(name).is_some() {
            return Err(Wrong::Taken.at(words));
        }
        if !self.has_room(names.len()) {
            return Err(Wrong::Limit.at(words));
        }
        words.advance();
        Ok(name)
    }

    // One name more into a table.
    fn read_name<'a>(self, words: &mut Words<'a>, table: &mut Table<'a>) -> Result<(), Refusal>
        ensures value { ReadsName self.upper self.most words.old words.new (texts table.old) (texts table.new) result }
        ensures shorter { OnOk result (Shorter words.old words.new) }
        ensures some { OnOk result (some (texts table.new) ≡ true) }
    {
        let name = self.read_new(words, table)?;
        match table.add(name) {
            Ok(()) => Ok(()),
            Err(Full) => Err(Wrong::Limit.at(words)),
        }
    }

    // The names of a line, one at least, and its end.
    pub(crate) fn read_names<'a>(
        self,
        words: &mut Words<'a>,
        table: &mut Table<'a>,
    ) -> Result<(), Refusal>
        ensures value { ReadsNames self.upper self.most words.old words.new (texts table.old) (texts table.new) result }
        ensures shorter { OnOk result (Shorter words.old words.new) }
    {
        self.read_name(words, table)?;
        while !ends_line(words.peek()) {
            self.read_name(words, table)?;
        }
        words.advance();
        Ok(())
    }
}

// A column's name.
fn read_title<'a>(words: &mut Words<'a>, plan: &Plan<'a, AnyMeasure>) -> Result<&'a [u8], Refusal>
    ensures value { ReadsTitle words.old words.new plan.now result }
    ensures shorter { OnOk result (Shorter words.old words.new) }
    ensures room { OnOk result (length (columns_of plan.now) < 8) }
{
    COLUMN_NAMES.read_new(words, &plan.titles)
}

// A measure.
fn read_kind(words: &mut Words) -> Result<AnyMeasure, Refusal>
    ensures value { ReadsKind words.old words.new result }
    ensures on { length (to_come words.new) ≤ length (to_come words.old) }
{
    let Some(kind) = kind_of(words.peek()) else {
        return Err(Wrong::Form.at(words));
    };
    words.advance();
    Ok(kind)
}

// A row field.
fn read_field(words: &mut Words, rows: &Table) -> Result<u8, Refusal>
    ensures value { ReadsField (texts rows.now) words.old words.new result }
    ensures on { length (to_come words.new) ≤ length (to_come words.old) }
{
    let Ok(name) = declared_of(words.peek(), false) else {
        return Err(Wrong::Form.at(words));
    };
    let Some(field) = rows.find(name) else {
        return Err(Wrong::Unknown.at(words));
    };
    words.advance();
    Ok(field)
}

// The row field that is measured, if the measure takes one.
fn read_measured(words: &mut Words, kind: AnyMeasure, rows: &Table) -> Result<Option<u8>, Refusal>
    ensures value { ReadsMeasured (texts rows.now) kind words.old words.new result }
    ensures on { length (to_come words.new) ≤ length (to_come words.old) }
{
    if takes_field(kind) {
        Ok(Some(read_field(words, rows)?))
    } else {
        Ok(None)
    }
}

// The condition, if one is given, and the line's end.
fn read_where(words: &mut Words, names: &FieldNames) -> Result<Read, Refusal>
    ensures value { ReadsWhere (texts names.now.rows) (texts names.now.base) words.old words.new result }
    ensures on { OnOk result (length (to_come words.new) ≤ length (to_come words.old)) }
{
    let Some(following) = following_of(words.peek()) else {
        return Err(Wrong::Form.at(words));
    };
    words.advance();
    match following {
        Following::Where => read_condition(words, names),
        Following::End => Ok(Read {
            condition: Condition::always(),
            fields: [false; MOST_FIELDS],
        }),
    }
}

// A column line.
pub(crate) fn read_column<'a>(
    words: &mut Words<'a>,
    plan: &mut Plan<'a, AnyMeasure>,
) -> Result<(), Refusal>
    ensures value { ReadsColumn words.old words.new plan.old plan.new result }
    ensures shorter { OnOk result (Shorter words.old words.new) }
{
    let name = read_title(words, plan)?;
    let measure = read_kind(words)?;
    let field = read_measured(words, measure, &plan.names.rows)?;
    let Read { condition, fields } = read_where(words, &plan.names)?;
    let column = Column {
        measure,
        field,
        condition,
        fields,
    };
    plan.add(name, column);
    Ok(())
}
