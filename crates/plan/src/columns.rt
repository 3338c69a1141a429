// The columns of a plan.
ghost use Rattle.std.specs.Prelude.{◌≡◌, ◌<◌, [], ◌∷◌, ◌++◌, length, is_some};
ghost use Rattle.words.specs.Tables.{texts, place};
ghost use Rattle.plan.specs.Drafts.{columns_of, column_names, entry_of};

use crate::plan::{Column, Columns, MOST_COLUMNS, Plan};
use any_measure::any::AnyMeasure;
use conditions::condition::{Condition, FieldNames, MOST_FIELDS};
use words::names::Table;

impl<'a> Plan<'a, AnyMeasure> {
    // A plan of no names and no columns, for words of this text.
    pub fn empty(text: &'a [u8]) -> Plan<'a, AnyMeasure>
        ensures rows { texts result.names.rows ≡ [] }
        ensures base { texts result.names.base ≡ [] }
        ensures columns { columns_of result ≡ [] }
    {
        let column = Column {
            measure: AnyMeasure::Count,
            field: None,
            condition: Condition::always(),
            fields: [false; MOST_FIELDS],
        };
        let columns = Columns {
            places: [column; MOST_COLUMNS],
        };
        let rows = Table::empty(text);
        let base = Table::empty(text);
        Plan {
            names: FieldNames { rows, base },
            titles: Table::empty(text),
            columns,
        }
    }

    // How many columns there are.
    pub fn len(&self) -> usize
        ensures value { result ≡ length (columns_of self.now) }
        ensures few { result < 9 }
    {
        self.titles.len()
    }

    // Whether a column has that name.
    pub fn has_column(&self, name: &[u8]) -> bool
        ensures { result ≡ is_some (place (column_names (columns_of self.now)) name.now 0) }
    {
        self.titles.find(name).is_some()
    }

    // One column more.
    pub(crate) fn add(&mut self, name: &'a [u8], column: Column<AnyMeasure>)
        requires { length (columns_of self.old) < 8 }
        ensures names { self.new.names ≡ self.old.names }
        ensures columns { columns_of self.new ≡ columns_of self.old ++ (entry_of name.now column ∷ []) }
    {
        let place = self.titles.len();
        if self.titles.add(name).is_ok() {
            self.columns.places[place] = column;
        }
    }
}
