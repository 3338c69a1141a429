// What a feed of rows is.
ghost use Rattle.std.specs.Prelude.{◌≡◌, ℕ, List, length, ℤ};
ghost use Rattle.std.specs.List.{AllByRecursion};
ghost use Rattle.feeds.specs.Steps.{End, told, first, rest};

use crate::fault::Fault;
use crate::row::Row;

// A source of rows. Its meaning is its width, the rows yet to come and its end after them.
pub trait Feed {
    // how many values a row has
    ghost wide: { Self → ℕ };

    // the rows yet to come
    ghost coming: { Self → List (List ℤ) };

    // how it ends after them
    ghost ending: { Self → End };

    // How many values a row has; every row yet to come has as many.
    fn width(&self) -> usize
        ensures value { result ≡ wide self.now }
        ensures each { AllByRecursion (λ row. length row ≡ wide self.now) (coming self.now) };

    // Gives the first row yet to come and keeps the rest; with none left, tells the end: no row, or the fault.
    fn next(&mut self) -> Result<Option<Row>, Fault>
        ensures gives { told (wide self.old) result ≡ first (coming self.old) (ending self.old) }
        ensures left { coming self.new ≡ rest (coming self.old) }
        ensures same { (wide self.new ≡ wide self.old) × (ending self.new ≡ ending self.old) };
}
