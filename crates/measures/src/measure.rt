// What makes a measure: its parts, by their meaning, and the laws that every measure keeps.
ghost use Rattle.std.specs.Prelude.{◌≡◌, ℕ, Some, Option};
ghost use Rattle.measures.specs.Meaning.{Meaning, Properties, Formed};

pub trait Measure: Copy {
    type Value: Copy;

    type Answer: Copy;

    // what each part means
    ghost meaning: { Self → Meaning Self.Value Self.Answer };

    // the measure of a kind, if there is one
    ghost found: { ℕ → Option Self };

    // The measure of a kind, as the kinds in a file are judged. A kind is a byte and no enum, since a file has it as a
    // byte and any type may be a measure.
    fn of_kind(kind: u8) -> Option<Self>
        ensures { result ≡ found kind };

    fn kind(&self) -> u8
        ensures { result ≡ (meaning self.now).kind };

    // How many row fields are measured.
    fn fields(&self) -> usize
        ensures { result ≡ (meaning self.now).fields };

    fn none(&self) -> Self::Value
        ensures { result ≡ (meaning self.now).none };

    // The value of one row, from what stands in its measured fields.
    fn one(&self, values: &[i32]) -> Self::Value
        ensures { result ≡ (meaning self.now).one values.now };

    fn join(&self, a: Self::Value, b: Self::Value) -> Self::Value
        ensures { result ≡ (meaning self.now).join a b };

    fn possible(&self, a: Self::Value, rows: u32) -> bool
        ensures { result ≡ (meaning self.now).possible a rows };

    fn answer(&self, a: Self::Value, rows: u32) -> Self::Answer
        ensures { result ≡ (meaning self.now).answer a rows };

    fn write(&self, a: Self::Value) -> [u8; 8]
        ensures { result ≡ (meaning self.now).written a };

    fn read(&self, bytes: &[u8; 8]) -> Option<Self::Value>
        ensures { result ≡ (meaning self.now).reads bytes.now };

    // the six properties
    ghost keeps: { (m : Self) → Properties (meaning m) };

    ghost formed: { (m : Self) → Formed (meaning m) };

    ghost found_by_its_kind: { (m : Self) → found (meaning m).kind ≡ Some m };

    ghost has_the_kind_it_is_found_by: { (k : ℕ) (m : Self) → found k ≡ Some m → k ≡ (meaning m).kind };
}
