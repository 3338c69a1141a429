// Where a reader of a plan stands.
ghost use Rattle.std.specs.Prelude.{◌+◌, ◌≤◌, length};

// The most bytes that the text of a plan has.
pub const MOST_BYTES: usize = 4096;

// The words of a plan still to come, from word `word` of line `line` on. Where that is the line's first word, `rest`
// begins with it; where it is a later one, `rest` begins with what ended the word before it.
#[derive(Clone, Copy)]
pub struct Words<'a> {
    pub rest: &'a [u8],
    pub line: usize,
    pub word: usize,
    ghost short: { length rest.now ≤ 4096 },
    ghost counted: { 1 ≤ word },
    ghost words: { word + length rest.now ≤ 4098 },
    ghost lines: { line + length rest.now ≤ 4097 },
}
