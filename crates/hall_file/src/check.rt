// The check of a file.
ghost use Rattle.std.specs.Prelude.{◌≡◌, ℕ, List, ◌++◌, length, Ok, Result, ◌==◌};
ghost use Rattle.text.specs.declared.refusal.Refusal.{Refusal as Refused};
ghost use Rattle.hall_file.specs.declared.view.View.{View as Viewed};
ghost use Rattle.hall_file.specs.Written.{Content, file_bytes};
ghost use Rattle.hall_file.specs.Rules.{Good};
ghost use Rattle.hall_file.specs.Views.{Shows, FirstFile, Checked};

use crate::columns::take_columns;
use crate::head::take_head;
use crate::view::View;
use measures::measure::Measure;
use text::refusal::Refusal;

// The well-made file at the front of bytes, and the bytes after it. One pass over the file's bytes.
pub fn first_file<M: Measure>(bytes: &[u8]) -> Option<(View<'_>, &[u8])>
    ensures { FirstFile M.Measure.meaning bytes.now result }
{
    let (head, body) = take_head(bytes)?;
    let rest = take_columns::<M>(head, body)?;
    let end = body.len() - rest.len();
    let body = &body[..end];
    Some((View { head, body }, rest))
}

// Whether no byte is left: what the check goes by, under a contract of its own.
fn is_end(rest: &[u8]) -> bool
    ensures { result ≡ (length rest.now == 0) }
{
    rest.is_empty()
}

// The file in bytes that are well made; 7 otherwise.
pub fn check<M: Measure>(bytes: &[u8]) -> Result<View<'_>, Refusal>
    ensures { Checked M.Measure.meaning bytes.now result }
{
    let (view, rest) = first_file::<M>(bytes).ok_or(Refusal::FileForm)?;
    if is_end(rest) {
        Ok(view)
    } else {
        Err(Refusal::FileForm)
    }
}

// Carries this: two contents with the same bytes are the same. There is nothing to do.
pub fn one_content<M: Measure>()
    ensures { (f g : Content M M.Value) → Good M.Measure.meaning f → Good M.Measure.meaning g → file_bytes M.Measure.meaning f ≡ file_bytes M.Measure.meaning g → f ≡ g }
{}

// Carries this: what is written reads back, whatever the check answers. There is nothing to do.
pub fn written_reads_back<M: Measure>()
    ensures { (f : Content M M.Value) (r : Result Viewed Refused) → Good M.Measure.meaning f → Checked M.Measure.meaning (file_bytes M.Measure.meaning f) r → (v : Viewed) × (r ≡ Ok v) × Shows M.Measure.meaning f v }
{}
