// What is merged.
#![tactic(auto)]

ghost use Rattle.edit.specs.Values.{edit_value};
ghost use Rattle.splice.specs.Window.{window_value};
ghost use Rattle.fitting.specs.Fits.{Fits};

use edit::Edit;
use splice::Window;
use tape::Book;

// A book, an edit, the window of its region, and a reading of that passage: what is merged once all of it has passed.
#[derive(Clone, Copy)]
pub struct Merging<'a> {
    pub book: Book<'a>,
    pub edit: Edit<'a>,
    pub window: Window,
    pub reading: Book<'a>,
    pub ghost fits: { Fits book (edit_value edit) (window_value window) reading },
}
