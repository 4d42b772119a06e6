//! Laws of the format, each the contract of a function that does nothing.
ghost use Rattle.std.specs.Prelude.{◌≡◌, ◌<◌, ◌++◌, ℕ, List, Result, slice_index, length};
ghost use Rattle.pgm_image.specs.Picture.{Picture, IsPicture};
ghost use Rattle.pgm_image.specs.Written.{written_form};
ghost use Rattle.pgm_image.specs.Front.{Front, IsReadingOf};
ghost use Rattle.pgm_image.specs.declared.error.PgmError.{PgmError};

/// The format says one thing at least of any bytes: their image, or a refusal.
pub fn some_answer()
    ensures { (bytes : List ℕ) → ((i : ℕ) → slice_index bytes i < 256)
        → (answer : Result (Picture × ℕ) PgmError) × IsReadingOf bytes answer }
{}

/// The format says one thing at most of any bytes.
pub fn one_answer()
    ensures { (bytes : List ℕ) (a b : Result (Picture × ℕ) PgmError) → IsReadingOf bytes a
        → IsReadingOf bytes b
        → a ≡ b }
{}

/// At most one image is at a front.
pub fn one_image()
    ensures { (bytes : List ℕ) (p q : Picture) (u v : ℕ) → Front bytes p u → Front bytes q v
        → (p ≡ q) × (u ≡ v) }
{}

/// The written form, followed by anything, has its image at the front, of its length.
pub fn written_form_is_read()
    ensures { (p : Picture) (more : List ℕ) → IsPicture p
        → Front (written_form p ++ more) p (length (written_form p)) }
{}
