// Numbers 1 to 7 of a tape with its bytes, document 01 section 4, in rising order: the first condition that holds is the refusal,
// and where none does the book is opened. The frame is `places_of`'s. A tape within number 3's limits has a store, by which all else goes; one that
// is over them is asked 1 and 2 without it. 6 and 7 are one walk over each list. specs/Placed.antt says what 6 and 7 compute,
// specs/Numbers.antt what each answer says of the model's chains, specs/Held.antt what is known of a book.
#![tactic(auto)]

mod book;
mod string_bytes;

ghost use Rattle.std.specs.Prelude.{◌≡◌, List, ℕ, true, Some, MatchResult};
ghost use Rattle.model.specs.Refusal.{Checked.refused};
ghost use Rattle.model.specs.Tape.{places, book_at};
ghost use Rattle.model.specs.WellFormed.{texts_are_utf8, check_book, check_reading};
ghost use Rattle.refusal.specs.Refusal.{number, number_in, checked, checked_map};
ghost use Rattle.places.specs.Found.{places_of};
ghost use Rattle.places.specs.Again.{Frame};
ghost use Rattle.places.specs.Walked.{PlacesFit};
ghost use Rattle.layout.specs.Shaped.{Laid};
ghost use Rattle.texts.specs.Limits.{few_enough};
ghost use Rattle.store.specs.Stored.{StoreFits, OfTape};
ghost use Rattle.tape.specs.Placed.{places_number, lengths_agree, drift_number, lists_placed};
ghost use Rattle.tape.specs.Numbers.{pools_number, store_if, IsNoBook};
ghost use Rattle.tape.specs.Opened.{Opens, OpensReading};

pub use book::Book;
use places::Places;
use refusal::Refusal;
use span::{NormalizedOffset, SourceOffset};
use store::{Layers, Store};

// Tape and bytes go one by one, here and in the entries of the crates above, as C lends them: `Book` is of those that passed.

// Number 1 of the frame, of a book or a reading.
fn framed(tape: &[u8], bytes: &[u8]) -> Result<Places, Refusal>
    ensures { MatchResult result (λ p. places_of tape.now bytes.now ≡ Some p) (λ refusal. IsNoBook tape.now bytes.now refusal) }
{
    places::places_of(tape, bytes).ok_or(Refusal::Layout)
}

// The store of a tape that number 3 lets have one.
#[tactic(auto, unfolding(crate::specs::Numbers::store_if))]
fn store_if(tape: &[u8], p: Places) -> Option<Store>
    requires { few_enough p ≡ true → StoreFits tape.now p.layers }
    ensures { result ≡ store_if tape.now p }
{
    if texts::within_limits(p) {
        Some(store::store_of(tape, p.layers))
    } else {
        None
    }
}

// Number 1 of the records, and number 2: both come before 3, so also for a tape that has no store.
fn check_layers(layers: &Layers, bytes: &[u8], p: Places) -> Result<(), Refusal>
    requires { places_of layers.now.tape.now bytes.now ≡ Some p }
    ensures { MatchResult result (λ _. Laid layers.now.tape.now bytes.now p × (texts_are_utf8 (book_at layers.now.tape.now (places layers.now.tape.now) bytes.now) ≡ true))
        (λ r. check_book layers.now.tape.now bytes.now ≡ refused (number r)) }
{
    if !layout::shaped(layers, p) {
        return Err(Refusal::Layout);
    }
    if !texts::texts_utf8(layers, bytes, p) {
        return Err(Refusal::NotUtf8);
    }
    Ok(())
}

// Numbers 4 and 5, whatever the bytes of the texts are.
fn check_pools(tape: &[u8], store: &Store, p: Places) -> Result<(), Refusal>
    requires { OfTape tape.now store.now × PlacesFit tape.now p }
    ensures { (d : List ℕ) → number_in result ≡ pools_number (book_at tape.now (places tape.now) d) }
{
    if !ids::ids_ok(tape, store, p) {
        return Err(Refusal::IdOrRange);
    }
    if !levels::levels_ok(tape, store) {
        return Err(Refusal::Level);
    }
    Ok(())
}

// Number 7: normalized length = text length + all drift; drift is images minus spans. Differences only, so that none overflows; of four
// numbers, as its definition is.
fn lengths_agree(text: SourceOffset, normalized: NormalizedOffset, images: u64, spans: u64) -> bool
    ensures { result ≡ lengths_agree text.0 normalized.0 images spans }
{
    if normalized.0 < text.0 {
        if spans < images {
            return false;
        }
        return spans - images == (text.0 - normalized.0) as u64;
    }
    if images < spans {
        return false;
    }
    images - spans == (normalized.0 - text.0) as u64
}

// Number 6 where a node is out of place, else number 7.
#[tactic(auto, unfolding(crate::specs::Placed::drift_number))]
fn check_drift(
    text: SourceOffset,
    normalized: NormalizedOffset,
    sums: Option<bounds::Sums>,
) -> Result<(), Refusal>
    ensures { number_in result ≡ drift_number text.0 normalized.0 sums }
{
    match sums {
        None => Err(Refusal::Place),
        Some(s) if lengths_agree(text, normalized, s.images, s.spans) => Ok(()),
        Some(_) => Err(Refusal::NormalizedLength),
    }
}

// Number 6 of pairs, containers and diagnostics.
fn lists_placed(tape: &[u8], p: Places) -> bool
    requires { PlacesFit tape.now p }
    ensures { result ≡ lists_placed tape.now p }
{
    if !bounds::pairs_placed(tape, p.pairs, p.text) {
        return false;
    }
    if !bounds::containers_placed(tape, p.containers, p.normalized) {
        return false;
    }
    bounds::diagnostics_placed(tape, p.diagnostics, p.text)
}

// Numbers 6 and 7, of the tape's book with any bytes that its frame holds for.
fn check_places(tape: &[u8], p: Places) -> Result<(), Refusal>
    requires { PlacesFit tape.now p }
    ensures { (d : List ℕ) → Frame tape.now d → number_in result ≡ places_number (book_at tape.now (places tape.now) d) }
{
    if !lists_placed(tape, p) {
        return Err(Refusal::Place);
    }
    let sums = bounds::nodes_placed(tape, p.nodes, p.text);
    check_drift(p.text, p.normalized, sums)
}

// Numbers 1 to 7 of a tape whose frame holds, or the book. Its layers are counted twice, for its places and for its store; all tests go by those.
fn opened<'a>(tape: &'a [u8], bytes: &'a [u8], p: Places) -> Result<Book<'a>, Refusal>
    requires { places_of tape.now bytes.now ≡ Some p }
    ensures { Opens tape.now bytes.now result }
{
    let store = store_if(tape, p);
    let layers = Layers {
        tape,
        store: &store,
        count: p.layers,
    };
    check_layers(&layers, bytes, p)?;
    // number 3
    let Some(store) = store else {
        return Err(Refusal::OverLimit);
    };
    check_pools(tape, &store, p)?;
    check_places(tape, p)?;
    Ok(Book {
        tape,
        bytes,
        places: p,
        store,
    })
}

// Numbers 1 to 7 of a book, or the book: whoever goes on with it need not look for its records again.
pub fn open_book<'a>(tape: &'a [u8], bytes: &'a [u8]) -> Result<Book<'a>, Refusal>
    ensures { Opens tape.now bytes.now result }
{
    let p = framed(tape, bytes)?;
    opened(tape, bytes, p)
}

// The same of a reading, which has exactly one layer; another count is 1 too, before 2. The model has
// both, each by a definition; what they share is `opened`.
pub fn open_reading<'a>(tape: &'a [u8], bytes: &'a [u8]) -> Result<Book<'a>, Refusal>
    ensures { OpensReading tape.now bytes.now result }
{
    let p = framed(tape, bytes)?;
    if p.layers != 1 {
        return Err(Refusal::Layout);
    }
    opened(tape, bytes, p)
}

// `check_book`: numbers 1 to 7 of a book.
pub fn check_book(tape: &[u8], bytes: &[u8]) -> Result<(), Refusal>
    ensures { checked result ≡ checked_map (λ _. tt) (check_book tape.now bytes.now) }
{
    open_book(tape, bytes)?;
    Ok(())
}

// `check_reading`: numbers 1 to 7 of a reading.
pub fn check_reading(tape: &[u8], bytes: &[u8]) -> Result<(), Refusal>
    ensures { checked result ≡ checked_map (λ _. tt) (check_reading tape.now bytes.now) }
{
    open_reading(tape, bytes)?;
    Ok(())
}
