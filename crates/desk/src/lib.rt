// Wish 4 of document 02: the entry `merge_for_desk`. 19, then the merge's 1 to 18, then 20; only an accepted merge is charged.
#![tactic(auto)]

ghost use Rattle.std.specs.Prelude.{◌≡◌};
ghost use Rattle.model.specs.Refusal.{Checked.refused as refused};
ghost use Rattle.model.specs.Merge.{room_of};
ghost use Rattle.model.specs.Desk.{merge_for_desk};
ghost use Rattle.books.specs.Values.{stored_value, correction_value};
ghost use Rattle.refusal.specs.Refusal.{number, checked};
ghost use Rattle.output.specs.Answer.{Merged};
ghost use Rattle.desk.specs.Charging.{MergedForDesk};

use books::{Correction, Stored};
use output::IncrementalOutput;
use refusal::Refusal;

// What this entry refuses by itself, with the three buffers as after any refusal: zeros.
fn refuse(
    refusal: Refusal,
    out_tape: &mut [u8],
    out_bytes: &mut [u8],
    work: &mut [u32],
) -> Result<IncrementalOutput, Refusal>
    ensures { Merged (refused (number refusal)) (room_of out_tape.old out_bytes.old work.old) (checked result) out_tape.new out_bytes.new work.new }
{
    output::clear_rest(out_tape, out_bytes, work, 0, 0);
    Err(refusal)
}

// `merge_for_desk`: as `merge`, and the desk's total in the lent ledger grows by the reread nodes. After a refusal the ledger is as it was, and
// the three buffers are zeros, also where the merge had written its result already (20).
pub fn merge_for_desk(
    desk: u32,
    ledger: &mut [u32],
    book: &Stored,
    correction: &Correction,
    out_tape: &mut [u8],
    out_bytes: &mut [u8],
    work: &mut [u32],
) -> Result<IncrementalOutput, Refusal>
    ensures { MergedForDesk
        (merge_for_desk desk ledger.old (stored_value book.now) (correction_value correction.now) (room_of out_tape.old out_bytes.old work.old))
        (room_of out_tape.old out_bytes.old work.old) (checked result) out_tape.new out_bytes.new work.new ledger.old ledger.new }
{
    let Some(totals) = ledger::totals(desk, ledger) else {
        return refuse(Refusal::DeskOrLedger, out_tape, out_bytes, work);
    };
    let merged = incremental::merge(book, correction, out_tape, out_bytes, work)?;
    let Some(grown) = ledger::charged(totals, desk, merged.reread) else {
        return refuse(Refusal::TotalFull, out_tape, out_bytes, work);
    };
    ledger.copy_from_slice(&grown);
    Ok(merged)
}
