// Wish 4 of document 02: the ledger as document 01 has it, 64 totals by value. Number 19 is met where it is read, 20 where a total grows.
#![tactic(auto)]

ghost use Rattle.std.specs.Prelude.{◌≡◌, ◌+◌, ◌<◌, not, get_or, set, ltb};
ghost use Rattle.model.specs.Offset.{max_u32};
ghost use Rattle.model.specs.Desk.{desk_ok};
ghost use Rattle.ledger.specs.Unless.{unless};

const DESKS: usize = 64;

// The lent totals. Number 19: there are none for a desk above 63, or of a ledger without exactly 64 totals.
#[tactic(auto, using(std::proofs::lemmas::Bool::Decides::nat_tests), unfolding(model::specs::Desk::desk_ok))]
pub fn totals(desk: u32, ledger: &[u32]) -> Option<[u32; 64]>
    ensures { result ≡ unless (not (desk_ok desk ledger.now)) ledger.now }
{
    if DESKS <= desk as usize || ledger.len() != DESKS {
        return None;
    }
    let mut totals = [0u32; 64];
    totals.copy_from_slice(ledger);
    Some(totals)
}

// The totals with one grown. Number 20: there are none where it would pass 4294967295.
pub fn charged(totals: [u32; 64], desk: u32, reread: u32) -> Option<[u32; 64]>
    requires { desk < 64 }
    ensures { let total = get_or totals desk 0 + reread in result ≡ unless (ltb max_u32 total) (set totals desk total) }
{
    let at = desk as usize;
    let mut grown = totals;
    grown[at] = grown[at].checked_add(reread)?;
    Some(grown)
}
