// The answers to a vote or a timeout that is not counted.
ghost use Rattle.std.specs.Prelude.{◌≡◌, Err};
ghost use Rattle.certificates.specs.Error.{code};
ghost use Rattle.moves.specs.Tallied.{added_number};

use aggregator::tallies::AddError;
use certificates::error::Refusal;

// Why a vote or a timeout is not counted, as a refusal.
pub fn added_refusal(e: AddError) -> Refusal
    ensures { code result ≡ added_number (Err e) }
{
    match e {
        AddError::NoRoom => Refusal::TalliesFull,
        AddError::Used => Refusal::AuthorityReuse,
    }
}
