//! The statuses that `srm audit` ends with, beside those of `srm_script`.

ghost use Rattle.std.specs.Prelude.{◌≡◌};
ghost use Rattle.srm_verdicts.specs.AuditStatuses.{status_of};

use srm_audited::Verdict;

/// The status if the records are no honest run: 6.
pub const NOT_HONEST: u8 = 6;

/// The status if the calls of the records may be of an honest run, and a record is missing or cut: 7. It is the greatest.
pub const UNDECIDED: u8 = 7;

/// Returns the status that the program ends with once it has printed a verdict.
pub fn status_of(verdict: &Verdict) -> u8
    ensures { result ≡ status_of verdict.now }
{
    match verdict {
        Verdict::Honest(_) => 0,
        Verdict::NotHonest(_) => NOT_HONEST,
        Verdict::Undecided => UNDECIDED,
    }
}
