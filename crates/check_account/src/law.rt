//! Laws of the account.

ghost use Rattle.check_account.specs.Accounts.{AllFollow, EachIsKnown};

/// For every machine and every journal, an entry moves what the entries before it left to what they all
/// leave.
#[tactic(auto, using(crate::proofs::Following::follow))]
pub fn accounts_follow()
    ensures { AllFollow }
{}

/// After every journal each script has its state of freezing.
#[tactic(auto, using(crate::proofs::Following::placed))]
pub fn each_is_known()
    ensures { EachIsKnown }
{}
