// What holds of every run of two courses over the halves of two parties.
ghost use Rattle.protocol.specs.Theorems.{LookupsShare, LookupsHide, Soundness, Cost, Account, MessageAccount, Silence, Whole, BothWays, OneRun, DealsExist};

// The two shares of a lookup join to the entry that was sought, at either seat and in every kind.
#[tactic(auto, using(crate::proofs::Lookups::lookups_share))]
pub fn lookups_share()
    ensures { LookupsShare }
{}

// Whatever else the other party brings, exactly one half of its own lets this party hear the same.
#[tactic(auto, using(crate::proofs::Lookups::lookups_hide))]
pub fn lookups_hide()
    ensures { LookupsHide }
{}

// What two courses compute comes about over every lawful deal.
#[tactic(auto, using(crate::proofs::Running::soundness))]
pub fn runs_are_sound<R>()
    ensures { Soundness R }
{}

// A run uses what its course costs.
#[tactic(auto, using(crate::proofs::Running::cost))]
pub fn runs_cost<R>()
    ensures { Cost R }
{}

// A result that counts what is left counts it rightly.
#[tactic(auto, using(crate::proofs::Running::account))]
pub fn runs_are_accounted<R>()
    ensures { Account R }
{}

// The same of messages: two for a lookup, one for a word.
#[tactic(auto, using(crate::proofs::Running::message_account))]
pub fn messages_are_accounted<R>()
    ensures { MessageAccount R }
{}

// Exactly one list of the other's spent halves explains what a party saw.
#[tactic(auto, using(crate::proofs::Silent::silence))]
pub fn runs_are_silent<R>()
    ensures { Silence R }
{}

// What lies behind the spent halves makes no difference to that.
#[tactic(auto, using(crate::proofs::Whole::whole))]
pub fn rest_makes_no_difference<R>()
    ensures { Whole R }
{}

// Explaining goes both ways: what the other may have been dealt in two runs is paired one to one.
pub fn explaining_goes_both_ways<R>()
    ensures { BothWays R }
{}

// Both seats see one run.
#[tactic(auto, using(crate::proofs::Turning::one_run))]
pub fn seats_see_one_run<R>()
    ensures { OneRun R }
{}

// There are lawful deals of every length.
#[tactic(auto, using(crate::proofs::Deals::deals_exist))]
pub fn deals_exist()
    ensures { DealsExist }
{}
