// What holds of the twelve commands and of every session of them: each theorem is a function's contract.
ghost use Rattle.engine.specs.Promise.{CommandsStand, EngineCertified};
ghost use Rattle.engine.specs.Examples.{TwelveSplits, RefusalsInOrder, SessionPlayed};

// Each command, at either seat, computes what the ideal functionality says, hides all but what it opens, and costs its
// price.
pub fn commands_stand()
    ensures { CommandsStand }
{}

// The certificate of every list of commands, for either seat.
#[tactic(auto, using(crate::proofs::Certifying::engine_certified))]
pub fn engine_is_certified()
    ensures { EngineCertified }
{}

// The twelve worked splits, of the ideal functionality.
#[tactic(auto, unfolding(arithmetic::specs::Tests::test_width))]
pub fn twelve_splits()
    ensures { TwelveSplits }
{}

// Where much is wrong, the first check in the order refuses.
pub fn refusals_in_order()
    ensures { RefusalsInOrder }
{}

// A short session of the parties' own courses.
#[tactic(auto, unfolding(arithmetic::specs::Tests::test_width, gadgets::specs::Comparison::compare))]
pub fn session_is_played()
    ensures { SessionPlayed }
{}
