// What holds of every session: commands one after the other.
ghost use Rattle.protocol.specs.Session.{OneByOne, OneSession};
ghost use Rattle.protocol.specs.Certificate.{Certificate};

// Run one by one, commands come to what their one course does.
pub fn commands_run_one_by_one<C, S>()
    ensures { OneByOne C S }
{}

// Both seats see one session.
pub fn seats_see_one_session<C, S>()
    ensures { OneSession C S }
{}

// An engine that shows of each command that it computes, hides and costs has the certificate of every session.
#[tactic(auto, using(crate::proofs::Certifying::certified))]
pub fn engines_are_certified<C, D, W, S, O>()
    ensures { Certificate C D W S O }
{}
