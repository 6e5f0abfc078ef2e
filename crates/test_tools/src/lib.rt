// What the tests of sources and of sheets share: counts, refusals as words, and draws.
#![tactic(auto)]

ghost use Rattle.std.specs.Prelude.{◌≡◌, [], ◌∷◌, MatchResult};
ghost use Rattle.refusal.specs.Refusals.{code};
ghost use Rattle.test_tools.specs.Drawn.{Drawn};
ghost use Rattle.test_tools.specs.Told.{words_of};

use refusal::per_kind::PerKind;
use refusal::refusal::Refusal;
use sources::source::Source;

// One count for each kind.
pub fn counts(bit: u32, ring0: u32, ring1: u32) -> PerKind<u32>
    ensures { result ≡ record { bit = bit; ring0 = ring0; ring1 = ring1 } }
{
    PerKind { bit, ring0, ring1 }
}

// A refusal's number and the first three of its values, as the rules list them; a call that went ahead has
// number 0.
pub fn told<T: Drop>(r: Result<T, Refusal>) -> [u32; 4]
    ensures { MatchResult r (λ _. result ≡ 0 ∷ 0 ∷ 0 ∷ 0 ∷ []) (λ e. result ≡ words_of (code e)) }
{
    match r {
        Ok(_) => [0; 4],
        Err(e) => {
            let values = e.values();
            let value = |i: usize| values.as_slice().get(i).copied().unwrap_or(0);
            [u32::from(e.code()), value(0), value(1), value(2)]
        }
    }
}

// Draws a half in front of 20 words that hold 9, and 99 in the first where it is refused, so that tests can
// compare the words whole. The kind is a number, as it is in `draw`, the call under test.
pub fn drawn<S: Source>(source: &mut S, kind: u8) -> [u32; 20]
    ensures drawn { Drawn (S.owner source.old) (S.left source.old) (S.left source.new) kind result }
    ensures owner { S.owner source.new ≡ S.owner source.old }
    ensures layer { S.layer source.new ≡ S.layer source.old }
{
    let mut words = [9; 20];
    if source.draw(kind, &mut words).is_err() {
        words[0] = 99;
    }
    words
}
