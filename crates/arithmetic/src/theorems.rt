// What holds of shared numbers: each theorem is a function's contract.
ghost use Rattle.arithmetic.specs.Theorems.{DigitsCompare, DigitsSuffice, SignByCarry, SignIsSigned, SignedSharesAdd, FloorExact, FloorUnique, FloorFits, ExcessBounded, QuotientsAdd, ShiftsAdd, TestsRead, TestWidthLeast};

// Digits joined level by level compare the numbers, however many digits there are.
#[tactic(auto, using(crate::proofs::Comparison::digits_compare))]
pub fn digits_compare()
    ensures { DigitsCompare }
{}

// A number of v bits is told by v / 4 digits, rounded up.
pub fn digits_suffice()
    ensures { DigitsSuffice }
{}

// The sign of a shared value, from the shares' top bits and the carry into them.
#[tactic(auto, using(crate::proofs::Sign::sign_by_carry))]
pub fn sign_by_carry()
    ensures { SignByCarry }
{}

// The sign test is that of the signed value.
#[tactic(auto, using(crate::proofs::Sign::sign_is_signed))]
pub fn sign_is_signed()
    ensures { SignIsSigned }
{}

// Signed shares add up to the signed value and the flip times 2^w.
#[tactic(auto, using(crate::proofs::Sign::signed_shares_add))]
pub fn signed_shares_add()
    ensures { SignedSharesAdd }
{}

// The floor and the remainder give the number back.
#[tactic(auto, using(crate::proofs::Integers::floor_exact))]
pub fn floor_exact()
    ensures { FloorExact }
{}

// No other quotient and remainder do.
pub fn floor_unique()
    ensures { FloorUnique }
{}

// The quotient of a number of w bits has w bits.
#[tactic(auto, using(crate::proofs::Integers::floor_fits))]
pub fn floor_fits()
    ensures { FloorFits }
{}

// The excess lies between -d and 3 * d.
pub fn excess_bounded()
    ensures { ExcessBounded }
{}

// The quotient of a shared value, from its shares' quotients and three tests of the excess.
#[tactic(auto, using(crate::proofs::Division::quotients_add))]
pub fn quotients_add()
    ensures { QuotientsAdd }
{}

// At a power of two, from one comparison of the remainders.
#[tactic(auto, using(crate::proofs::Division::shifts_add))]
pub fn shifts_add()
    ensures { ShiftsAdd }
{}

// The tests of the excess are signs at every width with room for 6 * d.
#[tactic(auto, using(crate::proofs::Tests::tests_read))]
pub fn tests_read()
    ensures { TestsRead }
{}

// The test width is the least with that room.
pub fn test_width_least()
    ensures { TestWidthLeast }
{}
