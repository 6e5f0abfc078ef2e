// The group that masks join in: its laws, and the two groups of the engine.
ghost use Rattle.std.specs.Prelude.{◌≡◌};
ghost use Rattle.lookup.specs.Groups.{Operation, Laws, xor, add};
ghost use Rattle.lookup.specs.Instances.{xor_laws, add_laws};

// Words that join by an operation with the laws of a group. The order of the two may matter.
pub trait Group {
    // The elements are the numbers below the operation's size.
    ghost operation: { Operation };

    fn join(x: u32, y: u32) -> u32
        ensures { result ≡ operation.join x y };

    fn inverse(x: u32) -> u32
        ensures { result ≡ operation.inverse x };

    ghost laws: { Laws operation };
}

// Numbers of two bits, joined by exclusive or.
#[derive(Clone, Copy, Debug, PartialEq, Eq, Hash)]
pub struct Xor;

impl Group for Xor {
    ghost operation = { xor };

    ghost laws = { xor_laws };

    fn join(x: u32, y: u32) -> u32 {
        x ^ y
    }

    fn inverse(x: u32) -> u32 {
        x
    }
}

// Numbers of 32 bits, joined by addition modulo 2^32.
#[derive(Clone, Copy, Debug, PartialEq, Eq, Hash)]
pub struct Ring;

impl Group for Ring {
    ghost operation = { add };

    ghost laws = { add_laws };

    fn join(x: u32, y: u32) -> u32 {
        x.wrapping_add(y)
    }

    fn inverse(x: u32) -> u32 {
        0u32.wrapping_sub(x)
    }
}
