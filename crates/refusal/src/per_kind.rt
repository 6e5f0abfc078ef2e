// One value for each kind of correlation: counts, running numbers, positions.
ghost use Rattle.std.specs.Prelude.{◌≡◌, ◌-◌};
ghost use Rattle.refusal.specs.PerKinds.{at, with_at};

use crate::kind::Kind;

#[derive(Clone, Copy, Debug, PartialEq, Eq, Hash)]
pub struct PerKind<T> {
    pub bit: T,
    pub ring0: T,
    pub ring1: T,
}

impl<T: Copy> PerKind<T> {
    pub fn get(&self, kind: Kind) -> T
        ensures { result ≡ at self.now kind }
    {
        match kind {
            Kind::Bit => self.bit,
            Kind::Ring0 => self.ring0,
            Kind::Ring1 => self.ring1,
        }
    }

    // Writes the value of one kind; the others stay.
    pub fn put(&mut self, kind: Kind, value: T)
        ensures { self.new ≡ with_at kind value self.old }
    {
        match kind {
            Kind::Bit => self.bit = value,
            Kind::Ring0 => self.ring0 = value,
            Kind::Ring1 => self.ring1 = value,
        }
    }
}

impl PerKind<u32> {
    // Counts one less of a kind, down to 0.
    pub fn lower(&mut self, kind: Kind)
        ensures { self.new ≡ with_at kind (at self.old kind - 1) self.old }
    {
        self.put(kind, self.get(kind).saturating_sub(1));
    }
}
