// A limit over any source, itself a source.
ghost use Rattle.std.specs.Prelude.{◌≡◌, ◌-◌, ◌<◌, ◌++◌, length, take, drop, if◌then◌else◌, nat_lt};
ghost use Rattle.refusal.specs.PerKinds.{at, with_at};
ghost use Rattle.refusal.specs.declared.kind.Kind.{Kind as KindOf};
ghost use Rattle.refusal.specs.declared.refusal.Layer.TheVariants.{Quota as QuotaLayer};
ghost use Rattle.sources.specs.Halves.{InRange};
ghost use Rattle.sources.specs.Ranges.{taken_in_range};
ghost use Rattle.sources.specs.Quotas.{quota_owner, quota_left, quota_layer, quota_past};

use crate::source::{Half, Source, enough};
use refusal::kind::Kind;
use refusal::per_kind::PerKind;
use refusal::refusal::{Layer, Refusal};
use refusal::seat::Seat;

// The first `allowed` halves of each kind of the source below.
#[derive(Drop)]
pub struct Quota<S> {
    below: S,
    allowed: PerKind<u32>,
}

impl<S: Source> Quota<S> {
    pub fn new(below: S, allowed: PerKind<u32>) -> Quota<S>
        ensures owner { quota_owner S.owner result ≡ S.owner below }
        ensures left { (k : KindOf) → quota_left S.left result k ≡ take (at allowed k) (S.left below k) }
        ensures past { (k : KindOf) → quota_past S.left result k ≡ drop (at allowed k) (S.left below k) }
        ensures layer { (k : KindOf) → quota_layer S.left S.layer result k ≡ (if nat_lt (length (S.left below k)) (at allowed k) then S.layer below k else QuotaLayer) }
    {
        Quota { below, allowed }
    }

    // The source below, back: what is left of the quota, and then what lay past it.
    pub fn into_below(self) -> S
        ensures below { result ≡ self.below }
        ensures left { (k : KindOf) → S.left result k ≡ quota_left S.left self k ++ quota_past S.left self k }
    {
        let Quota { below, allowed: _ } = self;
        below
    }

    // Whether the list below is shorter than the quota.
    fn is_short_below(&self, kind: Kind) -> bool
        ensures { result ≡ nat_lt (length (S.left self.now.below kind)) (at self.now.allowed kind) }
    {
        self.below.check(kind, self.allowed.get(kind)).is_err()
    }

    // One half of a kind fewer is allowed.
    fn lower(&mut self, kind: Kind)
        ensures { self.new ≡ record self.old { allowed = with_at kind (at self.old.allowed kind - 1) self.old.allowed } }
    {
        self.allowed.lower(kind);
    }
}

impl<S: Source> Source for Quota<S> {
    ghost owner = { quota_owner S.Source.owner };

    ghost left = { quota_left S.Source.left };

    ghost layer = { quota_layer S.Source.left S.Source.layer };

    ghost past = { quota_past S.Source.left };

    ghost ranges = { λ s k. taken_in_range (InRange (S.Source.owner s.below) k) (at s.allowed k) (S.Source.left s.below k) (S.Source.ranges s.below k) };

    fn seat(&self) -> Seat {
        self.below.seat()
    }

    fn check(&self, kind: Kind, count: u32) -> Result<(), Refusal> {
        if self.is_short_below(kind) {
            return self.below.check(kind, count);
        }
        enough(kind, self.allowed.get(kind), count, Layer::Quota)
    }

    // Not by `check`, which asks the source below first: that refuses here itself, with its own layer, where its
    // list is empty.
    fn take(&mut self, kind: Kind) -> Result<Half, Refusal> {
        enough(kind, self.allowed.get(kind), 1, Layer::Quota)?;
        let half = self.below.take(kind)?;
        self.lower(kind);
        Ok(half)
    }
}
