// Where a party's halves of correlations come from: the interface of a source, and quotas over any source.
#![tactic(auto)]

pub mod quota;
pub mod source;
