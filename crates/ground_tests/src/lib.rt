// Tests of the lookup, the dealer and quotas against vectors worked out by hand or outside.
#![tactic(auto)]

#[cfg(test)]
mod tests;
