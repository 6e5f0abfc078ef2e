// Tests of deal sheets: vectors, damage, the refusals of the writer, and the way there and back.
#![tactic(auto)]

#[cfg(test)]
mod tests;
