// Tests of the chained pack, on small packs and damaged ones.
#![tactic(auto)]

#[cfg(test)]
mod tests;
