// Tests of every make of storage, of the plain pack and of the defect layer: each refusal of each call, and the edges of
// each range.
#![tactic(auto)]

#[cfg(test)]
mod defect_tests;
#[cfg(test)]
mod pack_tests;
#[cfg(test)]
mod storage_tests;
