// Tests of the card in the compiled code, by tables: what goes in, and what the rules say comes out.
#![tactic(auto)]

#[cfg(test)]
mod chain_tests;
#[cfg(test)]
mod check_tests;
#[cfg(test)]
mod command_tests;
#[cfg(test)]
mod look;
#[cfg(test)]
mod machine;
#[cfg(test)]
mod model_tests;
#[cfg(test)]
mod read_tests;
#[cfg(test)]
mod refusal_tests;
#[cfg(test)]
mod said;
#[cfg(test)]
mod scenes;
#[cfg(test)]
mod seek_tests;
#[cfg(test)]
mod stages;
#[cfg(test)]
mod status_tests;
#[cfg(test)]
mod turns;
#[cfg(test)]
mod verify_tests;
#[cfg(test)]
mod write_tests;
