// Tests of scripts: hand-written lines of every kind, edges of ranges, lines that can't be read, and printed answers.
#![tactic(auto)]

#[cfg(test)]
mod answer_tests;
#[cfg(test)]
mod line_tests;
#[cfg(test)]
mod text_tests;
