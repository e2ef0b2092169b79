//! The tests of the tables. The program itself does nothing: so what they use is proved once, with them.
#![tactic(auto)]

#[cfg(test)]
mod calls;
#[cfg(test)]
mod chain_tests;
#[cfg(test)]
mod map_tests;
#[cfg(test)]
mod merge_tests;
#[cfg(test)]
mod short_run_tests;
#[cfg(test)]
mod table_calls;
#[cfg(test)]
mod tables_tests;
#[cfg(test)]
mod tag_tests;

fn main() {}
