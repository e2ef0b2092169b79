//! The tests of files, captures in both formats, what is read of them as streams, frames, journals and states. The
//! program itself does nothing: so what they use is proved once, with them.
#![tactic(auto)]

#[cfg(test)]
mod calls;
#[cfg(test)]
mod capture_tests;
#[cfg(test)]
mod failing_system;
#[cfg(test)]
mod fault_count_tests;
#[cfg(test)]
mod feed;
#[cfg(test)]
mod frame_tests;
#[cfg(test)]
mod history_tests;
#[cfg(test)]
mod memory_files_tests;
#[cfg(test)]
mod pcapng;
#[cfg(test)]
mod real_files_tests;
#[cfg(test)]
mod script;
#[cfg(test)]
mod six_frame_tests;
#[cfg(test)]
mod story;

fn main() {}
