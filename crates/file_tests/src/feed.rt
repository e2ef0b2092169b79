// Captures that are read as streams.
mod calls;
mod pcapng_tests;
mod story;
mod tests;
