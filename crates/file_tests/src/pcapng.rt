// Captures in pcapng.
mod calls;
mod story;
mod tests;
