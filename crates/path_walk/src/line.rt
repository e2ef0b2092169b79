//! A handler's block as numbered lines, each of which goes on at earlier ones.
ghost use Rattle.std.specs.Prelude.{◌<◌};

use crate::test::Text;

/// How a path goes on at a statement that branches. Lines go by their number.
#[derive(Clone, Copy, Drop)]
pub enum Line<T> {
    /// The path ends.
    Stop,
    /// A look-up, or a test that reads more than the packet.
    Free {
        hit: usize,
        miss: usize,
    },
    /// A test of the packet alone. Where outcomes are exchanged it hits where it doesn't hold.
    Test {
        test: T,
        exchanged: bool,
        hit: usize,
        miss: usize,
    },
    Make {
        made: usize,
        taken: usize,
        full: usize,
    },
}
