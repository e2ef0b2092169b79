// Whether a worker's next packet is looked at first, by how its last looks went: only a hint.

/// So many looks in a row that gave up make the next packets go to the lock at once.
const FEW: u32 = 4;

/// How many packets go to the lock at once, before one is looked at again.
const PASSED: u32 = 7;

/// How a worker's last looks went. A look that gives up was for nothing: the packet is handled from
/// its beginning then. So where looks gave up in a row the next packets are not looked at. What
/// packets do may change, so every now and then one is.
#[derive(Drop)]
pub(crate) struct Hint {
    // How many looks gave up since one was done.
    gave_up: u32,
    // How many packets are not to be looked at.
    left: u32,
}

impl Hint {
    /// No look has given up.
    pub(crate) fn new() -> Hint {
        Hint {
            gave_up: 0,
            left: 0,
        }
    }

    /// Whether the next packet is not to be looked at.
    pub(crate) fn passes(&mut self) -> bool {
        if self.left == 0 {
            return false;
        }
        self.left -= 1;
        true
    }

    /// A look was done.
    pub(crate) fn done(&mut self) {
        self.gave_up = 0;
    }

    /// A look gave up.
    pub(crate) fn gave_up(&mut self) {
        self.gave_up = self.gave_up.saturating_add(1);
        if self.gave_up >= FEW {
            self.left = PASSED;
        }
    }
}
