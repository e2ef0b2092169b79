ghost use Rattle.std.specs.Prelude.{◌≡◌};
ghost use Rattle.nf_base.specs.Limits.{IsShare};

/// Which indices a queue owns: of every chain those `i` with `i mod of = queue`.
#[derive(Clone, Copy, Debug, PartialEq, Eq)]
pub struct Share {
    /// Below `of`.
    pub queue: u32,
    /// How many queues there are, 1 to 16.
    pub of: u32,
    pub ghost within: { IsShare queue of },
}

impl Share {
    ghost use Rattle.nf_base.specs.Shares.{owns};

    /// Whether an index is the queue's own.
    pub fn owns(self, i: u32) -> bool
        ensures { result ≡ owns self i }
    {
        i % self.of == self.queue
    }
}
