ghost use Rattle.std.specs.Prelude.{◌≡◌, ◌<◌, ◌^◌};

use std::marker::Model;

/// A MAC address, 48 bits, as the number that its bytes spell in network order (IEEE 802). Contracts
/// see it as that number.
#[derive(Clone, Copy, Debug, PartialEq, Eq)]
pub struct Mac {
    number: u64,
}

impl Model for Mac {
    ghost use Rattle.std.specs.Prelude.{ℕ, ◌<◌, ◌^◌};

    ghost Value = { ℕ };

    ghost view = { λ a. a.number };

    ghost invariant = { λ a. a.number < 2 ^ 48 };

    ghost inverse = { λ n. record { number = n } };
}

impl Mac {
    pub fn new(number: u64) -> Mac
        requires { number < 2 ^ 48 }
        ensures { result ≡ number }
    {
        Mac { number }
    }

    pub fn get(self) -> u64
        ensures value { result ≡ self }
        ensures below { result < 2 ^ 48 }
    {
        self.number
    }
}
