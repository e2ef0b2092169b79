ghost use Rattle.std.specs.Prelude.{◌≡◌, ℕ, ◌<◌, ◌≤◌, [], ◌∷◌, ◌++◌, length, take};

use std::marker::Model;

/// The labels of a new entry, at most 136: 8 parts for each of 16 maps, and 8 fixed columns.
#[derive(Drop)]
pub struct Labels {
    values: [u128; 136],
    len: u32,
}

impl Model for Labels {
    ghost use Rattle.std.specs.Prelude.{List, ℕ, take, ◌≤◌};

    ghost Value = { List ℕ };

    ghost view = { λ a. take a.len a.values };

    ghost invariant = { λ a. a.len ≤ 136 };
}

impl Labels {
    pub fn new() -> Labels
        ensures { result ≡ [] }
    {
        Labels {
            values: [0; 136],
            len: 0,
        }
    }

    pub fn push(&mut self, value: u128)
        requires { length self.old < 136 }
        ensures { self.new ≡ self.old ++ value ∷ [] }
    {
        self.values[self.len as usize] = value;
        self.len += 1;
    }

    pub fn as_slice(&self) -> &[u128]
        ensures { result.now ≡ self.now }
    {
        &self.values[..self.len as usize]
    }
}
