//! What a network card has for receive side scaling (Microsoft RSS): an indirection table, and a
//! key for each port.
ghost use Rattle.std.specs.Prelude.{◌≡◌, ◌≢◌, MatchOption};
ghost use Rattle.nf_base.specs.Cards.{index_bits, entries, key_bytes, usual_card};

/// How many entries the indirection table has.
#[derive(Clone, Copy, Debug, PartialEq, Eq)]
pub enum TableSize {
    /// 128, which the low 7 bits of a hash tell apart.
    Entries128,
    /// 512, which the low 9 bits of a hash tell apart.
    Entries512,
}

/// How many bytes a key of the Toeplitz hash has.
#[derive(Clone, Copy, Debug, PartialEq, Eq)]
pub enum KeySize {
    Bytes40,
    Bytes52,
}

/// The sizes of both.
#[derive(Clone, Copy, Debug, PartialEq, Eq)]
pub struct Card {
    pub table: TableSize,
    pub key: KeySize,
}

impl TableSize {
    /// The size with so many entries; None where there is none.
    pub fn of(number: u64) -> Option<TableSize>
        ensures { MatchOption result ((size : TableSize) → entries size ≢ number)
            (λ size. entries size ≡ number) }
    {
        match number {
            128 => Some(TableSize::Entries128),
            512 => Some(TableSize::Entries512),
            _ => None,
        }
    }

    /// How many entries.
    pub fn entries(self) -> u32
        ensures { result ≡ entries self }
    {
        match self {
            TableSize::Entries128 => 128,
            TableSize::Entries512 => 512,
        }
    }

    /// How many low bits of a hash tell them apart.
    pub fn index_bits(self) -> u32
        ensures { result ≡ index_bits self }
    {
        match self {
            TableSize::Entries128 => 7,
            TableSize::Entries512 => 9,
        }
    }
}

impl KeySize {
    /// The size with so many bytes; None where there is none.
    pub fn of(number: u64) -> Option<KeySize>
        ensures { MatchOption result ((size : KeySize) → key_bytes size ≢ number)
            (λ size. key_bytes size ≡ number) }
    {
        match number {
            40 => Some(KeySize::Bytes40),
            52 => Some(KeySize::Bytes52),
            _ => None,
        }
    }

    /// How many bytes.
    pub fn bytes(self) -> u32
        ensures { result ≡ key_bytes self }
    {
        match self {
            KeySize::Bytes40 => 40,
            KeySize::Bytes52 => 52,
        }
    }
}

impl Card {
    /// A table of 128 entries, and keys of 40 bytes.
    pub fn usual() -> Card
        ensures { result ≡ usual_card }
    {
        Card {
            table: TableSize::Entries128,
            key: KeySize::Bytes40,
        }
    }
}
