//! What is wrong with a tree, and where.

ghost use Rattle.std.specs.Prelude.{◌≡◌};
ghost use Rattle.nf_types.specs.declared.fault.TypingFault.TheVariants.{Memory, Broken};
ghost use Rattle.nf_types.specs.Faults.{fault_if, first, fault_in};

use nf_tokens::Place;
use std::alloc::{AllocError, AllocFailed};
use thiserror::Error;

/// The kinds of type faults.
#[derive(Clone, Copy, Debug, PartialEq, Eq, Error)]
pub enum TypingKind {
    /// A chain, array, map, label or column that is not declared.
    #[error("T01")]
    Unknown,
    /// A name declared twice, a label given twice, or a second handler of a port for one version of
    /// IP.
    #[error("T02")]
    Twice,
    /// A wrong number of key parts in a `get`, or labels missing in a `new`.
    #[error("T03")]
    Amount,
    /// A free column in a guard or among the labels of a `new`.
    #[error("T04")]
    FreeColumn,
    /// A fixed column or key part written, or `time`, `length` or `proto` set.
    #[error("T05")]
    ReadOnly,
    /// A variable that is not in scope.
    #[error("T06")]
    NotInScope,
    /// A limit passed, a width that is none, more contents than cells, or a handler of a port that
    /// is not declared.
    #[error("T07")]
    Limit,
    /// A declared port without a handler for IPv4.
    #[error("T08")]
    NoHandler,
    /// A field of the other version of IP: `src_ip6` or `dst_ip6` in a handler for IPv4, `src_ip` or
    /// `dst_ip` in one for IPv6.
    #[error("T09")]
    OtherFamily,
}

/// Why a tree gives no checked function.
#[derive(Clone, Copy, Debug, PartialEq, Eq, Error)]
pub enum CheckFault {
    /// The first fault in text order. Lines and columns count from 1, a column counts bytes.
    #[error("{kind} at {line}:{column}")]
    Typing {
        kind: TypingKind,
        line: u32,
        column: u32,
    },
    /// Memory ran out.
    #[error("out of memory")]
    Memory,
}

/// A type fault and where it stands.
#[derive(Clone, Copy, Debug, PartialEq, Eq)]
pub struct Fault {
    pub kind: TypingKind,
    pub place: Place,
}

/// Refuses what is wrong.
pub fn refuse_if(wrong: bool, kind: TypingKind, place: Place) -> Result<(), Fault>
    ensures { first (fault_if wrong kind place) ≡ fault_in result }
{
    if wrong {
        return Err(Fault { kind, place });
    }
    Ok(())
}

/// Why a part of a tree gives nothing.
#[derive(Drop)]
pub enum TypingFault {
    /// A rule or a limit is broken.
    Broken(Fault),
    /// Memory ran out.
    Memory,
}

impl From<Fault> for TypingFault {
    ghost from_gives = { λ fault e. e ≡ Broken fault };

    fn from(fault: Fault) -> TypingFault {
        TypingFault::Broken(fault)
    }
}

impl From<AllocError> for TypingFault {
    ghost from_gives = { λ _ e. e ≡ Memory };

    fn from(_e: AllocError) -> TypingFault {
        TypingFault::Memory
    }
}

impl<T: Drop> From<AllocFailed<T>> for TypingFault {
    ghost from_gives = { λ _ e. e ≡ Memory };

    fn from(_e: AllocFailed<T>) -> TypingFault {
        TypingFault::Memory
    }
}
