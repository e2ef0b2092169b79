//! The name of a chain or an array, as a status tells it, and what a status tells by it.
ghost use Rattle.std.specs.Prelude.{◌≡◌, ◌≤◌, ◌++◌, ℕ, List, length};
ghost use Rattle.nf_base.specs.Functions.{function_of};
ghost use Rattle.nf_base.specs.Names.{object_name};
ghost use Rattle.call_base.specs.Named.{name_bytes, IsToldStop, SaysCause};

use crate::status::{FullShare, NoKeys};
use key_synth::Cause;
use nf_base::decl::ObjectId;
use nf_base::func::Func;
use shard_core::Stop as ShareStop;

/// The name of a chain or an array, which takes no memory: the first so many of 32 bytes.
#[derive(Clone, Copy, Debug, PartialEq, Eq)]
pub struct ObjectName {
    bytes: [u8; 32],
    len: u32,
}

// Bytes, with zeros behind them.
fn padded(name: &[u8]) -> [u8; 32]
    requires { length name.now ≤ 32 }
    ensures { (rest : List ℕ) × (result ≡ name.now ++ rest) }
{
    let mut bytes = [0; 32];
    bytes[..name.len()].copy_from_slice(name);
    bytes
}

impl ObjectName {
    /// The name of these bytes.
    pub fn of(name: &[u8]) -> ObjectName
        requires { length name.now ≤ 32 }
        ensures { name_bytes result ≡ name.now }
    {
        ObjectName {
            bytes: padded(name),
            len: name.len() as u32,
        }
    }

    /// The name of a chain or an array of a function.
    pub fn in_func(func: &Func, object: ObjectId) -> ObjectName
        ensures { name_bytes result ≡ object_name (function_of func.now) object }
    {
        ObjectName::of(func.object_name(object))
    }

    pub fn as_slice(&self) -> &[u8]
        ensures value { result.now ≡ name_bytes self.now }
        ensures few { length result.now ≤ 32 }
    {
        let len = self.len as usize;
        if len < 32 {
            &self.bytes[..len]
        } else {
            &self.bytes
        }
    }
}

/// Why a function has no keys.
pub fn no_keys(func: &Func, cause: Cause) -> NoKeys
    ensures { SaysCause (function_of func.now) cause result }
{
    match cause {
        Cause::Object { object, rule } => NoKeys::Object {
            name: ObjectName::in_func(func, object),
            rule,
        },
        Cause::Hash => NoKeys::Hash,
    }
}

/// The share stop of a run: the chain's name, the queue and the packet.
pub fn full_share(func: &Func, stop: ShareStop) -> FullShare
    ensures { IsToldStop (function_of func.now) stop result }
{
    let ShareStop {
        chain,
        queue,
        packet,
    } = stop;
    FullShare {
        chain: ObjectName::in_func(func, ObjectId::Chain(chain)),
        queue,
        packet: packet.id,
    }
}
