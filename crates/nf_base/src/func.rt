ghost use Rattle.std.specs.Prelude.{◌≡◌, ◌≤◌, length, map, IfOk};
ghost use Rattle.nf_base.specs.FitsOnce.{AllFit, AllFit-prop};
ghost use Rattle.nf_base.specs.Limits.{maps_in, HaveAllShortKeys};
ghost use Rattle.std.specs.List.{flat_map};
ghost use Rattle.nf_base.specs.View.{block_of};
ghost use Rattle.nf_base.specs.Handlers.{blocks_of};
ghost use Rattle.nf_base.specs.Doors.{port_blocks};

use crate::decl::{ArrayDecl, ChainDecl, Name, ObjectId};
use crate::handler::Handler;
use crate::limited::Limited;
use crate::packet::{Door, Family};
use crate::port_handlers::{PortHandlers, copied_handlers};
use std::alloc::{AllocError, Global};

/// A checked network function. Ports, chains and arrays go by number, from 0, in text order.
#[derive(Drop)]
pub struct Func {
    pub name: Name,
    pub chains: Limited<ChainDecl, 8>,
    pub arrays: Limited<ArrayDecl, 8>,
    /// The chains and arrays in text order.
    pub objects: Limited<ObjectId, 16>,
    /// One for each port.
    pub handlers: Limited<PortHandlers, 4>,
    pub ghost some_port: { 1 ≤ length handlers },
    pub ghost maps: { maps_in chains ≤ 16 },
    pub ghost keys: { HaveAllShortKeys chains },
    pub ghost fits: { AllFit chains (flat_map port_blocks (map blocks_of handlers)) } by { AllFit-prop chains (flat_map port_blocks (map blocks_of handlers)) },
}

fn copied_chains(
    alloc: Global,
    chains: &Limited<ChainDecl, 8>,
) -> Result<Limited<ChainDecl, 8>, AllocError>
    ensures { IfOk result (λ copy. copy ≡ chains.now) }
{
    let mut all = Limited::new(alloc);
    for one in chains.as_slice() {
        all.push(one.copy(alloc)?)?;
    }
    Ok(all)
}

fn copied_arrays(
    alloc: Global,
    arrays: &Limited<ArrayDecl, 8>,
) -> Result<Limited<ArrayDecl, 8>, AllocError>
    ensures { IfOk result (λ copy. copy ≡ arrays.now) }
{
    let mut all = Limited::new(alloc);
    for one in arrays.as_slice() {
        all.push(one.copy(alloc)?)?;
    }
    Ok(all)
}

impl Func {
    ghost use Rattle.std.specs.Prelude.{IfSome, IfNone, None, Some};
    ghost use Rattle.nf_base.specs.Functions.{function_of};
    ghost use Rattle.nf_base.specs.Names.{object_name};

    /// The name of a chain or an array: no bytes where there is none of that number.
    pub fn object_name(&self, object: ObjectId) -> &[u8]
        ensures name { result.now ≡ object_name (function_of self.now) object }
        ensures short { length result.now ≤ 32 }
    {
        match object {
            ObjectId::Chain(chain) => match self.chains.as_slice().get(chain as usize) {
                None => &[],
                Some(decl) => decl.name.as_slice(),
            },
            ObjectId::Array(array) => match self.arrays.as_slice().get(array as usize) {
                None => &[],
                Some(decl) => decl.name.as_slice(),
            },
        }
    }

    ghost use Rattle.nf_base.specs.Doors.{handler_at, six_ports, six_at};

    /// The handler of a port for packets of a family, if there is one.
    pub fn handler_at(&self, door: Door) -> Option<&Handler>
        ensures some { IfSome result (λ h. handler_at (function_of self.now) door ≡ Some (block_of h.now.block)) }
        ensures none { IfNone result (handler_at (function_of self.now) door ≡ None) }
    {
        if door.port >= self.handlers.len() {
            return None;
        }
        let port = self.handlers.item(door.port);
        match door.family {
            Family::Four => Some(&port.four),
            Family::Six => port.six.as_ref(),
        }
    }

    /// Whether a port has a handler for IPv6; not where there is no such port.
    pub fn has_six(&self, port: u32) -> bool
        ensures { result ≡ six_at (six_ports (function_of self.now)) port }
    {
        match self.handlers.as_slice().get(port as usize) {
            Some(handlers) => handlers.six.is_some(),
            None => false,
        }
    }

    /// The same function once more.
    pub fn copy(&self, alloc: Global) -> Result<Func, AllocError>
        ensures { IfOk result (λ copy. function_of copy ≡ function_of self.now) }
    {
        Ok(Func {
            name: self.name.copy(alloc)?,
            chains: copied_chains(alloc, &self.chains)?,
            arrays: copied_arrays(alloc, &self.arrays)?,
            objects: self.objects.copy(alloc)?,
            handlers: copied_handlers(alloc, &self.handlers)?,
        })
    }
}
