//! What a handler's text may name.

ghost use Rattle.std.specs.Prelude.{◌≡◌, ◌||◌, map};
ghost use Rattle.std.specs.Option.{option_map};
ghost use Rattle.nf_types.specs.Names.{is_among};
ghost use Rattle.nf_types.specs.Expressions.{array_named};
ghost use Rattle.nf_types.specs.Statements.{chain_named};

use crate::name::{first_named, is_among};
use nf_base::decl::{ArrayDecl, ChainDecl, ObjectId};
use nf_base::limited::Limited;
use nf_tree::Name;

/// The chains and arrays of a function, each in text order, and the order of both together.
#[derive(Drop)]
pub struct Objects {
    pub chains: Limited<ChainDecl, 8>,
    pub arrays: Limited<ArrayDecl, 8>,
    pub order: Limited<ObjectId, 16>,
}

/// Whether a chain or an array has a name.
pub fn is_object(objects: &Objects, name: &[u8]) -> bool
    ensures { result ≡ (is_among name.now (map (λ d. d.name) objects.now.chains)
        || is_among name.now (map (λ d. d.name) objects.now.arrays)) }
{
    is_among(name, objects.chains.as_slice()) || is_among(name, objects.arrays.as_slice())
}

/// The chain with a name, and its number.
pub fn chain_named<'a>(objects: &'a Objects, name: &Name) -> Option<(u32, &'a ChainDecl)>
    ensures { option_map (λ found. (found.0, found.1.now)) result
        ≡ chain_named objects.now.chains name.now.bytes }
{
    first_named(name.bytes.as_slice(), objects.chains.as_slice())
}

/// The array with a name, and its number.
pub fn array_named<'a>(objects: &'a Objects, name: &Name) -> Option<(u32, &'a ArrayDecl)>
    ensures { option_map (λ found. (found.0, found.1.now)) result
        ≡ array_named objects.now.arrays name.now.bytes }
{
    first_named(name.bytes.as_slice(), objects.arrays.as_slice())
}
