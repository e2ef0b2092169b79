//! Names, and look-ups by name.

ghost use Rattle.std.specs.Prelude.{◌≡◌, ◌≤◌, length, map, IfOk};
ghost use Rattle.std.specs.Option.{option_map};
ghost use Rattle.nf_types.specs.Names.{is_among, named};
ghost use Rattle.nf_types.specs.Faults.{length_faults, first, fault_in};
ghost use Rattle.nf_types.specs.Answers.{Finds};

use crate::fault::{Fault, TypingFault, TypingKind, refuse_if};
use nf_base::decl::{ArrayDecl, ChainDecl, ColumnDecl, MapDecl, Name as Declared};
use nf_tree::{Label, Name};
use std::alloc::{AllocError, Global};

/// The longest name, in bytes.
const LONGEST: usize = 32;

/// What a text gives a name.
pub trait Named {
    ghost use Rattle.std.specs.Prelude.{List, ℕ};

    ghost name_of: { Self → List ℕ };

    fn name(&self) -> &[u8]
        ensures { result.now ≡ name_of self.now };
}

impl Named for Label {
    ghost name_of = { λ x. x.name.bytes };

    fn name(&self) -> &[u8] {
        self.name.bytes.as_slice()
    }
}

impl Named for ColumnDecl {
    ghost name_of = { λ x. x.name };

    fn name(&self) -> &[u8] {
        self.name.as_slice()
    }
}

impl Named for MapDecl {
    ghost name_of = { λ x. x.name };

    fn name(&self) -> &[u8] {
        self.name.as_slice()
    }
}

impl Named for ChainDecl {
    ghost name_of = { λ x. x.name };

    fn name(&self) -> &[u8] {
        self.name.as_slice()
    }
}

impl Named for ArrayDecl {
    ghost name_of = { λ x. x.name };

    fn name(&self) -> &[u8] {
        self.name.as_slice()
    }
}

/// A name that is declared has at most 32 bytes.
pub fn short(name: &Name) -> Result<(), Fault>
    ensures fault { first (length_faults name.now) ≡ fault_in result }
    ensures short { IfOk result (λ _. length name.now.bytes ≤ 32) }
{
    refuse_if(name.bytes.len() > LONGEST, TypingKind::Limit, name.place)
}

/// A short name, for a declaration. What else may be wrong with that is looked at before, while there
/// is nothing to be dropped.
pub fn copied(alloc: Global, name: &Name) -> Result<Declared, AllocError>
    requires { length name.now.bytes ≤ 32 }
    ensures { IfOk result (λ x. x ≡ name.now.bytes) }
{
    let bytes = name.bytes.as_slice().to_vec(alloc)?;
    Ok(Declared::from_vec(bytes))
}

/// A name that is declared.
pub fn declared(alloc: Global, name: &Name) -> Result<Declared, TypingFault>
    ensures { Finds (λ x. x) (length_faults name.now) name.now.bytes result }
{
    short(name)?;
    let name = copied(alloc, name)?;
    Ok(name)
}

pub fn is_among<T: Named>(name: &[u8], items: &[T]) -> bool
    ensures { result ≡ is_among name.now (map T.name_of items.now) }
{
    for item in items {
        if name == item.name() {
            return true;
        }
    }
    false
}

/// The first item with a name, and its number.
pub fn first_named<'a, T: Named>(name: &[u8], items: &'a [T]) -> Option<(u32, &'a T)>
    requires { length items.now ≤ 65536 }
    ensures { option_map (λ found. (found.0, found.1.now)) result
        ≡ named T.name_of name.now items.now }
{
    for (i, item) in items.iter().enumerate() {
        if name == item.name() {
            return Some((i as u32, item));
        }
    }
    None
}
