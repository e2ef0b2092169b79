//! The fields by which the labels of an object are known.
ghost use Rattle.std.specs.Prelude.{◌≡◌, ◌≤◌, ◌∷◌, [], IfOk, map, length};
ghost use Rattle.nf_base.specs.View.{expression_of};
ghost use Rattle.nf_base.specs.Values.{bits};
ghost use Rattle.nf_base.specs.declared.width.Width.TheVariants.{W16};
ghost use Rattle.nf_sites.specs.Known.{label_count, hashed_of, plain_field};
ghost use Rattle.access_keys.specs.Together.{new_seen};
ghost use Rattle.access_keys.specs.Speaking.{named_seen, field_in, fields_known};

use crate::creation::NewFields;
use crate::field::{field_in, field_of_width};
use crate::named::{NamedField, field_said};
use crate::site::Known;
use nf_base::decl::ChainDecl;
use nf_base::expr::Expr;
use nf_base::limited::Limited;
use nf_base::packet::Family;
use nf_base::width::Width;
use std::alloc::{AllocError, Global};

/// How many labels a chain has.
pub fn label_count(decls: &[ChainDecl], chain: u32) -> u32
    ensures value { result ≡ label_count decls.now chain }
    ensures within { result ≤ 136 }
{
    match decls.get(chain as usize) {
        None => 0,
        Some(decl) => decl.labels.len(),
    }
}

/// The fields by which the first labels of a chain are known where some are given fields.
pub fn fields_known(
    alloc: Global,
    family: Family,
    all: &[NewFields],
    chain: u32,
    named: &[NamedField],
    count: u32,
) -> Result<Known, AllocError>
    requires { count ≤ 136 }
    ensures { IfOk result (λ known. known ≡ fields_known family (map new_seen all.now) chain
        (map named_seen named.now) count) }
{
    let mut known = Limited::new(alloc);
    for label in 0..count {
        let field = field_said(all, chain, named, label as usize);
        known.push(field_in(family, field))?;
    }
    Ok(known)
}

/// The field by which the index of a cell is known.
pub fn index_known(alloc: Global, family: Family, at: &Expr) -> Result<Known, AllocError>
    ensures { IfOk result (λ known. known ≡ field_in family (hashed_of (bits W16)
        (plain_field (expression_of at.now))) ∷ []) }
{
    let mut known = Limited::new(alloc);
    known.push(field_in(family, field_of_width(Width::W16, at)))?;
    Ok(known)
}
