//! The bytes of a handled frame.

use nf_base::packet::Family;
use std::marker::Model;

/// A handled frame in its captured bytes, which are borrowed.
#[derive(Drop)]
pub struct View<'a> {
    pub(crate) frame: &'a [u8],
    pub(crate) original: u32,
    pub(crate) family: Family,
}

impl<'a> Model for View<'a> {
    ghost use Rattle.std.specs.Prelude.{◌≡◌, Some};
    ghost use Rattle.frame_ip.specs.Frame.{Seen, family_in};

    ghost Value = { Seen };

    ghost view = { λ v. record { frame = v.frame.now; original = v.original } };

    ghost invariant = { λ v. family_in v.frame.now ≡ Some v.family };
}
