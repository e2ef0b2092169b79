// What does not change while a handler runs.
ghost use Rattle.std.specs.Prelude.{◌≡◌};
ghost use Rattle.nf_base.specs.Values.{field_of};

use crate::reads::Reads;
use nf_base::decl::ChainDecl;
use nf_base::packet::Field;
use nf_base::picks::Picks;
use nf_base::share::Share;
use std::marker::Model;

/// What does not change while a handler runs.
#[derive(Drop)]
pub struct Input<'a, R: Reads> {
    pub decls: &'a [ChainDecl],
    /// How many ports the function has.
    pub ports: u32,
    pub packet: &'a R,
    /// Whose indices new entries get.
    pub share: Share,
    /// Whether a `new` that finds no index vacant stops also where the share is the whole.
    pub strict: bool,
    /// The indices of the entries to be made, in order. Where none are given, an entry gets any
    /// vacant index of the share.
    pub choices: Option<&'a Picks>,
}

impl<'a, R: Reads> Model for Input<'a, R> {
    ghost use Rattle.nf_engine.specs.Input as told;

    ghost Value = { told.Input };

    ghost view = { λ a. record {
      decls = a.decls.now;
      ports = a.ports;
      time = (R.seen a.packet.now).time;
      fields = (R.seen a.packet.now).fields;
      share = a.share;
      strict = a.strict;
      choices = a.choices;
    } };
}

impl<'a, R: Reads> Input<'a, R> {
    #[inline]
    pub fn ports(&self) -> u32
        ensures { result ≡ self.now.ports }
    {
        self.ports
    }

    /// In nanoseconds.
    #[inline]
    pub fn time(&self) -> u64
        ensures { result ≡ self.now.time }
    {
        self.packet.time()
    }

    /// The value of a field of the packet.
    #[inline]
    pub fn field(&self, field: Field) -> u128
        ensures { result ≡ field_of self.now.time self.now.fields field }
    {
        self.packet.field(field)
    }

    /// The same, read at the place of the call.
    #[inline(always)]
    pub fn field_here(&self, field: Field) -> u128
        ensures { result ≡ field_of self.now.time self.now.fields field }
    {
        self.packet.field(field)
    }

    #[inline]
    pub fn share(&self) -> Share
        ensures { result ≡ self.now.share }
    {
        self.share
    }

    #[inline]
    pub fn strict(&self) -> bool
        ensures { result ≡ self.now.strict }
    {
        self.strict
    }

    #[inline]
    pub fn choices(&self) -> Option<&'a Picks>
        ensures { result ≡ self.now.choices }
    {
        self.choices
    }
}
