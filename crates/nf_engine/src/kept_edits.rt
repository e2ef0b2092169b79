// The edits of a handler, kept from packet to packet.
ghost use Rattle.std.specs.Prelude.{◌≡◌, false};
ghost use Rattle.nf_base.specs.Operations.{edited};
ghost use Rattle.nf_base.specs.Step.{no_edits};

use nf_base::done::Edits;
use nf_base::packet::Field;
use std::marker::Model;

/// The edits of a handler. Contracts see them as such. Where none was made since they were emptied
/// nothing is to be emptied.
#[derive(Drop)]
pub struct KeptEdits {
    edits: Edits,
    some: bool,
}

impl Model for KeptEdits {
    ghost use Rattle.std.specs.Prelude.{◌≡◌, false};
    ghost use Rattle.nf_base.specs.declared.done.Edits as done;
    ghost use Rattle.nf_base.specs.Step.{no_edits};

    ghost Value = { done.Edits };

    ghost view = { λ a. a.edits };

    ghost invariant = { λ a. a.some ≡ false → a.edits ≡ no_edits };
}

impl KeptEdits {
    pub fn new() -> KeptEdits
        ensures { result ≡ no_edits }
    {
        KeptEdits {
            edits: Edits::none(),
            some: false,
        }
    }

    /// No field is given a value any more.
    #[inline]
    pub fn clear(&mut self)
        ensures { self.new ≡ no_edits }
    {
        if self.some {
            self.edits = Edits::none();
            self.some = false;
        }
    }

    /// Gives a field a value.
    pub fn set(&mut self, field: Field, v: u128)
        ensures { self.new ≡ edited field v self.old }
    {
        self.some = true;
        set(&mut self.edits, field, v);
    }

    #[inline]
    pub fn edits(&self) -> &Edits
        ensures { result.now ≡ self.now }
    {
        &self.edits
    }

    /// Whether there may be some: where not, no field is given a value.
    #[inline]
    pub fn is_some(&self) -> bool
        ensures { result ≡ false → self.now ≡ no_edits }
    {
        self.some
    }
}

fn set(edits: &mut Edits, field: Field, v: u128)
    ensures { edits.new ≡ edited field v edits.old }
{
    match field {
        Field::SrcMac => edits.src_mac = Some((v % 0x1_0000_0000_0000) as u64),
        Field::DstMac => edits.dst_mac = Some((v % 0x1_0000_0000_0000) as u64),
        Field::SrcIp => edits.src_ip = Some((v % 0x1_0000_0000) as u64),
        Field::DstIp => edits.dst_ip = Some((v % 0x1_0000_0000) as u64),
        Field::SrcIp6 => edits.src_ip6 = Some(v),
        Field::DstIp6 => edits.dst_ip6 = Some(v),
        Field::Ttl => edits.ttl = Some((v % 0x100) as u64),
        Field::SrcPort => edits.src_port = Some((v % 0x1_0000) as u64),
        Field::DstPort => edits.dst_port = Some((v % 0x1_0000) as u64),
        Field::Time => {}
        Field::Length => {}
        Field::Proto => {}
    }
}
