// What a handler reads of its packet.
ghost use Rattle.std.specs.Prelude.{◌≡◌};
ghost use Rattle.nf_base.specs.Families.{family_of};
ghost use Rattle.nf_base.specs.Values.{field_of};
ghost use Rattle.nf_engine.specs.Input.{Seen};

use nf_base::packet::{Family, Field, Fields, PacketId};
use nf_base::value::{family_of, field_of};

/// A packet that is not skipped, whose fields are read where they lie.
pub trait Reads {
    // The packet that it is.
    ghost seen: { Self → Seen };

    /// The port that it came in at.
    fn port(&self) -> u32
        ensures { result ≡ (seen self.now).id.port };

    /// When it came, in nanoseconds.
    fn time(&self) -> u64
        ensures { result ≡ (seen self.now).time };

    /// The version of IP that it has.
    fn family(&self) -> Family
        ensures { result ≡ family_of (seen self.now).fields };

    /// The value of a field, as many bits as the field has.
    fn field(&self, field: Field) -> u128
        ensures { result ≡ field_of (seen self.now).time (seen self.now).fields field };
}

/// A packet whose fields were read before.
#[derive(Drop)]
pub struct PacketFields<'a> {
    pub id: PacketId,
    /// In nanoseconds.
    pub time: u64,
    pub fields: &'a Fields,
}

impl<'a> Reads for PacketFields<'a> {
    ghost seen = { λ p. record { id = p.id; time = p.time; fields = p.fields.now } };

    fn port(&self) -> u32 {
        self.id.port
    }

    fn time(&self) -> u64 {
        self.time
    }

    fn family(&self) -> Family {
        family_of(self.fields)
    }

    fn field(&self, field: Field) -> u128 {
        field_of(self.time, self.fields, field)
    }
}
