//! A handled frame as what a handler reads.
ghost use Rattle.std.specs.Prelude.{◌≡◌, Some};
ghost use Rattle.frame_ip.specs.Frame.{fields_at, fields_in};

use frame_ip::{View, family_of, field_of};
use nf_base::packet::{Family, Field, PacketId};
use nf_engine::Reads;

/// A handled frame, of which a handler reads the fields that it needs, and copies none of the others.
#[derive(Drop)]
pub struct FrameFields<'a> {
    /// Which record of which capture it is.
    pub id: PacketId,
    /// When it came, in nanoseconds.
    pub time: u64,
    pub view: View<'a>,
}

impl<'a> FrameFields<'a> {
    /// A handled frame that came at a time, in nanoseconds: its fields are those of the frame.
    pub fn new(id: PacketId, time: u64, view: View<'a>) -> FrameFields<'a>
        ensures is { result ≡ record { id = id; time = time; view = view.entry } }
        ensures handled { fields_in view.entry.frame view.entry.original
            ≡ Some (fields_at view.entry.frame view.entry.original) }
    {
        let _ = family_of(&view);
        FrameFields { id, time, view }
    }
}

impl<'a> Reads for FrameFields<'a> {
    ghost seen = { λ f. record {
      id = f.id;
      time = f.time;
      fields = fields_at f.view.frame f.view.original;
    } };

    #[inline]
    fn port(&self) -> u32 {
        self.id.port
    }

    #[inline]
    fn time(&self) -> u64 {
        self.time
    }

    #[inline]
    fn family(&self) -> Family {
        family_of(&self.view)
    }

    #[inline(always)]
    fn field(&self, field: Field) -> u128 {
        field_of(&self.view, self.time, field)
    }
}
