//! One number that many packets count in.

use nf_base::packet::Packet;

/// FNV-1a of 64 bits over each packet's port, number, time and frame, numbers highest byte first.
#[derive(Clone, Copy)]
pub struct Digest {
    state: u64,
}

impl Digest {
    pub fn new() -> Digest {
        Digest {
            state: 0xcbf2_9ce4_8422_2325,
        }
    }

    pub fn value(self) -> u64 {
        self.state
    }

    fn put(&mut self, bytes: &[u8]) {
        for byte in bytes {
            self.state = (self.state ^ u64::from(*byte)).wrapping_mul(0x100_0000_01b3);
        }
    }

    pub fn add(&mut self, packet: &Packet, frame: &[u8]) {
        self.put(&packet.id.port.to_be_bytes());
        self.put(&packet.id.seq.to_be_bytes());
        self.put(&packet.time.to_be_bytes());
        self.put(frame);
    }
}
