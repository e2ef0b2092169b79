//! The ends of a datagram.

ghost use Rattle.std.specs.Prelude.{◌≡◌, ◌<◌, ◌^◌};
ghost use Rattle.gen_traffic.specs.Ends.{client, server};

/// An IPv4 address, its first byte highest, and a UDP port.
#[derive(Clone, Copy, Debug, PartialEq, Eq)]
pub struct End {
    pub address: u32,
    pub port: u16,
}

/// The client of a flow: an address from 10.0.0.0 on, and a port from 1024 to 2023.
pub fn client(flow: u16) -> End
    ensures { result ≡ client flow }
{
    End {
        address: 0x0a00_0000 + u32::from(flow),
        port: 1024 + flow % 1000,
    }
}

/// The server of all flows: 192.168.0.0, port 80.
pub fn server() -> End
    ensures { result ≡ server }
{
    End {
        address: 0xc0a8_0000,
        port: 80,
    }
}
