//! The orders that packets stand in.
ghost use Rattle.nf_laws.specs.Orders.{PacketsComeInOrder, NoneComesLate, EachPacketIsOrdered, NoPacketIsLost, PortsRise};

/// A packet comes before another by its time, then its port, then its number there.
pub fn packets_come_in_order()
    ensures { PacketsComeInOrder }
{}

/// In capture order each packet stands, and none before one that comes before it, however far.
pub fn capture_order_is_an_order()
    ensures late { NoneComesLate }
    ensures each { EachPacketIsOrdered }
{}

/// Where each port keeps its order no packet is lost, and at each port they stand in capture order.
pub fn ports_keep_capture_order()
    ensures lost { NoPacketIsLost }
    ensures rise { PortsRise }
{}
