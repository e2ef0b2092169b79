//! Texts of functions.
use nf_base::func::Func;
use nf_syntax::parse;
use nf_types::check;
use std::alloc::Global;

/// The function that a text is: None where it is none, or memory runs out.
pub fn function(alloc: Global, text: &[u8]) -> Option<Func> {
    let tree = parse(alloc, text).ok()?;
    check(alloc, &tree).ok()
}

macro_rules! firewall {
    ($flows:literal) => {
        concat!(
            "nf fw {\n  ports 2;\n  chain flows ",
            $flows,
            " lifetime 60000000000 { map by_flow(a: 32, b: 32, c: 16, d: 16); }\n\
  on 0 {\n\
    get e = flows.by_flow(src_ip, dst_ip, src_port, dst_port) { touch e; }\n\
    else {\n\
      new f = flows(a = src_ip, b = dst_ip, c = src_port, d = dst_port) { }\n\
      full { drop; }\n\
    }\n\
    forward 1;\n\
  }\n\
  on 1 {\n\
    get e = flows.by_flow(dst_ip, src_ip, dst_port, src_port) { touch e; forward 0; }\n\
    drop;\n\
  }\n\
}\n\
"
        )
    };
}

/// Port 0 is inside, port 1 outside, and one flow is remembered: of two queues the second has no index.
pub const FIREWALL: &str = firewall!(1);

/// The same, and eight flows are remembered.
pub const FIREWALL_OF_8: &str = firewall!(8);

/// The same, and 100 flows are remembered.
pub const FIREWALL_OF_100: &str = firewall!(100);

/// What comes in at port 1 is counted for each of at most five hosts inside: of two queues the first owns the indices
/// 0, 2 and 4, the second 1 and 3.
pub const POLICER: &str = "nf policer {\n\
  ports 2;\n\
  chain hosts 5 lifetime 10 { map by_dst(d: 32); free used: 64; }\n\
  on 0 { forward 1; }\n\
  on 1 {\n\
    get e = hosts.by_dst(dst_ip) {\n\
      e.used = e.used + length;\n\
      if e.used > 1000 { drop; }\n\
      forward 0;\n\
    } else {\n\
      new f = hosts(d = dst_ip) { f.used = length; forward 0; }\n\
    }\n\
    drop;\n\
  }\n\
}\n\
";

/// A learning bridge of two ports, which forgets an address after ten nanoseconds: no hash is known by which its packets
/// meet.
pub const BRIDGE: &str = "nf bridge {\n\
  ports 2;\n\
  chain macs 4 lifetime 10 { map by_mac(m: 48); free at: 8; }\n\
  on 0 {\n\
    get e = macs.by_mac(src_mac) { touch e; e.at = 0; }\n\
    else { new f = macs(m = src_mac) { f.at = 0; } }\n\
    get g = macs.by_mac(dst_mac) { forward g.at; }\n\
    flood;\n\
  }\n\
  on 1 {\n\
    get e = macs.by_mac(src_mac) { touch e; e.at = 1; }\n\
    else { new f = macs(m = src_mac) { f.at = 1; } }\n\
    get g = macs.by_mac(dst_mac) { forward g.at; }\n\
    flood;\n\
  }\n\
}\n\
";

/// Each packet is sent back.
pub const MIRROR: &str = "nf mirror { ports 1; on 0 { forward 0; } }";

/// What comes in at port 0 goes to all ports, at port 1 to port 2, at port 2 to none, at port 3 to a port that isn't
/// there.
pub const SPREAD: &str =
    "nf spread { ports 4; on 0 { flood; } on 1 { forward 2; } on 2 { drop; } on 3 { forward 4; } }";

/// A source address is written.
pub const EDIT: &str = "nf edit { ports 2; on 0 { set src_ip = 50.133.0.1; forward 1; } on 1 { } }";
