//! Texts of functions.

/// Port 0 is inside, port 1 outside, and eight flows are remembered.
pub const FIREWALL: &str = "nf fw {\n\
  ports 2;\n\
  chain flows 8 lifetime 60000000000 { map by_flow(a: 32, b: 32, c: 16, d: 16); }\n\
  on 0 {\n\
    get e = flows.by_flow(src_ip, dst_ip, src_port, dst_port) { touch e; }\n\
    else {\n\
      new f = flows(a = src_ip, b = dst_ip, c = src_port, d = dst_port) { }\n\
      full { drop; }\n\
    }\n\
    forward 1;\n\
  }\n\
  on 1 {\n\
    get e = flows.by_flow(dst_ip, src_ip, dst_port, src_port) { touch e; forward 0; }\n\
    drop;\n\
  }\n\
}\n\
";

/// The same, and one flow is remembered: of two queues the second has no index.
pub const NARROW: &str = "nf fw {\n\
  ports 2;\n\
  chain flows 1 lifetime 60000000000 { map by_flow(a: 32, b: 32, c: 16, d: 16); }\n\
  on 0 {\n\
    get e = flows.by_flow(src_ip, dst_ip, src_port, dst_port) { touch e; }\n\
    else {\n\
      new f = flows(a = src_ip, b = dst_ip, c = src_port, d = dst_port) { }\n\
      full { drop; }\n\
    }\n\
    forward 1;\n\
  }\n\
  on 1 {\n\
    get e = flows.by_flow(dst_ip, src_ip, dst_port, src_port) { touch e; forward 0; }\n\
    drop;\n\
  }\n\
}\n\
";
