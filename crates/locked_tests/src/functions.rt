//! Texts of functions.

/// A learning bridge of two ports, which forgets an address after ten nanoseconds.
pub const BRIDGE: &str = "nf bridge {\n\
  ports 2;\n\
  chain macs 4 lifetime 10 { map by_mac(m: 48); free at: 8; }\n\
  on 0 {\n\
    get e = macs.by_mac(src_mac) { touch e; e.at = 0; }\n\
    else { new f = macs(m = src_mac) { f.at = 0; } }\n\
    get g = macs.by_mac(dst_mac) { forward g.at; }\n\
    flood;\n\
  }\n\
  on 1 {\n\
    get e = macs.by_mac(src_mac) { touch e; e.at = 1; }\n\
    else { new f = macs(m = src_mac) { f.at = 1; } }\n\
    get g = macs.by_mac(dst_mac) { forward g.at; }\n\
    flood;\n\
  }\n\
}\n\
";
