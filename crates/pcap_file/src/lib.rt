//! Captures: the libpcap file format 2.4, read from a file and written into bytes.
#![tactic(auto)]

mod fault;
mod form;
mod front;
mod head;
pub mod laws;
mod number;
mod reader;
mod record;
mod writing;

pub use fault::CapFault;
pub use form::{Endian, Form, TimeUnit};
pub use front::Front;
pub use head::Head;
pub use reader::{Next, Reader, State};
pub use writing::{push_header, push_record, put_record};
