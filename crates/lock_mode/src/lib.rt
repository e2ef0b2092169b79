//! Seats that share the tables of one function.
#![tactic(auto)]

mod gate;
mod history_counter;
mod history_end;
mod look_result;
mod merge;
mod opening;
mod publisher;
mod rule;
mod seat;
mod seat_reader;
mod shared;
mod table_copy;

pub use gate::{Gate, PackGate};
pub use history_counter::{HistoryCounter, Naming, NewCounter, SeenHistory};
pub use look_result::LookResult;
pub use opening::{MakeFault, Opened, TablePair};
pub use rule::{TableEntry, TableReader, TableWriter};
pub use seat::Seat;
pub use shared::{CloseRefused, Closed, Published, Shared};
pub use table_copy::TableCopy;
