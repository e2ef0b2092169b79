//! Runs over made-up traffic: as runs over captures are, but none is opened.
#![tactic(auto)]

mod handling;
mod result;
mod running;
mod sent;
mod traffic_spec;
mod worker_plan;

pub use result::TrafficResult;
pub use running::run;
pub use traffic_spec::TrafficSpec;
pub use worker_plan::WorkerPlan;
