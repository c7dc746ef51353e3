//! Links, which carry letters in order from one site to one other; bells, at which a site waits until a neighbour
//! rings; and the start barrier of threads. The sites may run in any threads.
#![tactic(auto)]

mod backoff;
mod bell;
mod bell_rule;
mod channel;
mod closing;
mod counted_parker;
mod deed;
mod doorbell;
mod empty_checks;
mod faults;
mod gate;
mod lane;
mod link_end;
mod ring;
mod rule;
mod sleeper;
mod stamped;
pub mod testing;
mod thread_log;
mod wants;

pub use bell::{Bell, Ringer};
pub use channel::{ChannelClosedTx, ChannelLane, ChannelRx, ChannelTx};
pub use deed::Deed;
pub use doorbell::Doorbell;
pub use empty_checks::EmptyChecks;
pub use faults::{LinkFault, Lost};
pub use gate::{Gate, Signal};
pub use lane::{Lane, TxEnd};
pub use link_end::LinkEnd;
pub use ring::{RingClosedTx, RingLane, RingRx, RingTx};
pub use testing::{FaultLane, FaultRx, FaultTx, fault_rx, fault_tx};
pub use thread_log::ThreadLog;
pub use wants::Wants;
