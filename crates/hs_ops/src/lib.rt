//! One client operation at a time: what is to be done for it next.
#![tactic(auto)]

mod answering;
mod asking;
mod comparing;
mod effects;
mod entries;
mod fault;
mod going;
mod operation;
mod rows;
mod speaking;
mod step;
mod stop;
mod table;
mod telling;
mod view;

pub use fault::OpFault;
pub use operation::{Operation, Stage};
pub use step::OpStep;
pub use view::OpView;
