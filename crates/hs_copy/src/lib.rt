//! A root with all that it reaches, copied from one store into another.
#![tactic(auto)]

mod calls;
mod copy;
mod deleting;
mod fault;
mod laws;
mod list;
mod order;
mod pushing;
mod session;
mod sizes;
mod write;

pub use copy::copy_root;
pub use fault::CopyFault;
pub use laws::{a_copy_is_copied, a_root_is_counted};
