//! The ports of the site that made them: each with its end, the variable that the next send binds.
//!
//! It promises: `Ports` is the list of the ports made, in order, each with its end. A send gives the end that stood and
//! leaves the new one in its place, and the ends of all other ports stay. So the ends of one port form one chain, whatever is sent
//! to others (`ends_are_chains`).
//!
//! It stands on `tree_node` and on `indexmap`. The machine (`machine_state`) has its ports so, and each site (`site_core`) those that it made.
//! Nothing is left to tests but that the calls go well with ample memory.
//!
//! Source: Van Roy and Haridi, *Concepts, Techniques, and Models of Computer Programming* (CTM), section 5.1.
#![tactic(auto)]

mod laws;
mod ports;
mod threads;

pub use laws::ends_are_chains;
pub use ports::Ports;
