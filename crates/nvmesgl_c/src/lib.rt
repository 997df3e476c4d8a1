//! What C calls: both sides over one pool, the controller alone, and the host alone. `c/nvmesgl.h`, `c/nvmectl.h` and `c/nvmehost.h` declare what is exported here.
//!
//! Each [`machine::Handle`] is a [`world_bench::Bench`], each [`controller::Handle`] a [`controller_core::Controller`], each [`host::Handle`] a [`host::Tagged`] (a
//! [`host_bench::HostBench`] with the tags of its commands) that C keeps between its calls, or none. A call that is a step is that step of what is kept, and its contract
//! says so in one relation: what is in the handle before and after, the code, and the [`words::Answer`] that is written. A call that is not done
//! changes nothing.
//!
//! [`words`] has what the three share: codes, answers and requests as C writes them, and memory that C lends. A [`crate::held::Held`] is a box by its
//! pointer, or none.
#![tactic(auto)]

pub mod controller;
pub mod held;
pub mod host;
pub mod machine;
pub mod words;
