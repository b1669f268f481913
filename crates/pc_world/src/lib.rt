//! The world of a kernel and its agents, which takes events one after another.
//!
//! What a world is and what each event does is defined over sets and lists in `specs/PlainWorld.antt` and
//! `specs/Steps.antt`; what an event leaves for which there was no memory, in `specs/RanOut.antt`.
//!
//! A world that is stepped through a steal:
//!
//! ```
//! fn stolen(alloc: Global) -> Result<Option<Reply>, Fail> {
//!     let limits = Limits {
//!         cpus: 2,
//!         threads: 8,
//!         numbers: 100,
//!         room: 16,
//!         posts: 1_000,
//!     };
//!     let mut world = World::new(alloc, limits)?;
//!     let created = EnvCall::Create {
//!         queue: Cpu(0),
//!         mask: 3,
//!         ready: true,
//!     };
//!     let (busy, idle) = (Cpu(0), Cpu(1));
//!     let events = [
//!         Event::Env(created),
//!         // The agent of CPU 0 looks at its queue, sends what it sees, and removes what it has sent.
//!         Event::Publish {
//!             cpu: busy,
//!             fails: false,
//!         },
//!         Event::Consume { cpu: busy },
//!         // The agent of CPU 1 learns of the thread by the first delta, and takes it over.
//!         Event::Deliver {
//!             cpu: idle,
//!             delta: 0,
//!         },
//!         Event::Steal { cpu: idle },
//!     ];
//!     let mut last = None;
//!     for event in events {
//!         last = Some(world.step(event)?);
//!     }
//!     Ok(last)
//! }
//! ```
#![tactic(auto)]

mod agents;
pub mod laws;
mod mend;
mod parts;
mod posts;
mod world;

pub use pc_calls::{Event, Reply};
pub use world::World;
