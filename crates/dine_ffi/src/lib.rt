//! The proved rules for programs that are not Rattle: a plan, a world, a site or a builder, behind a handle of C.
#![tactic(auto)]

mod acts;
pub mod builder_calls;
pub mod contents;
mod copying;
pub mod event;
pub mod handle;
pub mod laws;
mod on_held;
mod own_builder;
mod own_plan;
mod own_site;
mod own_world;
mod periods;
pub mod plan_calls;
mod shelf;
pub mod site_calls;
pub mod slot;
mod status;
pub mod world_calls;
