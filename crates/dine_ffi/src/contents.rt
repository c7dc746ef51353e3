//! What a handle holds.
use crate::own_builder::OwnBuilder;
use crate::own_plan::OwnPlan;
use crate::own_site::OwnSite;
use crate::own_world::OwnWorld;

/// A plan, a world, a site or a builder.
#[derive(Drop)]
pub enum Object {
    Plan(OwnPlan),
    World(OwnWorld),
    Site(OwnSite),
    Builder(OwnBuilder),
}

/// What a handle holds.
#[derive(Drop)]
pub struct Contents {
    pub(crate) object: Object,
}
