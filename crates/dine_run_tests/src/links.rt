// The kinds of links, so that what tests share is proved once and not once for each lane.

#[derive(Clone, Copy)]
pub enum Links {
    Channels,
    Rings,
}

pub const BOTH: [Links; 2] = [Links::Channels, Links::Rings];
