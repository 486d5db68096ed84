// What a loader asks beside the call: how much memory it needs, and which layouts are equal.
#![tactic(auto)]

mod lowest;
mod room;

pub use lowest::lowest_layout;
pub use room::room_of;
