// The sheet: little-endian numbers in its bytes, its sizes, and where its arrays begin.
#![tactic(auto)]

mod bytes;
mod head;

pub use bytes::{Number, element, u16_of, u32_of, u64_of};
pub use head::size_at;

// Where each array of a sheet begins; the code begins at 40.
#[derive(Clone, Copy)]
pub struct Places {
    pub note_kinds: usize,
    pub note_as: usize,
    pub note_bs: usize,
    pub write_counts: usize,
    pub range_starts: usize,
    pub range_lengths: usize,
    pub constant_kinds: usize,
    pub constant_values: usize,
    pub param_widths: usize,
    pub param_kinds: usize,
    pub param_as: usize,
    pub param_bs: usize,
    pub layout_lengths: usize,
    pub slot_kinds: usize,
}

// The ten sizes of a sheet, and where its arrays begin.
#[derive(Clone, Copy)]
pub struct Sizes {
    pub code_count: usize,
    pub range_count: usize,
    pub constant_count: usize,
    pub param_count: usize,
    pub layout_count: usize,
    pub slot_kind_count: usize,
    pub local_slots: usize,
    pub param_slots: usize,
    pub recv_slots: usize,
    pub is_closure: usize,
    pub places: Places,
}
