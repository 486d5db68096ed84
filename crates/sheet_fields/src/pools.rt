// What a sheet says of each constant, parameter and layout.
#![tactic(auto, using(sheet::proofs::FieldBounds::arrays_inside), unfolding(sheet::specs::Sizes::sizes_of, sheet::specs::Sizes::places_of, model::specs::Sheet::constant_kind, model::specs::Sheet::constant_bits, model::specs::Sheet::param_width, model::specs::Sheet::param_kind, model::specs::Sheet::param_a, model::specs::Sheet::param_b, model::specs::Sheet::layout_length))]

use crate::Sheet;
use sheet::element;

impl Sheet<'_> {
    ghost use Rattle.std.specs.Prelude.{◌≡◌, ◌+◌, ◌<◌, ◌≤◌, take, drop};
    ghost use Rattle.model.specs.Bytes.{byte};
    ghost use Rattle.model.specs.Sheet.{constant_kind, constant_bits, param_width, param_kind, param_a, param_b, layout_length, slot_kinds_at};

    // The kind of constant i.
    pub fn constant_kind(&self, i: usize) -> u8
        requires { i < self.now.sizes.constant_count }
        ensures { result ≡ constant_kind self.now.bytes.now i }
    {
        element(self.bytes, self.sizes.places.constant_kinds, i)
    }

    // The 64 bits of constant i.
    pub fn constant_bits(&self, i: usize) -> u64
        requires { i < self.now.sizes.constant_count }
        ensures { result ≡ constant_bits self.now.bytes.now i }
    {
        element(self.bytes, self.sizes.places.constant_values, i)
    }

    // The width of parameter i.
    pub fn param_width(&self, i: usize) -> u16
        requires { i < self.now.sizes.param_count }
        ensures { result ≡ param_width self.now.bytes.now i }
    {
        element(self.bytes, self.sizes.places.param_widths, i)
    }

    // The kind of parameter i.
    pub fn param_kind(&self, i: usize) -> u8
        requires { i < self.now.sizes.param_count }
        ensures { result ≡ param_kind self.now.bytes.now i }
    {
        element(self.bytes, self.sizes.places.param_kinds, i)
    }

    // The layout A of parameter i.
    pub fn param_a(&self, i: usize) -> u16
        requires { i < self.now.sizes.param_count }
        ensures { result ≡ param_a self.now.bytes.now i }
    {
        element(self.bytes, self.sizes.places.param_as, i)
    }

    // The layout B of parameter i.
    pub fn param_b(&self, i: usize) -> u16
        requires { i < self.now.sizes.param_count }
        ensures { result ≡ param_b self.now.bytes.now i }
    {
        element(self.bytes, self.sizes.places.param_bs, i)
    }

    // The length of layout i; a number from y up names no layout and has length 0.
    pub fn layout_length(&self, i: usize) -> u16
        ensures { result ≡ layout_length self.now.bytes.now i }
    {
        if i < self.sizes.layout_count {
            element(self.bytes, self.sizes.places.layout_lengths, i)
        } else {
            0
        }
    }

    // Slot kind i of the q.
    pub fn slot_kind(&self, i: usize) -> u8
        requires { i < self.now.sizes.slot_kind_count }
        ensures { result ≡ byte self.now.bytes.now (slot_kinds_at self.now.bytes.now + i) }
    {
        element(self.bytes, self.sizes.places.slot_kinds, i)
    }

    // The count slot kinds from start on among the q.
    pub fn slot_kinds(&self, start: usize, count: usize) -> &[u8]
        requires { start + count ≤ self.now.sizes.slot_kind_count }
        ensures { result.now ≡ take count (drop (slot_kinds_at self.now.bytes.now + start) self.now.bytes.now) }
    {
        let at = self.sizes.places.slot_kinds + start;
        &self.bytes[at..at + count]
    }
}
