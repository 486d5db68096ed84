// Question 5: is every kind byte named and every used layout number below y? Each loop is one pass without an early end, which compiles to
// a loop over several entries at a time.
ghost use Rattle.std.specs.Prelude.{◌≡◌, ◌<◌, ℕ, Bool};
ghost use Rattle.model.specs.Count.{every};
ghost use Rattle.model.specs.Sheet.{layouts_used, kinds_named};
ghost use Rattle.model.specs.Sheet.{note_named, constant_named, param_named, slot_kind_named};

use sheet_fields::Sheet;

// "kind 1 uses A (key) and B (value); the other nonzero kinds use A only. Unused ones are ignored."
#[tactic(auto, unfolding(model::specs::Sheet::layouts_used))]
fn layouts_used(count: usize, kind: u8, a: u16, b: u16) -> bool
    ensures { result ≡ layouts_used count kind a b }
{
    ((kind == 0) | ((a as usize) < count)) & ((kind != 1) | ((b as usize) < count))
}

// Four functions, since each reads other fields and promises the definition of its own.
// Question 5 of the note at pc.
fn note_named(sheet: &Sheet, pc: usize) -> bool
    requires { pc < sheet.now.sizes.code_count }
    ensures { result ≡ note_named sheet.now.bytes.now pc }
{
    let kind = sheet.note_kind(pc);
    let a = sheet.note_a(pc);
    let b = sheet.note_b(pc);
    (kind <= 3) & layouts_used(sheet.sizes.layout_count, kind, a, b)
}

// Question 5 of constant i.
#[tactic(auto, unfolding(model::specs::Sheet::constant_named))]
fn constant_named(sheet: &Sheet, i: usize) -> bool
    requires { i < sheet.now.sizes.constant_count }
    ensures { result ≡ constant_named sheet.now.bytes.now i }
{
    sheet.constant_kind(i) <= 1
}

// Question 5 of parameter i.
fn param_named(sheet: &Sheet, i: usize) -> bool
    requires { i < sheet.now.sizes.param_count }
    ensures { result ≡ param_named sheet.now.bytes.now i }
{
    let kind = sheet.param_kind(i);
    let a = sheet.param_a(i);
    let b = sheet.param_b(i);
    (kind <= 2) & layouts_used(sheet.sizes.layout_count, kind, a, b)
}

// Question 5 of slot kind i.
#[tactic(auto, unfolding(model::specs::Sheet::slot_kind_named))]
fn slot_kind_named(sheet: &Sheet, i: usize) -> bool
    requires { i < sheet.now.sizes.slot_kind_count }
    ensures { result ≡ slot_kind_named sheet.now.bytes.now i }
{
    sheet.slot_kind(i) <= 5
}

// Whether each number below count is named: one pass without an early end.
fn all_named<F: Fn(usize) -> bool>(count: usize, named: F) -> bool
    requires { (i : ℕ) → i < count → F.pre named i }
    ensures { (f : ℕ → Bool) → ((i : ℕ) (b : Bool) → i < count → F.post named i b → b ≡ f i) → result ≡ every f count }
{
    let mut all = true;
    for i in 0..count {
        all = all & named(i);
    }
    all
}

// "Is every kind byte named and every used layout number below y?"
pub fn kinds_named(sheet: &Sheet) -> bool
    ensures { result ≡ kinds_named sheet.now.bytes.now }
{
    let notes = all_named(sheet.sizes.code_count, |pc| note_named(sheet, pc));
    let constants = all_named(sheet.sizes.constant_count, |i| constant_named(sheet, i));
    let params = all_named(sheet.sizes.param_count, |i| param_named(sheet, i));
    let slot_kinds = all_named(sheet.sizes.slot_kind_count, |i| slot_kind_named(sheet, i));
    notes & constants & params & slot_kinds
}
