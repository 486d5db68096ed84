// Where the parameters begin, and the fact that each brings.
ghost use Rattle.std.specs.Prelude.{◌≡◌, ◌<◌};
ghost use Rattle.model.specs.Tables.{cell_of};
ghost use Rattle.model.specs.Transfer.{or_unknown};
ghost use Rattle.model.specs.Parameters.{transfer_slots, param_start, param_fact};
ghost use Rattle.stage_entry.specs.Start.{param_start_of};

use fact_row::{map_cell, queue_cell};
use model::FactCell;
use sheet_fields::Sheet;

// "0 no container, 1 map, 2 queue". The kinds stay the sheet's bytes: an enum would need a case for the bytes that question 5 refuses, and no
// caller would meet it.
const MAP_PARAM: u8 = 1;

const QUEUE_PARAM: u8 = 2;

// The sum of the parameter widths.
fn transfer_slots(sheet: &Sheet) -> usize
    ensures { (result ≡ transfer_slots sheet.now.bytes.now) × (result < 33554432) }
{
    let count = sheet.sizes.param_count;
    let mut sum: usize = 0;
    for i in 0..count {
        sum += sheet.param_width(i) as usize;
    }
    sum
}

// Behind receiver and closure, where these and the parameters fill the parameter slots; else behind the closure, where there is a receiver
// and closure and parameters fill them; else there is no start. Sums past 16 bits leave it out.
pub fn param_start(sheet: &Sheet) -> Option<u16>
    ensures { param_start_of result ≡ param_start sheet.now.bytes.now }
{
    if sheet.sizes.param_count == 0 {
        return None;
    }
    // no `?`: nothing here gives an Option, and `u16::try_from(..).ok()?` would narrow sums that are then added and compared as usize
    let transfer = transfer_slots(sheet);
    if 65535 < transfer {
        return None;
    }
    let implicit = sheet.sizes.recv_slots + sheet.sizes.is_closure;
    if 65535 < implicit {
        return None;
    }
    if sheet.sizes.param_slots == implicit + transfer {
        return Some(implicit as u16);
    }
    if sheet.sizes.recv_slots == 0 {
        return None;
    }
    if sheet.sizes.param_slots == sheet.sizes.is_closure + transfer {
        return Some(sheet.sizes.is_closure as u16);
    }
    None
}

// The fact that parameter i brings; Unknown where it brings none.
#[tactic(auto, unfolding(model::specs::Fact::kind, model::specs::Fact::value, model::specs::Tables::cell_of, model::specs::Parameters::param_fact, model::specs::Parameters::param_fact_by, model::specs::Transfer::or_unknown))]
pub fn param_fact(sheet: &Sheet, i: usize) -> FactCell
    requires { i < sheet.now.sizes.param_count }
    ensures { result ≡ cell_of (or_unknown (param_fact sheet.now.bytes.now i)) }
{
    match sheet.param_kind(i) {
        MAP_PARAM => map_cell(sheet.param_a(i), sheet.param_b(i)),
        QUEUE_PARAM => queue_cell(sheet.param_a(i)),
        _ => FactCell::UNKNOWN,
    }
}
