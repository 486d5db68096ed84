// What a run reads.
ghost use Rattle.std.specs.Prelude.{◌≤◌, length};
ghost use Rattle.model.specs.Sheet.{code_count};
ghost use Rattle.fixpoint_step.specs.Stepped.{TrackedSlots};

use crate::lengths::LengthFact;
use model::AnalysisKind;
use sheet_index::IndexedSheet;

// An analysis of a sheet over the slots that it tracks, with a length's fact of each instruction.
#[derive(Clone, Copy)]
pub struct TrackedAnalysis<'a> {
    pub which: AnalysisKind,
    pub indexed: &'a IndexedSheet<'a>,
    pub lengths: &'a [LengthFact],
    pub slots: &'a [u16],
    pub ghost lengths_room: { code_count indexed.now.sheet.now.bytes.now ≤ length lengths.now },
    pub ghost tracked: { TrackedSlots indexed.now.sheet.now.bytes.now slots.now },
}
