// The types that functions take and answer. What each means is said in specs/, from document 01.
#![tactic(auto)]

ghost use Rattle.std.specs.Prelude.{◌≡◌, ◌<◌, List, [], ◌∷◌, ◌++◌, ℕ};
ghost use Rattle.model.specs.Charges.{fresh};
ghost use Rattle.model.specs.Sheet.{question_number};
ghost use Rattle.model.specs.Successors.{as_record};

// What is left to spend: derived bytes and work units.
#[derive(Clone, Copy, PartialEq, Eq)]
pub struct VerifierResources {
    pub bytes: u64,
    pub work: u64,
}

// "requested, remaining": a charge that is not covered, and takes nothing.
#[derive(Clone, Copy, PartialEq, Eq)]
pub struct Shortage {
    pub requested: u64,
    pub remaining: u64,
}

// One instruction of the code.
#[derive(Clone, Copy)]
pub struct Instruction {
    pub op: u8,
    pub flags: u8,
    pub a: u16,
    pub b: u16,
    pub c: u16,
}

// The successors of one instruction: the first len of pcs, and zeros after them. Document 01 names the record, an array of two and
// their number, and there is no heap for a Vec.
#[derive(Clone, Copy)]
pub struct InstructionSuccessors {
    pub pcs: [usize; 2],
    pub len: u8,
}

// Which of the three analyses.
#[derive(Clone, Copy)]
pub enum AnalysisKind {
    Constant,
    IndexCheck,
    Container,
}

// A fact as it lies in a table: a kind byte and a 64-bit value. The kind is no enum: C lends the kinds as bytes, and any may come.
#[derive(Clone, Copy, PartialEq, Eq)]
pub struct FactCell {
    pub kind: u8,
    pub value: u64,
}

// The questions about a sheet and what is lent for it, in their order, with their numbers.
#[derive(Clone, Copy, PartialEq, Eq)]
pub enum Question {
    Head = 1,
    Limits = 2,
    Length = 3,
    Sums = 4,
    Kinds = 5,
    ClosureRoom = 6,
}

// How many slots an analysis tracks, and how many entries it took from its work list.
#[derive(Clone, Copy)]
pub struct Counts {
    pub tracked: u64,
    pub pops: u64,
}

// What a call answers: 0 with the counts of the analyses; 1 to 6; 7; 8; each with the budget left. It is no Result: all four tell what is left,
// and who is answered passes no refusal on, but prints it or tells its number.
#[derive(Clone, Copy)]
pub enum Answer {
    Analyzed {
        constant: Counts,
        index: Counts,
        container: Counts,
        left: VerifierResources,
    },
    Invalid {
        question: Question,
        left: VerifierResources,
    },
    OverBudget {
        stage: u8,
        requested: u64,
        remaining: u64,
        left: VerifierResources,
    },
    NoRoom {
        left: VerifierResources,
    },
}

// The tables that a lookup is lent are none that a call leaves: question 9.
#[derive(Clone, Copy, PartialEq, Eq)]
pub struct Damaged;

// What a lookup answers: a cell, none, or 9.
pub type SlotFact = Result<Option<FactCell>, Damaged>;

// What is_reachable answers: yes, no, or 9.
pub type Reachability = Result<bool, Damaged>;

impl VerifierResources {
    // A fresh budget.
    pub fn new() -> Self
        ensures { result ≡ fresh }
    {
        Self {
            bytes: 268435456,
            work: 268435456,
        }
    }
}

impl InstructionSuccessors {
    // no successor
    pub const NONE: InstructionSuccessors = InstructionSuccessors {
        pcs: [0, 0],
        len: 0,
    };

    // One more, behind those before it. An `if` with constant places and no `pcs[len]`: an array indexed by a number would lie in memory.
    pub fn with(self, pc: usize) -> Self
        requires { self.len < 2 }
        ensures { (targets : List ℕ) → self ≡ as_record targets → result ≡ as_record (targets ++ (pc ∷ [])) }
    {
        if self.len == 0 {
            Self {
                pcs: [pc, 0],
                len: 1,
            }
        } else {
            Self {
                pcs: [self.pcs[0], pc],
                len: 2,
            }
        }
    }
}

impl Counts {
    // An analysis that tracks no slot and did not run, or none that is told of.
    pub const NONE: Counts = Counts {
        tracked: 0,
        pops: 0,
    };
}

impl FactCell {
    // "Kind 0 Unknown .., value 0"
    pub const UNKNOWN: FactCell = FactCell { kind: 0, value: 0 };

    // "1 Conflict, value 0"
    pub const CONFLICT: FactCell = FactCell { kind: 1, value: 0 };
}

impl Question {
    // "1" to "6", as a refusal names it. A method: `u8::from(question)` would be no plainer.
    pub fn number(self) -> u8
        ensures { result ≡ question_number self }
    {
        self as u8
    }
}
