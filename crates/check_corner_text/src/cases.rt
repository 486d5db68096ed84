// What a case is made of.
ghost use Rattle.std.specs.Prelude.{◌≡◌};
ghost use Rattle.check_corner_text.specs.Heads.{asked_of, head_of, question_of};

use crate::{Asked, Head, Question, UnknownAsked};
use model::FactCell;
use sheet::Number;

impl TryFrom<u8> for Asked {
    type Error = UnknownAsked;

    ghost try_from_gives = { λ number r. r ≡ asked_of number };

    #[tactic(auto, unfolding(crate::specs::Heads::asked_of, model::specs::Opcode::select))]
    fn try_from(number: u8) -> Result<Asked, UnknownAsked> {
        match number {
            1 => Ok(Asked::Successors),
            2 => Ok(Asked::Writes),
            3 => Ok(Asked::IndexWrites),
            _ => Err(UnknownAsked { number }),
        }
    }
}

impl From<[u8; 8]> for Head {
    ghost from_gives = { λ b head. head ≡ head_of b };

    #[tactic(auto, unfolding(crate::specs::Heads::head_of))]
    fn from(b: [u8; 8]) -> Head {
        Head {
            name: u8::read(&b, 0) as usize,
            questions: u16::read(&b, 2),
            sheet: u32::read(&b, 4) as usize,
        }
    }
}

impl From<[u8; 16]> for Question {
    ghost from_gives = { λ b question. question ≡ question_of b };

    #[tactic(auto, unfolding(crate::specs::Heads::question_of))]
    fn from(b: [u8; 16]) -> Question {
        Question {
            asks: Asked::try_from(u8::read(&b, 0)),
            pc: u16::read(&b, 2) as usize,
            slot: u16::read(&b, 4),
            before: FactCell {
                kind: u8::read(&b, 1),
                value: u64::read(&b, 8),
            },
        }
    }
}
