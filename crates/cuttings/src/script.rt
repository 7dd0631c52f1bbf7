// Scripts: what is done after begin. Steps stand a comma apart. A step is the bytes of a piece, or `f` for the finish, and then, after a colon,
// the number that it is answered with, where that is not 0.
use lists::text;

const STEPS: usize = 16;

#[derive(Clone, Copy)]
pub enum Action {
    Piece(usize),
    Finish,
}

#[derive(Clone, Copy)]
pub struct Step {
    pub action: Action,
    pub number: u8,
}

// The steps in their order, and the bytes of the pieces that are to be taken.
#[derive(Clone, Copy)]
pub struct Script {
    pub steps: [Option<Step>; STEPS],
    pub taken: usize,
}

impl Action {
    fn read(word: &[u8]) -> Option<Action> {
        match word {
            b"f" => Some(Action::Finish),
            _ => text::decimal(word).map(Action::Piece),
        }
    }
}

// The number that a word spells, or 0 where there is none.
fn number(word: Option<&[u8]>) -> Option<u8> {
    match word {
        Some(word) => u8::try_from(text::decimal(word)?).ok(),
        None => Some(0),
    }
}

impl Step {
    fn read(word: &[u8]) -> Option<Step> {
        let mut words = word.splitn(2, |byte| *byte == b':');
        let action = Action::read(words.next()?)?;
        let number = number(words.next())?;
        Some(Step { action, number })
    }

    // The bytes that are to be taken: of a piece that is to be refused, none.
    fn taken(self) -> usize {
        match self.action {
            Action::Piece(size) if self.number == 0 => size,
            _ => 0,
        }
    }
}

impl Script {
    // The script that a field spells.
    pub fn read(field: &[u8]) -> Option<Script> {
        let mut steps = [None; STEPS];
        let mut taken = 0usize;
        for (k, word) in field.split(|byte| *byte == b',').enumerate() {
            let step = Step::read(word)?;
            *steps.get_mut(k)? = Some(step);
            taken = taken.saturating_add(step.taken());
        }
        Some(Script { steps, taken })
    }
}
