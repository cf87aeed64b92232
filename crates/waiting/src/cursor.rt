// Where a run stands, by value: the state, what is left of the budget, and which record goes where in the list.
ghost use Rattle.std.specs.Prelude.{◌≡◌, ◌≤◌};
ghost use Rattle.waiting.specs.Steps.{begun, halted, gone_on};

use crate::state::State;
use boxes::half::Box;
use boxes::visit::Word;

// A kept box, as the list has it.
#[derive(Clone, Copy, PartialEq, Eq)]
pub struct Kept {
    pub at: Box,
    pub mark: u8,
}

#[derive(Clone, Copy)]
pub struct Cursor {
    pub state: State,
    // What is left of the budget.
    pub left: u32,
    // The length of the list.
    pub room: usize,
    // The record that the last step keeps, and its place in the list.
    pub put: Option<(usize, Kept)>,
    // The answer of a run that does not go on.
    pub word: Option<Word>,
}

impl Cursor {
    // Where a call of a run begins.
    pub fn new(state: State, budget: u32, room: usize) -> Self
        ensures { result ≡ begun state budget room }
    {
        Cursor {
            state,
            left: budget,
            room,
            put: None,
            word: None,
        }
    }

    // A stop moves nothing.
    pub fn halt(self, w: Word) -> Self
        ensures { result ≡ halted self w }
    {
        Cursor {
            put: None,
            word: Some(w),
            ..self
        }
    }

    // A visit made.
    pub fn go_on(self, state: State, put: Option<(usize, Kept)>) -> Self
        requires { 1 ≤ self.left }
        ensures { result ≡ gone_on self state put }
    {
        Cursor {
            state,
            left: self.left - 1,
            put,
            word: None,
            ..self
        }
    }
}
