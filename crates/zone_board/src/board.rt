// A board: what answers the parts of requests, one lock at a time.
ghost use Rattle.std.specs.Prelude.{◌≡◌, ◌<◌, length, IfOk, IfErr};
ghost use Rattle.board_model.specs.Parts.{MayBeAsked};
ghost use Rattle.board_model.specs.Turns.{BoardState, AreLegal, IsAsked, MayHaveAsked};

use board_model::{Answered, Part};
use ck_base::NoMemory;
use std::alloc::{AllocError, AllocFailed};

/// Why an ask has no answer.
#[derive(Clone, Copy, Debug, PartialEq, Eq)]
pub enum AskFault {
    /// Memory ran out.
    NoMemory,
}

impl From<NoMemory> for AskFault {
    fn from(_e: NoMemory) -> Self {
        AskFault::NoMemory
    }
}

impl From<AllocError> for AskFault {
    fn from(_e: AllocError) -> Self {
        AskFault::NoMemory
    }
}

impl<T: Drop> From<AllocFailed<T>> for AskFault {
    fn from(_e: AllocFailed<T>) -> Self {
        AskFault::NoMemory
    }
}

/// Answers the parts of requests. It keeps a history of events for each of the 16 locks, which are
/// legal.
pub trait Board {
    /// What it tells of itself.
    ghost state: { Self → BoardState };

    /// Answers a part in one step at its lock, at the history that is found there.
    fn ask(&mut self, lock: u8, part: &Part) -> Result<Answered, AskFault>
        requires lock { lock < 16 }
        requires part { MayBeAsked lock part.now }
        ensures asked { IfOk result (IsAsked (state self.old) (state self.new) lock part.now) }
        ensures failed { IfErr result (λ _. MayHaveAsked (state self.old) (state self.new) lock part.now) };

    /// How long the history of the lock is, as far as the board has seen it.
    fn seen(&self, lock: u8) -> u64
        requires { lock < 16 }
        ensures { result ≡ length ((state self.now).histories lock) };

    /// Each history that the board has seen is legal. The call does nothing: its clause is a law.
    fn hold_legal(&self)
        ensures { AreLegal (state self.now).histories };
}
