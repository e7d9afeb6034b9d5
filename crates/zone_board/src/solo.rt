// The board of one thread.
ghost use Rattle.std.specs.Prelude.{◌≡◌, ◌<◌, ℕ, [], IfOk, IfErr, OnErr};
ghost use Rattle.board_model.specs.Parts.{MayBeAsked};
ghost use Rattle.board_model.specs.Turns.{IsAsked, MayHaveAsked};
ghost use Rattle.zone_model.specs.Legal.{IsLegal};
ghost use Rattle.zone_board.specs.Stripes.{list_at, solo};

use crate::stripe::{Stripe, ask_counted};
use crate::{AskFault, Board};
use board_model::{Answered, Part};
use std::alloc::Global;
use std::marker::Model;
use zone_model::Event;

/// A board for one thread, in memory: for each of the 16 locks its events, and the lengths at which asks of
/// it were answered. Contracts see it as these. It has no store.
#[derive(Drop)]
pub struct Solo {
    alloc: Global,
    stripes: [Stripe; 16],
}

impl Model for Solo {
    ghost use Rattle.std.specs.Prelude.{◌<◌, ℕ, List};
    ghost use Rattle.std.specs.Coded.{codes};
    ghost use Rattle.record_model.specs.contracts.value.Value as field_value;
    ghost use Rattle.zone_model.specs.declared.events.Event.{Event};
    ghost use Rattle.zone_board.specs.Stripes.{events_in, turns_in, list_at};
    ghost use Rattle.zone_board.specs.Kept.{IsKept};

    ghost Value = { List (List Event) × List (List ℕ) };

    ghost coded = { Prim.hlevel (codes, field_value.the_row.coded) };

    ghost view = { λ s. (events_in s.stripes, turns_in s.stripes) };

    ghost invariant = { λ s. (lock : ℕ) → lock < 16 → IsKept lock (list_at (events_in s.stripes) lock) };
}

impl Solo {
    /// A board without events, which has had no asks.
    pub fn new(alloc: Global) -> Solo
        ensures events { (lock : ℕ) → (solo result).histories lock ≡ [] }
        ensures turns { (lock : ℕ) → (solo result).turns lock ≡ [] }
    {
        Solo {
            alloc,
            stripes: [
                Stripe::new(alloc),
                Stripe::new(alloc),
                Stripe::new(alloc),
                Stripe::new(alloc),
                Stripe::new(alloc),
                Stripe::new(alloc),
                Stripe::new(alloc),
                Stripe::new(alloc),
                Stripe::new(alloc),
                Stripe::new(alloc),
                Stripe::new(alloc),
                Stripe::new(alloc),
                Stripe::new(alloc),
                Stripe::new(alloc),
                Stripe::new(alloc),
                Stripe::new(alloc),
            ],
        }
    }

    /// The events of a lock, in order.
    pub fn events(&self, lock: u8) -> &[Event]
        requires { lock < 16 }
        ensures events { result.now ≡ list_at self.now.0 lock }
        ensures legal { IsLegal lock result.now }
    {
        self.stripes[lock as usize].events.as_slice()
    }
}

impl Board for Solo {
    ghost state = { solo };

    // Want of memory leaves the board.
    fn ask(&mut self, lock: u8, part: &Part) -> Result<Answered, AskFault>
        requires lock { lock < 16 }
        requires part { MayBeAsked lock part.now }
        ensures asked { IfOk result (IsAsked (solo self.old) (solo self.new) lock part.now) }
        ensures failed { IfErr result (λ _. MayHaveAsked (solo self.old) (solo self.new) lock part.now) }
        ensures kept { OnErr result (solo self.new ≡ solo self.old) }
    {
        ask_counted(self.alloc, &mut self.stripes[lock as usize], lock, part)
    }

    fn seen(&self, lock: u8) -> u64 {
        self.stripes[lock as usize].events.len() as u64
    }

    // The histories are looked at for what is known of them.
    fn hold_legal(&self) {
        let _first = self.stripes[0].events.len();
    }
}
