//! Of which participants nothing came for how many views.

ghost use Rattle.std.specs.Prelude.{◌≡◌, ◌+◌, ◌-◌, ◌^◌, IfOk, false, map, min, nat_le, replicate};
ghost use Rattle.std.specs.Prelude.{set};
ghost use Rattle.std.specs.List.{slice_get};
ghost use Rattle.std.specs.Option.{option_map_or};
ghost use Rattle.batcher_validator.specs.Absence.{with_sign};

use batcher::positions::Participant;
use std::alloc::{AllocError, Global};
use std::marker::Model;

/// Of each participant how many views were entered since something came of it, 2^64 - 1 at most.
#[derive(Drop)]
pub(crate) struct Presence {
    silences: Vec<u64>,
}

impl Model for Presence {
    ghost use Rattle.std.specs.Prelude.{ℕ, List};

    ghost Value = { List ℕ };

    ghost view = { λ p. p.silences.items };
}

impl Presence {
    /// No view was entered so far.
    pub(crate) fn new(alloc: Global, participants: usize) -> Result<Self, AllocError>
        ensures { IfOk result (λ it. it ≡ replicate participants 0) }
    {
        let silences = vec![in alloc; 0u64; participants]?;
        Ok(Presence { silences })
    }

    // Something came of a participant.
    fn hear(&mut self, who: Participant)
        ensures { self.new ≡ set self.old who.0 0 }
    {
        match self.silences.get_mut(who.0 as usize) {
            Some(silence) => *silence = 0,
            None => {}
        }
    }

    /// A message came of a participant, and whether it is a sign of life.
    pub(crate) fn note(&mut self, sender: Option<Participant>, is_sign: bool)
        ensures { self.new ≡ with_sign is_sign sender self.old }
    {
        if !is_sign {
            return;
        }
        match sender {
            Some(who) => self.hear(who),
            None => {}
        }
    }

    /// A view is entered.
    pub(crate) fn enter(&mut self)
        ensures { self.new ≡ map (λ silence. min (silence + 1) (2 ^ 64 - 1)) self.old }
    {
        for silence in self.silences.iter_mut() {
            *silence = silence.saturating_add(1);
        }
    }

    /// Whether so many views were entered since something came of the participant.
    pub(crate) fn is_silent(&self, who: Participant, views: u64) -> bool
        ensures { result
            ≡ option_map_or (λ silence. nat_le views silence) (slice_get self.now who.0) false }
    {
        match self.silences.get(who.0 as usize) {
            Some(silence) => views <= *silence,
            None => false,
        }
    }
}
