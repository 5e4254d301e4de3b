ghost use Rattle.std.specs.Prelude.{◌≡◌, ℕ, List, ℤ};
ghost use Rattle.board.specs.Meaning.{Looked, Put, Refuses, Restarted, Stored};
ghost use Rattle.readings.specs.declared.fault.Fault.TheVariants.{InvalidChannel};
ghost use Rattle.readings.specs.declared.outcome.Outcome.{Outcome};
ghost use Rattle.readings.specs.declared.outcome.Outcome.TheVariants.{Fault};

use crate::refusal::PutRefusal;
use readings::Outcome;

// A board of readings. It has a fixed count of slots, and for each slot a share, a list of whole
// numbers. Three rules, which read the share and the arguments only, say what its calls do.
pub trait Board {
    // How many slots it has. No call changes it.
    ghost count: { Self → ℕ };

    // What a slot holds, by the slot's number.
    ghost share: { Self → ℕ → List ℤ };

    // The outcome of a channel.
    ghost tells: { List ℤ → ℕ → Outcome };

    // The share after a put on a channel, or the put's refusal.
    ghost stored: { List ℤ → ℕ → Outcome → Stored };

    // The share after a restart.
    ghost restarted: { List ℤ → List ℤ };

    // The count of slots.
    fn slots(&self) -> usize
        ensures { result ≡ count self.now };

    // The outcome that a slot's channel shows, fault 24h beyond the slots.
    fn look(&self, slot: usize, channel: u16) -> Outcome
        ensures { Looked tells (count self.now) (share self.now) slot channel result };

    // Stores an outcome on a slot's channel by the rule. Every other share stays, and all of them
    // if the put is refused; beyond the slots it is refused. The rule refuses fault 24h, which says
    // that there is no such channel, for every share and channel. (This is a clause and no law of
    // the trait, since each board would have to write out the proof of a law, and the check looks
    // for that of a clause by itself.)
    fn put(&mut self, slot: usize, channel: u16, outcome: Outcome) -> Result<(), PutRefusal>
        ensures same { count self.new ≡ count self.old }
        ensures after { Put stored (count self.old) (share self.old) (share self.new) slot channel outcome result }
        ensures invalid { (kept : List ℤ) (channel : ℕ) → Refuses (stored kept channel (Fault InvalidChannel)) };

    // Restarts a slot by the rule. Every other share stays; beyond the slots nothing is done.
    fn restart(&mut self, slot: usize)
        ensures same { count self.new ≡ count self.old }
        ensures after { Restarted restarted (count self.old) (share self.old) (share self.new) slot };
}
